// The order of sorts by valuations: each function does nothing, and its clause is the law.
ghost use Rattle.mt_universe.specs.OrderLaw.{CycleLaw, ExpressionOrderLaw, SameSortLaw, SortOrderLaw};

/// The test by longest paths is the order of universe expressions by valuations.
pub fn expression_order_by_valuations()
    ensures law { ExpressionOrderLaw }
{}

/// The order of sorts that the rules use is the one by valuations.
pub fn sort_order_by_valuations()
    ensures law { SortOrderLaw }
{}

/// Sorts that the rules take for the same have the same values.
pub fn same_sorts_by_valuations()
    ensures law { SameSortLaw }
{}

/// The test for a cycle is that no valuation meets the constraints.
pub fn cycle_by_valuations()
    ensures law { CycleLaw }
{}
