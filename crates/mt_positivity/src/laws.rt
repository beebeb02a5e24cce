// Laws of the tests on trees, which are the clauses of functions that do nothing.
ghost use Rattle.mt_positivity.specs.PositivityLaw.{AvoidingLaw, PositivityLaw, RecursivePlaceLaw};

/// The test is true exactly where a term does not mention an entry.
pub fn avoiding_by_test()
    ensures law { AvoidingLaw }
{}

/// The test is true exactly where a type is that of an argument at a recursive place.
pub fn recursive_place_by_test()
    ensures law { RecursivePlaceLaw }
{}

/// The test of positivity is true exactly where a constructor is positive.
pub fn positivity_by_test()
    ensures law { PositivityLaw }
{}
