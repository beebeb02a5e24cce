// Laws over the definitions of printed text: each function does nothing, and its clause is the law.
ghost use Rattle.mt_printer.specs.Laws.{InstanceFunctionLaw};

/// Over a store in which no metavariable is below itself, what is printed of a term is its
/// instance.
pub fn printed_instances()
    ensures law { InstanceFunctionLaw }
{}
