// Laws of the tests on trees, which are the clauses of functions that do nothing.
ghost use Rattle.mt_guard.specs.GuardLaw.{CoGuardLaw, GuardLaw};

/// The test of the guard is true exactly where a recursive function is guarded.
pub fn guard_by_test()
    ensures law { GuardLaw }
{}

/// The test of the guard is true exactly where a corecursive function is guarded.
pub fn co_guard_by_test()
    ensures law { CoGuardLaw }
{}
