// The laws of the tests on ids can be called.
use mt_guard::{co_guard_by_test, guard_by_test};
use mt_positivity::{avoiding_by_test, positivity_by_test, recursive_place_by_test};

#[test]
fn of_positivity(_rt: HostRuntime) {
    avoiding_by_test();
    recursive_place_by_test();
    positivity_by_test();
}

#[test]
fn of_the_guard(_rt: HostRuntime) {
    guard_by_test();
    co_guard_by_test();
}
