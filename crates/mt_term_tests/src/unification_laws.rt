use mt_unification_laws::{
    going_by_allowance, proper_stores, reach_by_test, refusal_shows_terms, store_grows,
    unification_gives_conversion,
};

#[test]
fn laws(_rt: HostRuntime) {
    going_by_allowance();
    refusal_shows_terms();
    store_grows();
    unification_gives_conversion();
    proper_stores();
    reach_by_test();
}
