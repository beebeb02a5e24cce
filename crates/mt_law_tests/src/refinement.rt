use mt_refinement_laws::{
    going_by_allowance, proper_stores, refinement_gives_typing, refinement_meets_laws,
    refusals_have_places, store_grows,
};

#[test]
fn laws(_rt: HostRuntime) {
    going_by_allowance();
    store_grows();
    refusals_have_places();
    refinement_gives_typing();
    proper_stores();
    refinement_meets_laws();
}
