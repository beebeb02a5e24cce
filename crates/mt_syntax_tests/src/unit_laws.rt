use mt_unit_laws::{place_of_fault, place_of_unit, places_in_unit, unit_by_seen_bytes};

#[test]
fn laws(_rt: HostRuntime) {
    unit_by_seen_bytes();
    place_of_unit();
    places_in_unit();
    place_of_fault();
}
