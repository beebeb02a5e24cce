use mt_reading_laws::reading_back;

#[test]
fn law(_rt: HostRuntime) {
    reading_back();
}
