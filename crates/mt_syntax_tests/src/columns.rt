// Columns of places in a text.
use mt_printer::column;
use std::test::Fail;

#[test]
fn a_column_counts_widths_from_the_line_end(rt: HostRuntime) -> Result<(), Fail> {
    assert_eq!(rt; column("", 0), 1);
    assert_eq!(rt; column("axiom a", 6), 7);
    assert_eq!(rt; column("≝ a", 4), 3);
    assert_eq!(rt; column("a\n日本 b", 9), 6);
    Ok(())
}
