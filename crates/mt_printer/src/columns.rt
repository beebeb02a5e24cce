// The column of a place of a text.
ghost use Rattle.std.specs.Prelude.{◌≡◌, ◌+◌, ◌-◌, ◌≤◌, false, take, drop, chars, length};
ghost use Rattle.std.specs.Str.{IsCharBoundary, IsUtf8};
ghost use Rattle.mt_printer.specs.Columns.{line_start, column_of};

use unicode_width::UnicodeWidthStr;

/// One more than the width of the text from the last line end before a place.
pub fn column(text: &str, at: usize) -> usize
    requires { IsCharBoundary text.now at }
    ensures { result ≡ column_of text.now at }
{
    let start = line_start(text, at);
    let line = &text[start..at];
    line.width() + 1
}

// The place after the last line end before a place, or 0.
fn line_start(text: &str, at: usize) -> usize
    requires { IsCharBoundary text.now at }
    ensures is { result ≡ line_start text.now at }
    ensures before { result ≤ at }
    ensures boundary { IsCharBoundary text.now result }
{
    let bytes = text.as_bytes();
    let mut start = at;
    while start > 0 && bytes[start - 1] != b'\n' {
        start -= 1;
    }
    start
}
