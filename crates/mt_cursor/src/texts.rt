// Texts, and texts with a range replaced.
ghost use Rattle.std.specs.Prelude.{◌≡◌, ◌≤◌, ◌+◌, ◌-◌, ◌++◌, length, take, drop, string_bytes, IfOk, IsErrOf, OnErr, nat_le};
ghost use Rattle.std.specs.Str.{IsCharBoundary, IsUtf8, is_utf8};
ghost use Rattle.mt_cursor.specs.Texts.{IsCopyOf, IsEndOf, IsTextOf, Replaces, Splices};
ghost use Rattle.mt_cursor.specs.Sessions.{most};

use crate::CursorStop;
use std::alloc::Global;

// The most bytes of a text.
const MOST: usize = 1_048_576;

/// The bytes as a text. `BadEdit` comes exactly where they are none.
pub fn as_text(alloc: Global, bytes: &[u8]) -> Result<String, CursorStop>
    ensures { IsTextOf bytes.now result }
{
    match str::from_utf8(bytes) {
        Ok(text) => copied(alloc, text),
        Err(_) => Err(CursorStop::BadEdit),
    }
}

// A copy of a text that is not too long.
fn copied(alloc: Global, text: &str) -> Result<String, CursorStop>
    ensures { IsCopyOf text.now result }
{
    if text.len() > MOST {
        return Err(CursorStop::BadEdit);
    }
    let copy = String::from_str(alloc, text)?;
    let _ = copy.as_str();
    Ok(copy)
}

/// A text with `del` bytes from `start` on replaced. `BadEdit` comes exactly where they may not be.
pub fn replaced(
    alloc: Global,
    text: &str,
    start: usize,
    del: usize,
    new: &[u8],
) -> Result<String, CursorStop>
    ensures { Replaces start del new.now text.now result }
{
    match end_of_range(text, start, del) {
        Some(end) => with_range(alloc, text, start, del, end, new),
        None => Err(CursorStop::BadEdit),
    }
}

// The end of a range that is inside the text and on the bounds of characters.
fn end_of_range(text: &str, start: usize, del: usize) -> Option<usize>
    ensures { IsEndOf start del text.now result }
{
    let end = start.checked_add(del)?;
    if text.is_char_boundary(start) && text.is_char_boundary(end) {
        Some(end)
    } else {
        None
    }
}

// A text with such a range replaced.
fn with_range(
    alloc: Global,
    text: &str,
    start: usize,
    del: usize,
    end: usize,
    new: &[u8],
) -> Result<String, CursorStop>
    requires first { IsCharBoundary text.now start }
    requires last { IsCharBoundary text.now (start + del) }
    requires end { end ≡ start + del }
    ensures { Replaces start del new.now text.now result }
{
    match str::from_utf8(new) {
        Ok(new) => {
            if has_room(text.len(), del, new.len()) {
                spliced(alloc, text, start, end, new)
            } else {
                Err(CursorStop::BadEdit)
            }
        }
        Err(_) => Err(CursorStop::BadEdit),
    }
}

// Whether a text of so many bytes has room for new ones in place of some.
fn has_room(len: usize, del: usize, new: usize) -> bool
    ensures { result ≡ nat_le (len - del + new) most }
{
    match len.saturating_sub(del).checked_add(new) {
        Some(all) => all <= MOST,
        None => false,
    }
}

// What stands before a place, new bytes, and what stands from another place on.
fn spliced(
    alloc: Global,
    text: &str,
    start: usize,
    end: usize,
    new: &str,
) -> Result<String, CursorStop>
    requires first { IsCharBoundary text.now start }
    requires last { IsCharBoundary text.now end }
    ensures { Splices start end new.now text.now result }
{
    let mut whole = String::new(alloc);
    whole.push_str(&text[..start])?;
    whole.push_str(new)?;
    whole.push_str(&text[end..])?;
    let _ = whole.as_str();
    Ok(whole)
}
