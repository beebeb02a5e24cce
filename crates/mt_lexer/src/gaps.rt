// Blanks and comments.
ghost use Rattle.std.specs.Prelude.{◌≡◌, ◌+◌, ◌<◌, ◌≤◌, false, ◌∷◌, ◌++◌, length, drop, slice_index, encode_utf8, IfOk, IfErr};
ghost use Rattle.std.specs.Char.{len_utf8};
ghost use Rattle.std.specs.Str.{IsCharBoundary};
ghost use Rattle.mt_lexer.specs.Tokens.{chars_from, piece, gap, is_blank};

use crate::LexStop;

// What a character is between tokens, within open comments.
#[derive(Clone, Copy)]
pub enum Piece {
    Opening,
    Closing,
    Passed,
    Other,
}

// The place after the blanks and comments from a place on.
pub fn skip_gap(text: &str, from: usize) -> Result<usize, LexStop>
    requires { IsCharBoundary text.now from }
    ensures gap { result ≡ gap 0 false from (chars_from text.now from) }
    ensures after { IfOk result (λ at. from ≤ at) }
    ensures boundary { IfOk result (IsCharBoundary text.now) }
    ensures stop { IfErr result (λ stop. stop ≡ LexStop.Incomplete (length text.now)) }
{
    let mut at = from;
    let mut depth: usize = 0;
    while at < text.len() {
        let c = char_at(text, at);
        let after = at + c.len_utf8();
        match piece_of(depth, c, char_at(text, after)) {
            Piece::Opening => {
                depth += 1;
                at = after + 1;
            }
            Piece::Closing => {
                depth -= 1;
                at = after + 1;
            }
            Piece::Passed => at = after,
            Piece::Other => return Ok(at),
        }
    }
    if depth == 0 {
        Ok(at)
    } else {
        Err(LexStop::Incomplete(at))
    }
}

fn piece_of(depth: usize, c: char, next: char) -> Piece
    ensures { result ≡ piece depth c next }
{
    if c == '(' && next == '*' {
        Piece::Opening
    } else if depth == 0 {
        if is_blank(c) {
            Piece::Passed
        } else {
            Piece::Other
        }
    } else if c == '*' && next == ')' {
        Piece::Closing
    } else {
        Piece::Passed
    }
}

fn is_blank(c: char) -> bool
    ensures { result ≡ is_blank c }
{
    c == ' ' || c == '\t' || c == '\r' || c == '\n'
}

// The character that begins at a place, or NUL at the end of the text.
pub fn char_at(text: &str, at: usize) -> char
    requires { IsCharBoundary text.now at }
    ensures value { result ≡ slice_index (chars_from text.now at) 0 }
    ensures inside { at < length text.now → chars_from text.now at ≡ result ∷ chars_from text.now (at + len_utf8 result) }
    ensures next { at < length text.now → IsCharBoundary text.now (at + len_utf8 result) }
    ensures bytes { at < length text.now → drop at text.now ≡ encode_utf8 result ++ drop (at + len_utf8 result) text.now }
    ensures some { 0 < result → at < length text.now }
{
    match text[at..].chars().next() {
        Some(c) => c,
        None => '\0',
    }
}
