// Names, numbers and signs.
ghost use Rattle.std.specs.Prelude.{◌≡◌, ◌+◌, ◌-◌, ◌<◌, ◌≤◌, ◌==◌, ◌∷◌, length, min, take, drop, slice_index, IfOk, IfErr, IsTrue};
ghost use Rattle.std.specs.List.{list_any};
ghost use Rattle.std.specs.Str.{IsCharBoundary};
ghost use Rattle.mt_lexer.specs.Tokens.{chars_from, is_start, is_digit, is_in, run, is_reserved, name_token, value_onto, number_token, signs, is_arrow, sign_token, token_at};
ghost use Rattle.mt_lexer.specs.Places.{IsPlaced, IsStop};

use crate::gaps::char_at;
use crate::{LexStop, Token, TokenKind};
use unicode_ident::{is_xid_continue, is_xid_start};

// A class of characters.
#[derive(Clone, Copy)]
pub enum Class {
    Continue,
    Digit,
}

// The token that begins at a place.
pub fn token_at(text: &str, at: usize) -> Result<Token, LexStop>
    requires { IsCharBoundary text.now at }
    ensures token { result ≡ token_at at (chars_from text.now at) }
    ensures placed { IfOk result (IsPlaced text.now at) }
    ensures stop { IfErr result (λ stop. stop ≡ LexStop.Lex at) }
{
    if at >= text.len() {
        return Ok(Token {
            kind: TokenKind::End,
            start: at,
            end: at,
        });
    }
    let c = char_at(text, at);
    if is_start(c) {
        name_token(text, at)
    } else if is_digit(c) {
        number_token(text, at)
    } else {
        sign_token(text, at)
    }
}

fn name_token(text: &str, start: usize) -> Result<Token, LexStop>
    requires boundary { IsCharBoundary text.now start }
    requires first { start < length text.now }
    requires starts { IsTrue (is_in Class.Continue (slice_index (chars_from text.now start) 0)) }
    ensures token { result ≡ name_token start (run Class.Continue (chars_from text.now start)) }
    ensures placed { IfOk result (IsPlaced text.now start) }
    ensures stop { IfErr result (λ stop. stop ≡ LexStop.Lex start) }
{
    let end = run_end(text, start, Class::Continue);
    let word = &text[start..end];
    if word.len() > 255 {
        return Err(LexStop::Lex(start));
    }
    let kind = if is_reserved(word) {
        TokenKind::Reserved
    } else {
        TokenKind::Name
    };
    Ok(Token { kind, start, end })
}

fn number_token(text: &str, start: usize) -> Result<Token, LexStop>
    requires boundary { IsCharBoundary text.now start }
    requires first { start < length text.now }
    requires starts { IsTrue (is_in Class.Digit (slice_index (chars_from text.now start) 0)) }
    ensures token { result ≡ number_token start (run Class.Digit (chars_from text.now start)) }
    ensures placed { IfOk result (IsPlaced text.now start) }
    ensures stop { IfErr result (λ stop. stop ≡ LexStop.Lex start) }
{
    let end = run_end(text, start, Class::Digit);
    let digits = text[start..end].as_bytes();
    let value = value_of(digits);
    if (digits[0] == b'0' && digits.len() > 1) || value > 4_294_967_295 {
        return Err(LexStop::Lex(start));
    }
    Ok(Token {
        kind: TokenKind::Number(value as u32),
        start,
        end,
    })
}

// The value of digits, or 2 ^ 32 where it is past that.
fn value_of(digits: &[u8]) -> u64
    ensures { result ≡ min (value_onto 0 digits.now) 4294967296 }
{
    let mut value: u64 = 0;
    for digit in digits {
        value = (value * 10 + u64::from(digit.saturating_sub(b'0'))).min(4_294_967_296);
    }
    value
}

const SIGNS: [char; 27] = [
    '(', ')', '[', ']', '{', '}', '.', ';', ',', '|', ':', '*', '<', '+', '?', '@', '#', '…', 'λ',
    '∀', '→', '⇒', '≝', '≔', '≟', '≡', '⊢',
];

fn sign_token(text: &str, start: usize) -> Result<Token, LexStop>
    requires boundary { IsCharBoundary text.now start }
    requires first { start < length text.now }
    ensures token { result ≡ sign_token start (slice_index (chars_from text.now start) 0) (slice_index (chars_from text.now start) 1) }
    ensures placed { IfOk result (IsPlaced text.now start) }
    ensures stop { IfErr result (λ stop. stop ≡ LexStop.Lex start) }
{
    let c = char_at(text, start);
    let after = start + c.len_utf8();
    let end = if is_arrow(c, char_at(text, after)) {
        after + 1
    } else if is_sign(c) {
        after
    } else {
        return Err(LexStop::Lex(start));
    };
    Ok(Token {
        kind: TokenKind::Sign,
        start,
        end,
    })
}

// Whether two characters are `->` or `=>`.
fn is_arrow(c: char, next: char) -> bool
    ensures value { result ≡ is_arrow c next }
    ensures ascii { IsTrue result → (c < 128) × (next ≡ 62) }
{
    (c == '-' || c == '=') && next == '>'
}

fn is_sign(c: char) -> bool
    ensures { result ≡ list_any (λ s. s == c) signs }
{
    SIGNS.contains(&c)
}

// The place after the characters of a class from a place on.
fn run_end(text: &str, from: usize, class: Class) -> usize
    requires { IsCharBoundary text.now from }
    ensures end { result ≡ from + length (run class (chars_from text.now from)) }
    ensures bytes { run class (chars_from text.now from) ≡ take (result - from) (drop from text.now) }
    ensures boundary { IsCharBoundary text.now result }
    ensures some { from < length text.now → IsTrue (is_in class (slice_index (chars_from text.now from) 0)) → from < result }
{
    let mut at = from;
    while at < text.len() {
        let c = char_at(text, at);
        if !is_in(class, c) {
            return at;
        }
        at += c.len_utf8();
    }
    at
}

fn is_in(class: Class, c: char) -> bool
    ensures { result ≡ is_in class c }
{
    match class {
        Class::Continue => is_continue(c),
        Class::Digit => is_digit(c),
    }
}

fn is_start(c: char) -> bool
    ensures { result ≡ is_start c }
{
    (c == '_' || is_xid_start(c)) && c != 'λ'
}

fn is_continue(c: char) -> bool
    ensures { result ≡ is_in Class.Continue c }
{
    is_xid_continue(c) && c != 'λ'
}

fn is_digit(c: char) -> bool
    ensures { result ≡ is_digit c }
{
    '0' <= c && c <= '9'
}

fn is_reserved(word: &str) -> bool
    ensures { result ≡ is_reserved word.now }
{
    word == "Prop"
        || word == "Type"
        || word == "match"
        || word == "return"
        || word == "with"
        || word == "fun"
        || word == "forall"
        || word == "let"
        || word == "in"
}
