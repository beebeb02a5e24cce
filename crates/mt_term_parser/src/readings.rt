// Tokens where they are needed, and where they may stand.
ghost use Rattle.std.specs.Prelude.{◌≡◌, ◌<◌, ◌≤◌, ◌==◌, length, slice_index, IsTrue, IfSome, OnSome, IfOk, IfErr, MatchResult};
ghost use Rattle.std.specs.Str.{IsCharBoundary, chars};
ghost use Rattle.mt_lexer.specs.Places.{IsPlaced};
ghost use Rattle.mt_term_parser.specs.Readings.{Got, many_from, needed, word_of, sign_from, sign_spelled, sign_of, is_word, is_name_kind, is_name, sign, word, name, binder, number, sees_sign, sees_word, sees, seen, IsEnd, HaltsAs, Reads, Passes, StopsInText};

use mt_lexer::{LexStop, Token, TokenKind, next};
use mt_term::{Fault, Halt, Name, Names, Refusal};
use std::alloc::{AllocError, Global};

/// The next token, which is needed.
pub fn require_token(text: &str, at: usize) -> Result<Token, Halt>
    requires { IsCharBoundary text.now at }
    ensures reads { MatchResult result (λ t. needed text.now at ≡ Got t t.end) (HaltsAs (needed text.now at)) }
    ensures placed { IfOk result (IsPlaced text.now at) }
    ensures some { IfOk result (λ t. t.start < t.end) }
    ensures end { IfOk result (λ t. IsEnd text.now at t.end) }
    ensures stop { IfErr result (StopsInText text.now) }
{
    match next(text, at) {
        Ok(token) => match token.kind {
            TokenKind::End => Err(refusal_at(Refusal::Incomplete, token.start)),
            _ => Ok(token),
        },
        Err(LexStop::Lex(at)) => Err(refusal_at(Refusal::Lex, at)),
        Err(LexStop::Incomplete(at)) => Err(refusal_at(Refusal::Incomplete, at)),
    }
}

fn refusal_at(refusal: Refusal, at: usize) -> Halt
    ensures { result ≡ Halt.Refused (record { refusal = refusal; at = at }) }
{
    Halt::Refused(Fault { refusal, at })
}

/// A token that cannot stand there.
pub fn misplacement(token: &Token) -> Halt
    ensures { result ≡ Halt.Refused (record { refusal = Refusal.Syntax; at = token.now.start }) }
{
    refusal_at(Refusal::Syntax, token.start)
}

/// The text of a token.
pub fn word_of<'a>(text: &'a str, token: &Token) -> &'a str
    requires order { token.now.start ≤ token.now.end }
    requires start { IsCharBoundary text.now token.now.start }
    requires stop { IsCharBoundary text.now token.now.end }
    ensures { result.now ≡ word_of text.now token.now }
{
    &text[token.start..token.end]
}

/// The character of a sign, in its first spelling, or NUL where the token is no sign.
pub fn sign_of(text: &str, token: &Token) -> char
    requires order { token.now.start ≤ token.now.end }
    requires start { IsCharBoundary text.now token.now.start }
    requires stop { IsCharBoundary text.now token.now.end }
    ensures { result ≡ sign_of text.now token.now }
{
    match token.kind {
        TokenKind::Sign => sign_from(first_char(&text[token.start..])),
        TokenKind::Reserved => sign_spelled(word_of(text, token)),
        _ => '\0',
    }
}

fn first_char(text: &str) -> char
    ensures { result ≡ slice_index (chars text.now) 0 }
{
    match text.chars().next() {
        Some(c) => c,
        None => '\0',
    }
}

fn sign_from(c: char) -> char
    ensures { result ≡ sign_from c }
{
    match c {
        '-' => '→',
        '=' => '⇒',
        _ => c,
    }
}

fn sign_spelled(word: &str) -> char
    ensures { result ≡ sign_spelled word.now }
{
    if word == "fun" {
        'λ'
    } else if word == "forall" {
        '∀'
    } else {
        '\0'
    }
}

/// Whether the token is this reserved word.
pub fn is_word(wanted: &str, text: &str, token: &Token) -> bool
    requires order { token.now.start ≤ token.now.end }
    requires start { IsCharBoundary text.now token.now.start }
    requires stop { IsCharBoundary text.now token.now.end }
    ensures { result ≡ is_word wanted.now text.now token.now }
{
    match token.kind {
        TokenKind::Reserved => word_of(text, token) == wanted,
        _ => false,
    }
}

/// Whether the token may name a binder: it is a name or `_`.
pub fn is_name_kind(token: &Token) -> bool
    ensures { result ≡ is_name_kind token.now.kind }
{
    match token.kind {
        TokenKind::Name => true,
        _ => false,
    }
}

/// Whether the token is a name, and not `_`.
pub fn is_name(text: &str, token: &Token) -> bool
    requires order { token.now.start ≤ token.now.end }
    requires start { IsCharBoundary text.now token.now.start }
    requires stop { IsCharBoundary text.now token.now.end }
    ensures { result ≡ is_name text.now token.now }
{
    is_name_kind(token) && word_of(text, token) != "_"
}

/// The end of a sign that is needed.
pub fn sign_at(wanted: char, text: &str, at: usize) -> Result<usize, Halt>
    requires { IsCharBoundary text.now at }
    ensures reads { Passes (sign wanted text.now at) result }
    ensures end { IfOk result (IsEnd text.now at) }
    ensures stop { IfErr result (StopsInText text.now) }
{
    let token = require_token(text, at)?;
    if sign_of(text, &token) == wanted {
        Ok(token.end)
    } else {
        Err(misplacement(&token))
    }
}

/// The end of a reserved word that is needed.
pub fn word_at(wanted: &str, text: &str, at: usize) -> Result<usize, Halt>
    requires { IsCharBoundary text.now at }
    ensures reads { Passes (word wanted.now text.now at) result }
    ensures end { IfOk result (IsEnd text.now at) }
    ensures stop { IfErr result (StopsInText text.now) }
{
    let token = require_token(text, at)?;
    if is_word(wanted, text, &token) {
        Ok(token.end)
    } else {
        Err(misplacement(&token))
    }
}

/// A name that is needed.
pub fn name_at(alloc: Global, text: &str, at: usize) -> Result<(Name, usize), Halt>
    requires { IsCharBoundary text.now at }
    ensures reads { Reads (λ x. x) (name text.now at) result }
    ensures end { IfOk result (λ p. IsEnd text.now at p.1) }
    ensures stop { IfErr result (StopsInText text.now) }
{
    let token = require_token(text, at)?;
    if is_name(text, &token) {
        Ok((name_of(alloc, text, &token)?, token.end))
    } else {
        Err(misplacement(&token))
    }
}

/// The name of a binder, which is needed.
pub fn binder_at(alloc: Global, text: &str, at: usize) -> Result<(Name, usize), Halt>
    requires { IsCharBoundary text.now at }
    ensures reads { Reads (λ x. x) (binder text.now at) result }
    ensures end { IfOk result (λ p. IsEnd text.now at p.1) }
    ensures stop { IfErr result (StopsInText text.now) }
{
    let token = require_token(text, at)?;
    if is_name_kind(&token) {
        Ok((name_of(alloc, text, &token)?, token.end))
    } else {
        Err(misplacement(&token))
    }
}

/// The name that a token spells.
pub fn name_of(alloc: Global, text: &str, token: &Token) -> Result<Name, AllocError>
    requires order { token.now.start ≤ token.now.end }
    requires start { IsCharBoundary text.now token.now.start }
    requires stop { IsCharBoundary text.now token.now.end }
    ensures { IfOk result (λ x. x ≡ word_of text.now token.now) }
{
    Name::from_bytes(alloc, word_of(text, token).as_bytes())
}

/// A number that is needed.
pub fn number_at(text: &str, at: usize) -> Result<(u32, usize), Halt>
    requires { IsCharBoundary text.now at }
    ensures reads { Reads (λ n. n) (number text.now at) result }
    ensures end { IfOk result (λ p. IsEnd text.now at p.1) }
    ensures stop { IfErr result (StopsInText text.now) }
{
    let token = require_token(text, at)?;
    match token.kind {
        TokenKind::Number(value) => Ok((value, token.end)),
        _ => Err(misplacement(&token)),
    }
}

/// The next token, if there is one.
pub fn peek_token(text: &str, at: usize) -> Option<Token>
    requires { IsCharBoundary text.now at }
    ensures value { result ≡ seen text.now at }
    ensures placed { IfSome result (IsPlaced text.now at) }
    ensures inside { OnSome result (at < length text.now) }
{
    match next(text, at) {
        Ok(token) => match token.kind {
            TokenKind::End => None,
            _ => Some(token),
        },
        Err(_) => None,
    }
}

/// Whether the next token is this sign.
pub fn sees_sign(wanted: char, text: &str, at: usize) -> bool
    requires { IsCharBoundary text.now at }
    ensures value { result ≡ sees_sign wanted text.now at }
    ensures inside { IsTrue result → at < length text.now }
{
    match peek_token(text, at) {
        Some(token) => sign_of(text, &token) == wanted,
        None => false,
    }
}

/// Whether the next token is this reserved word.
pub fn sees_word(wanted: &str, text: &str, at: usize) -> bool
    requires { IsCharBoundary text.now at }
    ensures value { result ≡ sees_word wanted.now text.now at }
    ensures inside { IsTrue result → at < length text.now }
{
    match peek_token(text, at) {
        Some(token) => is_word(wanted, text, &token),
        None => false,
    }
}

/// Whether the next token is a name, and not `_`.
pub fn sees_name(text: &str, at: usize) -> bool
    requires { IsCharBoundary text.now at }
    ensures value { result ≡ sees (is_name text.now) text.now at }
    ensures inside { IsTrue result → at < length text.now }
{
    match peek_token(text, at) {
        Some(token) => is_name(text, &token),
        None => false,
    }
}

/// Whether the next token may name a binder.
pub fn sees_binder(text: &str, at: usize) -> bool
    requires { IsCharBoundary text.now at }
    ensures value { result ≡ sees (λ t. is_name_kind t.kind) text.now at }
    ensures inside { IsTrue result → at < length text.now }
{
    match peek_token(text, at) {
        Some(token) => is_name_kind(&token),
        None => false,
    }
}

/// The names of binders, as many as there are.
pub fn binders_at(alloc: Global, text: &str, at: usize) -> Result<(Names, usize), Halt>
    requires { IsCharBoundary text.now at }
    ensures reads { Reads (λ x. x) (many_from text.now (sees (λ t. is_name_kind t.kind) text.now) (binder text.now) at) result }
    ensures end { IfOk result (λ p. (at ≤ p.1) × IsCharBoundary text.now p.1) }
    ensures stop { IfErr result (StopsInText text.now) }
{
    let mut names = Names::new(alloc);
    let mut end = at;
    'row: while sees_binder(text, end) {
        let (name, last) = binder_at(alloc, text, end)?;
        names.push(name)?;
        end = last;
    }
    Ok((names, end))
}
