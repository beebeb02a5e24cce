// Sorts as they are written.
ghost use Rattle.std.specs.Prelude.{◌≡◌, ◌<◌, ◌≤◌, IfOk, IfErr};
ghost use Rattle.std.specs.Str.{IsCharBoundary};
ghost use Rattle.mt_term_parser.specs.Readings.{IsEnd, Reads, StopsInText};
ghost use Rattle.mt_term_parser.specs.Grammar.{offset, raised_part, part_at, parts, led, separated};

use crate::raw::{Part, Parts};
use crate::readings::{
    is_name, misplacement, name_of, number_at, require_token, sees_sign, sign_at,
};
use mt_lexer::{Token, TokenKind};
use mt_term::Halt;
use std::alloc::Global;

// `"[" part { "," part } "]"`, after `Type`.
pub fn parts_at(alloc: Global, text: &str, at: usize) -> Result<(Parts, usize), Halt>
    requires { IsCharBoundary text.now at }
    ensures reads { Reads (λ p. p) (parts text.now at) result }
    ensures end { IfOk result (λ p. IsEnd text.now at p.1) }
    ensures stop { IfErr result (StopsInText text.now) }
{
    let first = sign_at('[', text, at)?;
    let (parts, last) = part_list(alloc, text, first)?;
    let end = sign_at(']', text, last)?;
    Ok((parts, end))
}

fn part_list(alloc: Global, text: &str, at: usize) -> Result<(Parts, usize), Halt>
    requires { IsCharBoundary text.now at }
    ensures reads { Reads (λ p. p) (separated 44 text.now (part_at text.now) at) result }
    ensures end { IfOk result (λ p. IsEnd text.now at p.1) }
    ensures stop { IfErr result (StopsInText text.now) }
{
    let mut parts = Parts::new(alloc);
    let (first, mut end) = part_at(alloc, text, at)?;
    parts.push(first)?;
    'row: while sees_sign(',', text, end) {
        let (part, last) = next_part(alloc, text, end)?;
        parts.push(part)?;
        end = last;
    }
    Ok((parts, end))
}

// `"," part`.
fn next_part(alloc: Global, text: &str, at: usize) -> Result<(Part, usize), Halt>
    requires { IsCharBoundary text.now at }
    ensures reads { Reads (λ p. p) (led 44 text.now (part_at text.now) at) result }
    ensures end { IfOk result (λ p. IsEnd text.now at p.1) }
    ensures stop { IfErr result (StopsInText text.now) }
{
    let place = sign_at(',', text, at)?;
    part_at(alloc, text, place)
}

// `number | name ["+" number]`.
fn part_at(alloc: Global, text: &str, at: usize) -> Result<(Part, usize), Halt>
    requires { IsCharBoundary text.now at }
    ensures reads { Reads (λ p. p) (part_at text.now at) result }
    ensures end { IfOk result (λ p. IsEnd text.now at p.1) }
    ensures stop { IfErr result (StopsInText text.now) }
{
    let token = require_token(text, at)?;
    match token.kind {
        TokenKind::Number(value) => Ok((Part::Number(value), token.end)),
        _ => raised_part(alloc, text, &token),
    }
}

fn raised_part(alloc: Global, text: &str, token: &Token) -> Result<(Part, usize), Halt>
    requires order { token.now.start < token.now.end }
    requires start { IsCharBoundary text.now token.now.start }
    requires stop { IsCharBoundary text.now token.now.end }
    ensures reads { Reads (λ p. p) (raised_part text.now token.now) result }
    ensures end { IfOk result (λ p. (token.now.end ≤ p.1) × IsCharBoundary text.now p.1) }
    ensures stop { IfErr result (StopsInText text.now) }
{
    if !is_name(text, token) {
        return Err(misplacement(token));
    }
    let (raised, end) = offset_at(text, token.end)?;
    let name = name_of(alloc, text, token)?;
    Ok((Part::Name(name, raised), end))
}

// `["+" number]`, 0 where it is left out.
fn offset_at(text: &str, at: usize) -> Result<(u32, usize), Halt>
    requires { IsCharBoundary text.now at }
    ensures reads { Reads (λ k. k) (offset text.now at) result }
    ensures end { IfOk result (λ p. (at ≤ p.1) × IsCharBoundary text.now p.1) }
    ensures stop { IfErr result (StopsInText text.now) }
{
    if !sees_sign('+', text, at) {
        return Ok((0, at));
    }
    let place = sign_at('+', text, at)?;
    number_at(text, place)
}
