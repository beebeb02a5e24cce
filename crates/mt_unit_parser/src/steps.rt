// Single steps, blocks and units as a whole.
ghost use Rattle.std.specs.Prelude.{◌≡◌, ◌<◌, ◌≤◌, false, IfOk, IfErr, MatchResult, Result};
ghost use Rattle.std.specs.Str.{IsCharBoundary};
ghost use Rattle.mt_term_parser.specs.Readings.{IsEnd, HaltsAs, Reads, StopsInText};
ghost use Rattle.mt_unit_parser.specs.UnitOf.{kind_of};
ghost use Rattle.mt_unit_parser.specs.Blocks.{command_by, is_command, block, named, all_named, signed_step, other_kind, other_step, step_by, phrase, plain, unit_by, unit};
ghost use Rattle.mt_unit_parser.specs.UnitReads.{ReadsUnit, IsRead, IsSpan, IsParsed};

use crate::blocks::{action, is_number, sequence};
use crate::commands::{
    axiom_unit, coercion, constraint, definition_unit, hint, inductive, is_spelled, letting,
    nums_at, qed, theorem,
};
use crate::units::{Action, Parsed, Unit, UnitKind};
use crate::words::{Command, Lead, closes, command_of, lead_of};
use mt_lexer::{LexStop, Token, TokenKind, next};
use mt_term::{Fault, Halt, MAX_DEPTH, Refusal};
use mt_term_parser::readings::{misplacement, require_token, sign_at, sign_of};
use mt_text::UnitSpan;
use mt_tiny::Tiny;
use std::alloc::Global;

/// The unit that begins at a place, or the end of the text.
pub fn unit_at(alloc: Global, text: &str, at: usize) -> Result<Parsed, Halt>
    requires { IsCharBoundary text.now at }
    ensures reads { MatchResult result (IsRead (unit text.now at)) (HaltsAs (unit text.now at)) }
    ensures placed { IfOk result (IsParsed text.now at) }
    ensures stop { IfErr result (StopsInText text.now) }
{
    match next(text, at) {
        Ok(token) => match token.kind {
            TokenKind::End => Ok(Parsed::End),
            _ => Ok(Parsed::Unit(unit_by(alloc, text, &token)?)),
        },
        Err(LexStop::Lex(at)) => Err(refusal_at(Refusal::Lex, at)),
        Err(LexStop::Incomplete(at)) => Err(refusal_at(Refusal::Incomplete, at)),
    }
}

fn refusal_at(refusal: Refusal, at: usize) -> Halt
    ensures { result ≡ Halt.Refused (record { refusal = refusal; at = at }) }
{
    Halt::Refused(Fault { refusal, at })
}

// The unit that begins with this token.
fn unit_by(alloc: Global, text: &str, token: &Token) -> Result<Unit, Halt>
    requires order { token.now.start < token.now.end }
    requires start { IsCharBoundary text.now token.now.start }
    requires stop { IsCharBoundary text.now token.now.end }
    ensures reads { ReadsUnit (unit_by text.now token.now) result }
    ensures placed { IfOk result (IsSpan text.now token.now.start) }
    ensures stop { IfErr result (StopsInText text.now) }
{
    let command = command_of(text, token);
    if !is_command(command) {
        return step_by(alloc, lead_of(text, token), text, token);
    }
    let (kind, end) = command_by(alloc, command, text, token)?;
    Ok(plain(token.start, kind, end))
}

fn is_command(command: Command) -> bool
    ensures { result ≡ is_command command }
{
    match command {
        Command::Other => false,
        _ => true,
    }
}

// The rest of a command.
fn command_by(
    alloc: Global,
    command: Command,
    text: &str,
    token: &Token,
) -> Result<(UnitKind, usize), Halt>
    requires order { token.now.start < token.now.end }
    requires start { IsCharBoundary text.now token.now.start }
    requires stop { IsCharBoundary text.now token.now.end }
    ensures reads { Reads kind_of (command_by command text.now token.now) result }
    ensures end { IfOk result (λ p. (token.now.end ≤ p.1) × IsCharBoundary text.now p.1) }
    ensures stop { IfErr result (StopsInText text.now) }
{
    match command {
        Command::Universe => constraint(alloc, text, token.end),
        Command::Axiom => axiom_unit(alloc, text, token.end),
        Command::Definition => definition_unit(alloc, text, token.end),
        Command::Inductive => inductive(alloc, false, text, token.end),
        Command::Coinductive => inductive(alloc, true, text, token.end),
        Command::Let => letting(alloc, text, token.end),
        Command::Unification => hint(alloc, text, token.end),
        Command::Coercion => coercion(alloc, text, token.end),
        Command::Theorem => theorem(alloc, text, token.end),
        Command::Qed => qed(text, token.end),
        Command::Other => Err(misplacement(token)),
    }
}

// A unit that is closed by its own last token.
fn plain(start: usize, kind: UnitKind, end: usize) -> Unit
    ensures kind { result.kind ≡ kind }
    ensures span { result.span ≡ record { start = start; end = end; seen = end } }
{
    Unit {
        span: UnitSpan {
            start,
            end,
            seen: end,
        },
        kind,
    }
}

// A unit that ends here, where the next token has to close it.
fn phrase(start: usize, kind: UnitKind, text: &str, end: usize) -> Result<Unit, Halt>
    requires order { start < end }
    requires start { IsCharBoundary text.now start }
    requires stop { IsCharBoundary text.now end }
    ensures reads { ReadsUnit (phrase start (kind_of kind) text.now end) result }
    ensures placed { IfOk result (IsSpan text.now start) }
    ensures stop { IfErr result (StopsInText text.now) }
{
    let token = require_token(text, end)?;
    if !closes(sign_of(text, &token)) {
        return Err(misplacement(&token));
    }
    Ok(Unit {
        span: UnitSpan {
            start,
            end,
            seen: token.end,
        },
        kind,
    })
}

// A single step, or a block.
fn step_by(alloc: Global, lead: Lead, text: &str, token: &Token) -> Result<Unit, Halt>
    requires order { token.now.start < token.now.end }
    requires start { IsCharBoundary text.now token.now.start }
    requires stop { IsCharBoundary text.now token.now.end }
    ensures reads { ReadsUnit (step_by lead text.now token.now) result }
    ensures placed { IfOk result (IsSpan text.now token.now.start) }
    ensures stop { IfErr result (StopsInText text.now) }
{
    match lead {
        Lead::Action(verb) => {
            let (action, end) = action(alloc, verb, 0, text, token)?;
            phrase(token.start, UnitKind::Step(Tiny::Action(action)), text, end)
        }
        Lead::Skip => phrase(token.start, UnitKind::Step(Tiny::Skip), text, token.end),
        Lead::Focus => {
            let (numbers, end) = nums_at(alloc, text, token.end)?;
            phrase(token.start, UnitKind::Step(Tiny::Focus(numbers)), text, end)
        }
        Lead::Open => Ok(sign_step(token, Tiny::BranchOpen)),
        Lead::Semicolon => Ok(sign_step(token, Tiny::Semicolon)),
        Lead::Dot => Ok(sign_step(token, Tiny::Dot)),
        Lead::Other => other_step(alloc, text, token),
    }
}

fn sign_step(token: &Token, step: Tiny<Action>) -> Unit
    ensures kind { result.kind ≡ UnitKind.Step step }
    ensures span { result.span ≡ record { start = token.now.start; end = token.now.end; seen = token.now.end } }
{
    plain(token.start, UnitKind::Step(step), token.end)
}

// A step that begins with none of the words and signs of items.
fn other_step(alloc: Global, text: &str, token: &Token) -> Result<Unit, Halt>
    requires order { token.now.start < token.now.end }
    requires start { IsCharBoundary text.now token.now.start }
    requires stop { IsCharBoundary text.now token.now.end }
    ensures reads { ReadsUnit (other_step text.now token.now) result }
    ensures placed { IfOk result (IsSpan text.now token.now.start) }
    ensures stop { IfErr result (StopsInText text.now) }
{
    if is_spelled("unfocus", text, token) {
        return phrase(token.start, UnitKind::Step(Tiny::Unfocus), text, token.end);
    }
    let (kind, end) = other_kind(alloc, text, token)?;
    Ok(plain(token.start, kind, end))
}

fn other_kind(alloc: Global, text: &str, token: &Token) -> Result<(UnitKind, usize), Halt>
    requires order { token.now.start < token.now.end }
    requires start { IsCharBoundary text.now token.now.start }
    requires stop { IsCharBoundary text.now token.now.end }
    ensures reads { Reads kind_of (other_kind text.now token.now) result }
    ensures end { IfOk result (λ p. IsEnd text.now token.now.start p.1) }
    ensures stop { IfErr result (StopsInText text.now) }
{
    if is_number(token) {
        named(alloc, text, token)
    } else {
        signed_step(alloc, sign_of(text, token), text, token)
    }
}

fn signed_step(
    alloc: Global,
    sign: char,
    text: &str,
    token: &Token,
) -> Result<(UnitKind, usize), Halt>
    requires order { token.now.start < token.now.end }
    requires start { IsCharBoundary text.now token.now.start }
    requires stop { IsCharBoundary text.now token.now.end }
    ensures reads { Reads kind_of (signed_step sign text.now token.now) result }
    ensures end { IfOk result (λ p. IsEnd text.now token.now.start p.1) }
    ensures stop { IfErr result (StopsInText text.now) }
{
    match sign {
        '|' => Ok((UnitKind::Step(Tiny::Bar), token.end)),
        ']' => Ok((UnitKind::Step(Tiny::BranchClose), token.end)),
        '*' => all_named(text, token.end),
        '{' => block(alloc, text, token.end),
        _ => Err(misplacement(token)),
    }
}

// `nums ":"`, from the token of the first number on.
fn named(alloc: Global, text: &str, token: &Token) -> Result<(UnitKind, usize), Halt>
    requires order { token.now.start < token.now.end }
    requires start { IsCharBoundary text.now token.now.start }
    requires stop { IsCharBoundary text.now token.now.end }
    ensures reads { Reads kind_of (named text.now token.now) result }
    ensures end { IfOk result (λ p. IsEnd text.now token.now.start p.1) }
    ensures stop { IfErr result (StopsInText text.now) }
{
    let (numbers, last) = nums_at(alloc, text, token.start)?;
    let end = sign_at(':', text, last)?;
    Ok((UnitKind::Step(Tiny::Positions(numbers)), end))
}

// `":"`, after `*`.
fn all_named(text: &str, at: usize) -> Result<(UnitKind, usize), Halt>
    requires { IsCharBoundary text.now at }
    ensures reads { Reads kind_of (all_named text.now at) result }
    ensures end { IfOk result (λ p. IsEnd text.now at p.1) }
    ensures stop { IfErr result (StopsInText text.now) }
{
    let end = sign_at(':', text, at)?;
    Ok((UnitKind::Step(Tiny::Wildcard), end))
}

// `seq "}"`, after `{`.
fn block(alloc: Global, text: &str, at: usize) -> Result<(UnitKind, usize), Halt>
    requires { IsCharBoundary text.now at }
    ensures reads { Reads kind_of (block text.now at) result }
    ensures end { IfOk result (λ p. IsEnd text.now at p.1) }
    ensures stop { IfErr result (StopsInText text.now) }
{
    let (body, last) = sequence(alloc, 200, MAX_DEPTH, text, at)?;
    let end = sign_at('}', text, last)?;
    Ok((UnitKind::Block(body), end))
}
