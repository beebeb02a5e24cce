// The grammar of terms. `room` is how many terms more may be open within the term at hand, and
// `depth_left` is how many steps more the tree may go down: each term takes one, and each item of a
// list one more than the item before it. Past that memory is wanting, so no drop of a term overruns
// the stack.
ghost use Rattle.std.specs.Prelude.{◌≡◌, ◌-◌, ◌<◌, ◌≤◌, [], ◌∷◌, ◌++◌, ℕ, List, length, map, IfOk, IfErr, OnOk, IsTrue};
ghost use Rattle.std.specs.Str.{IsCharBoundary};
ghost use Rattle.mt_term_parser.specs.Readings.{many_from, IsEnd, HaltsAs, Reads, StopsInText};
ghost use Rattle.mt_term_parser.specs.Written.{Term};
ghost use Rattle.mt_term_parser.specs.WrittenOf.{written_of, form_of, choice_of, case_of};
ghost use Rattle.mt_term_parser.specs.Grammar.{lead_of_sign, lead_of, begins_atom, begins_argument, begins_term, sees_argument, led, separated, domain, lambda, product, parenthesis, matched, returned, body_of_match, arms, arm, atom_by, argument, app, arrow, term_by, full, term, term_at};

use crate::building::{application_of, cast, in_box, lam, match_of, prod};
use crate::raw::{Arm, Raw, RawShape, RawSort};
use crate::readings::{
    binder_at, binders_at, is_name, is_word, misplacement, name_at, name_of, peek_token,
    require_token, sees_name, sees_sign, sees_word, sign_at, sign_of, word_at,
};
use crate::sorts::parts_at;
use mt_lexer::Token;
use mt_term::{Fault, Halt, MAX_DEPTH, Name, Refusal, deeper};
use std::alloc::{AllocError, Global};

/// What a token begins.
#[derive(Clone, Copy)]
pub enum Lead {
    Name,
    Hole,
    Prop,
    Type,
    Open,
    Match,
    Lambda,
    Forall,
    Vector,
    Other,
}

fn lead_of(text: &str, token: &Token) -> Lead
    requires order { token.now.start ≤ token.now.end }
    requires start { IsCharBoundary text.now token.now.start }
    requires stop { IsCharBoundary text.now token.now.end }
    ensures { result ≡ lead_of text.now token.now }
{
    if is_name(text, token) {
        Lead::Name
    } else if is_word("Prop", text, token) {
        Lead::Prop
    } else if is_word("Type", text, token) {
        Lead::Type
    } else if is_word("match", text, token) {
        Lead::Match
    } else {
        lead_of_sign(sign_of(text, token))
    }
}

fn lead_of_sign(sign: char) -> Lead
    ensures { result ≡ lead_of_sign sign }
{
    match sign {
        'λ' => Lead::Lambda,
        '∀' => Lead::Forall,
        '?' => Lead::Hole,
        '…' => Lead::Vector,
        '(' => Lead::Open,
        _ => Lead::Other,
    }
}

fn begins_atom(lead: Lead) -> bool
    ensures { result ≡ begins_atom lead }
{
    match lead {
        Lead::Name | Lead::Hole | Lead::Prop | Lead::Type | Lead::Open | Lead::Match => true,
        _ => false,
    }
}

fn begins_argument(lead: Lead) -> bool
    ensures { result ≡ begins_argument lead }
{
    match lead {
        Lead::Vector => true,
        _ => begins_atom(lead),
    }
}

fn begins_term(lead: Lead) -> bool
    ensures { result ≡ begins_term lead }
{
    match lead {
        Lead::Lambda | Lead::Forall => true,
        _ => begins_atom(lead),
    }
}

fn sees_argument(text: &str, at: usize) -> bool
    requires { IsCharBoundary text.now at }
    ensures value { result ≡ sees_argument text.now at }
    ensures inside { IsTrue result → at < length text.now }
{
    match peek_token(text, at) {
        Some(token) => begins_argument(lead_of(text, &token)),
        None => false,
    }
}

/// The term that begins at a place within `depth` terms and sequences, and its end.
///
/// A token after the term is not needed, so whatever follows, the term ends there.
pub fn term_at(alloc: Global, text: &str, at: usize, depth: usize) -> Result<(Raw, usize), Halt>
    requires { IsCharBoundary text.now at }
    ensures reads { Reads written_of (term_at text.now at depth) result }
    ensures end { IfOk result (λ p. IsEnd text.now at p.1) }
    ensures stop { IfErr result (StopsInText text.now) }
{
    term(alloc, NESTING.saturating_sub(depth), MAX_DEPTH, text, at)
}

// How many terms and sequences may be open.
const NESTING: usize = 200;

// A term, where `room` terms may be open, it among them.
#[cycle(term)]
fn term(
    alloc: Global,
    room: usize,
    depth_left: usize,
    text: &str,
    at: usize,
) -> Result<(Raw, usize), Halt>
    requires { IsCharBoundary text.now at }
    ensures reads { Reads written_of (term room text.now at) result }
    ensures end { IfOk result (λ p. IsEnd text.now at p.1) }
    ensures stop { IfErr result (StopsInText text.now) }
{
    let token = require_token(text, at)?;
    let lead = lead_of(text, &token);
    if room == 0 {
        return Err(full(lead, &token));
    }
    let depth_left = deeper(depth_left)?;
    term_by(alloc, room - 1, depth_left, lead, text, &token)
}

// Where no further term may be open.
fn full(lead: Lead, token: &Token) -> Halt
    ensures stop { HaltsAs (full lead token.now) result }
    ensures place { (text : List ℕ) → IsCharBoundary text token.now.start → StopsInText text result }
{
    if begins_term(lead) {
        Halt::Refused(Fault {
            refusal: Refusal::TooDeep,
            at: token.start,
        })
    } else {
        misplacement(token)
    }
}

// The term that begins with this token.
#[cycle(term)]
fn term_by(
    alloc: Global,
    room: usize,
    depth_left: usize,
    lead: Lead,
    text: &str,
    token: &Token,
) -> Result<(Raw, usize), Halt>
    requires lead { lead ≡ lead_of text.now token.now }
    requires order { token.now.start < token.now.end }
    requires start { IsCharBoundary text.now token.now.start }
    requires stop { IsCharBoundary text.now token.now.end }
    ensures reads { Reads written_of (term_by lead (term room text.now) text.now token.now) result }
    ensures end { IfOk result (λ p. (token.now.end ≤ p.1) × IsCharBoundary text.now p.1) }
    ensures stop { IfErr result (StopsInText text.now) }
{
    match lead {
        Lead::Lambda => lambda(alloc, room, depth_left, text, token.start, token.end),
        Lead::Forall => product(alloc, room, depth_left, text, token.start, token.end),
        Lead::Vector | Lead::Other => Err(misplacement(token)),
        _ => arrow(alloc, room, depth_left, lead, text, token),
    }
}

// `x [":" term] "." term`.
#[cycle(term)]
fn lambda(
    alloc: Global,
    room: usize,
    depth_left: usize,
    text: &str,
    start: usize,
    at: usize,
) -> Result<(Raw, usize), Halt>
    requires { IsCharBoundary text.now at }
    ensures reads { Reads written_of (lambda (term room text.now) text.now start at) result }
    ensures end { IfOk result (λ p. IsEnd text.now at p.1) }
    ensures stop { IfErr result (StopsInText text.now) }
{
    let (name, after_name) = binder_at(alloc, text, at)?;
    let (ty, after_type) = domain(alloc, room, depth_left, text, after_name)?;
    let dot = sign_at('.', text, after_type)?;
    let (body, end) = term(alloc, room, depth_left, text, dot)?;
    Ok((lam(alloc, start, name, ty, body)?, end))
}

// `x ":" term "." term`.
#[cycle(term)]
fn product(
    alloc: Global,
    room: usize,
    depth_left: usize,
    text: &str,
    start: usize,
    at: usize,
) -> Result<(Raw, usize), Halt>
    requires { IsCharBoundary text.now at }
    ensures reads { Reads written_of (product (term room text.now) text.now start at) result }
    ensures end { IfOk result (λ p. IsEnd text.now at p.1) }
    ensures stop { IfErr result (StopsInText text.now) }
{
    let (name, after_name) = binder_at(alloc, text, at)?;
    let colon = sign_at(':', text, after_name)?;
    let (ty, after_type) = term(alloc, room, depth_left, text, colon)?;
    let dot = sign_at('.', text, after_type)?;
    let (body, end) = term(alloc, room, depth_left, text, dot)?;
    Ok((prod(alloc, start, name, ty, body)?, end))
}

// `[":" term]`.
#[cycle(term)]
fn domain(
    alloc: Global,
    room: usize,
    depth_left: usize,
    text: &str,
    at: usize,
) -> Result<(Option<Box<Raw>>, usize), Halt>
    requires { IsCharBoundary text.now at }
    ensures reads { Reads choice_of (domain (term room text.now) text.now at) result }
    ensures end { IfOk result (λ p. (at ≤ p.1) × IsCharBoundary text.now p.1) }
    ensures stop { IfErr result (StopsInText text.now) }
{
    if !sees_sign(':', text, at) {
        return Ok((None, at));
    }
    let colon = sign_at(':', text, at)?;
    let (ty, end) = term(alloc, room, depth_left, text, colon)?;
    Ok((Some(in_box(alloc, ty)?), end))
}

// `app ["→" term]`.
#[cycle(term)]
fn arrow(
    alloc: Global,
    room: usize,
    depth_left: usize,
    lead: Lead,
    text: &str,
    token: &Token,
) -> Result<(Raw, usize), Halt>
    requires lead { lead ≡ lead_of text.now token.now }
    requires order { token.now.start < token.now.end }
    requires start { IsCharBoundary text.now token.now.start }
    requires stop { IsCharBoundary text.now token.now.end }
    ensures reads { Reads written_of (arrow (term room text.now) text.now token.now) result }
    ensures end { IfOk result (λ p. (token.now.end ≤ p.1) × IsCharBoundary text.now p.1) }
    ensures stop { IfErr result (StopsInText text.now) }
{
    let (ty, after_type) = app(alloc, room, depth_left, lead, text, token)?;
    if !sees_sign('→', text, after_type) {
        return Ok((ty, after_type));
    }
    let sign = sign_at('→', text, after_type)?;
    let (body, end) = term(alloc, room, depth_left, text, sign)?;
    let name = Name::from_bytes(alloc, b"_")?;
    Ok((prod(alloc, token.start, name, ty, body)?, end))
}

// `atom { atom | "…" }`.
#[cycle(term)]
fn app(
    alloc: Global,
    room: usize,
    depth_left: usize,
    lead: Lead,
    text: &str,
    token: &Token,
) -> Result<(Raw, usize), Halt>
    requires lead { lead ≡ lead_of text.now token.now }
    requires order { token.now.start < token.now.end }
    requires start { IsCharBoundary text.now token.now.start }
    requires stop { IsCharBoundary text.now token.now.end }
    ensures reads { Reads written_of (app (term room text.now) text.now token.now) result }
    ensures end { IfOk result (λ p. (token.now.end ≤ p.1) × IsCharBoundary text.now p.1) }
    ensures stop { IfErr result (StopsInText text.now) }
{
    let (function, after_function) = atom(alloc, room, depth_left, lead, text, token)?;
    let (args, end) = arguments(alloc, room, depth_left, text, after_function)?;
    Ok((application_of(alloc, token.start, function, args)?, end))
}

// `{ atom | "…" }`.
#[cycle(term)]
fn arguments(
    alloc: Global,
    room: usize,
    depth_left: usize,
    text: &str,
    at: usize,
) -> Result<(Vec<Raw>, usize), Halt>
    requires { IsCharBoundary text.now at }
    ensures reads { Reads (λ v. map written_of v.items) (many_from text.now (sees_argument text.now) (argument (term room text.now) text.now) at) result }
    ensures end { IfOk result (λ p. (at ≤ p.1) × IsCharBoundary text.now p.1) }
    ensures stop { IfErr result (StopsInText text.now) }
{
    let mut args = Vec::new(alloc);
    let mut depth_left = depth_left;
    let mut end = at;
    'row: while sees_argument(text, end) {
        depth_left = deeper(depth_left)?;
        let (arg, last) = argument(alloc, room, depth_left, text, end)?;
        push_raw(&mut args, arg)?;
        end = last;
    }
    Ok((args, end))
}

fn push_raw(items: &mut Vec<Raw>, raw: Raw) -> Result<(), AllocError>
    ensures { OnOk result (items.new.items ≡ items.old.items ++ raw ∷ []) }
{
    items.push(raw)?;
    Ok(())
}

// `atom | "…"`.
#[cycle(term)]
fn argument(
    alloc: Global,
    room: usize,
    depth_left: usize,
    text: &str,
    at: usize,
) -> Result<(Raw, usize), Halt>
    requires { IsCharBoundary text.now at }
    ensures reads { Reads written_of (argument (term room text.now) text.now at) result }
    ensures end { IfOk result (λ p. IsEnd text.now at p.1) }
    ensures stop { IfErr result (StopsInText text.now) }
{
    let token = require_token(text, at)?;
    match lead_of(text, &token) {
        Lead::Vector => Ok((plain(token.start, RawShape::Vector), token.end)),
        lead => atom(alloc, room, depth_left, lead, text, &token),
    }
}

fn plain(start: usize, shape: RawShape) -> Raw
    ensures { written_of result ≡ Term start (form_of shape) }
{
    Raw { start, shape }
}

// The atom that begins with this token.
#[cycle(term)]
fn atom(
    alloc: Global,
    room: usize,
    depth_left: usize,
    lead: Lead,
    text: &str,
    token: &Token,
) -> Result<(Raw, usize), Halt>
    requires order { token.now.start < token.now.end }
    requires start { IsCharBoundary text.now token.now.start }
    requires stop { IsCharBoundary text.now token.now.end }
    ensures reads { Reads written_of (atom_by lead (term room text.now) text.now token.now) result }
    ensures end { IfOk result (λ p. (token.now.end ≤ p.1) × IsCharBoundary text.now p.1) }
    ensures stop { IfErr result (StopsInText text.now) }
{
    match lead {
        Lead::Name => {
            let name = name_of(alloc, text, token)?;
            Ok((plain(token.start, RawShape::Name(name)), token.end))
        }
        Lead::Hole => Ok((plain(token.start, RawShape::Hole), token.end)),
        Lead::Prop => Ok((plain(token.start, RawShape::Sort(RawSort::Prop)), token.end)),
        Lead::Type => {
            let (parts, end) = parts_at(alloc, text, token.end)?;
            Ok((plain(token.start, RawShape::Sort(RawSort::Typ(parts))), end))
        }
        Lead::Open => parenthesis(alloc, room, depth_left, text, token.start, token.end),
        Lead::Match => matched_at(alloc, room, depth_left, text, token.start, token.end),
        _ => Err(misplacement(token)),
    }
}

// `term [":" term] ")"`.
#[cycle(term)]
fn parenthesis(
    alloc: Global,
    room: usize,
    depth_left: usize,
    text: &str,
    start: usize,
    at: usize,
) -> Result<(Raw, usize), Halt>
    requires { IsCharBoundary text.now at }
    ensures reads { Reads written_of (parenthesis (term room text.now) text.now start at) result }
    ensures end { IfOk result (λ p. IsEnd text.now at p.1) }
    ensures stop { IfErr result (StopsInText text.now) }
{
    let (inner, after_term) = term(alloc, room, depth_left, text, at)?;
    let (ty, after_type) = domain(alloc, room, depth_left, text, after_term)?;
    let end = sign_at(')', text, after_type)?;
    Ok((cast(alloc, start, inner, ty)?, end))
}

// `term ["return" term] "with" "[" [arm { "|" arm }] "]"`.
#[cycle(term)]
fn matched_at(
    alloc: Global,
    room: usize,
    depth_left: usize,
    text: &str,
    start: usize,
    at: usize,
) -> Result<(Raw, usize), Halt>
    requires { IsCharBoundary text.now at }
    ensures reads { Reads written_of (matched (term room text.now) text.now start at) result }
    ensures end { IfOk result (λ p. IsEnd text.now at p.1) }
    ensures stop { IfErr result (StopsInText text.now) }
{
    let (inner, after_term) = term(alloc, room, depth_left, text, at)?;
    let (ty, after_type) = returned(alloc, room, depth_left, text, after_term)?;
    let (arms, end) = match_body(alloc, room, depth_left, text, after_type)?;
    Ok((match_of(alloc, start, inner, ty, arms)?, end))
}

// `["return" term]`.
#[cycle(term)]
fn returned(
    alloc: Global,
    room: usize,
    depth_left: usize,
    text: &str,
    at: usize,
) -> Result<(Option<Box<Raw>>, usize), Halt>
    requires { IsCharBoundary text.now at }
    ensures reads { Reads choice_of (returned (term room text.now) text.now at) result }
    ensures end { IfOk result (λ p. (at ≤ p.1) × IsCharBoundary text.now p.1) }
    ensures stop { IfErr result (StopsInText text.now) }
{
    if !sees_word("return", text, at) {
        return Ok((None, at));
    }
    let word = word_at("return", text, at)?;
    let (ty, end) = term(alloc, room, depth_left, text, word)?;
    Ok((Some(in_box(alloc, ty)?), end))
}

// `"with" "[" [arm { "|" arm }] "]"`.
#[cycle(term)]
fn match_body(
    alloc: Global,
    room: usize,
    depth_left: usize,
    text: &str,
    at: usize,
) -> Result<(Vec<Arm>, usize), Halt>
    requires { IsCharBoundary text.now at }
    ensures reads { Reads (λ v. map case_of v.items) (body_of_match (term room text.now) text.now at) result }
    ensures end { IfOk result (λ p. IsEnd text.now at p.1) }
    ensures stop { IfErr result (StopsInText text.now) }
{
    let word = word_at("with", text, at)?;
    let open = sign_at('[', text, word)?;
    let (arms, last) = optional_arms(alloc, room, depth_left, text, open)?;
    let end = sign_at(']', text, last)?;
    Ok((arms, end))
}

// `[arm { "|" arm }]`.
#[cycle(term)]
fn optional_arms(
    alloc: Global,
    room: usize,
    depth_left: usize,
    text: &str,
    at: usize,
) -> Result<(Vec<Arm>, usize), Halt>
    requires { IsCharBoundary text.now at }
    ensures reads { Reads (λ v. map case_of v.items) (arms (term room text.now) text.now at) result }
    ensures end { IfOk result (λ p. (at ≤ p.1) × IsCharBoundary text.now p.1) }
    ensures stop { IfErr result (StopsInText text.now) }
{
    if sees_name(text, at) {
        arms(alloc, room, depth_left, text, at)
    } else {
        Ok((Vec::new(alloc), at))
    }
}

#[cycle(term)]
fn arms(
    alloc: Global,
    room: usize,
    depth_left: usize,
    text: &str,
    at: usize,
) -> Result<(Vec<Arm>, usize), Halt>
    requires { IsCharBoundary text.now at }
    ensures reads { Reads (λ v. map case_of v.items) (separated 124 text.now (arm (term room text.now) text.now) at) result }
    ensures end { IfOk result (λ p. (at ≤ p.1) × IsCharBoundary text.now p.1) }
    ensures stop { IfErr result (StopsInText text.now) }
{
    let mut arms = Vec::new(alloc);
    let (first, mut end) = arm(alloc, room, depth_left, text, at)?;
    push_arm(&mut arms, first)?;
    let mut depth_left = depth_left;
    'row: while sees_sign('|', text, end) {
        depth_left = deeper(depth_left)?;
        let (arm, last) = next_arm(alloc, room, depth_left, text, end)?;
        push_arm(&mut arms, arm)?;
        end = last;
    }
    Ok((arms, end))
}

fn push_arm(items: &mut Vec<Arm>, arm: Arm) -> Result<(), AllocError>
    ensures { OnOk result (items.new.items ≡ items.old.items ++ arm ∷ []) }
{
    items.push(arm)?;
    Ok(())
}

// `"|" arm`.
#[cycle(term)]
fn next_arm(
    alloc: Global,
    room: usize,
    depth_left: usize,
    text: &str,
    at: usize,
) -> Result<(Arm, usize), Halt>
    requires { IsCharBoundary text.now at }
    ensures reads { Reads case_of (led 124 text.now (arm (term room text.now) text.now) at) result }
    ensures end { IfOk result (λ p. IsEnd text.now at p.1) }
    ensures stop { IfErr result (StopsInText text.now) }
{
    let bar = sign_at('|', text, at)?;
    arm(alloc, room, depth_left, text, bar)
}

// `name { x } "⇒" term`.
#[cycle(term)]
fn arm(
    alloc: Global,
    room: usize,
    depth_left: usize,
    text: &str,
    at: usize,
) -> Result<(Arm, usize), Halt>
    requires { IsCharBoundary text.now at }
    ensures reads { Reads case_of (arm (term room text.now) text.now at) result }
    ensures end { IfOk result (λ p. IsEnd text.now at p.1) }
    ensures stop { IfErr result (StopsInText text.now) }
{
    let (name, after_name) = name_at(alloc, text, at)?;
    let (binders, after_binders) = binders_at(alloc, text, after_name)?;
    let sign = sign_at('⇒', text, after_binders)?;
    let (body, end) = term(alloc, room, depth_left, text, sign)?;
    Ok((
        Arm {
            name,
            binders,
            body,
        },
        end,
    ))
}
