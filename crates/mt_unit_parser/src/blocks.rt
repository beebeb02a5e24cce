// The grammar of actions and closed tacticals. `room` is how many terms and sequences more may be
// open within the sequence at hand, and `depth_left` is how many steps more the tree of sequences
// may go down: each sequence takes one, and each item of a list one more than the item before it.
ghost use Rattle.std.specs.Prelude.{◌≡◌, ◌-◌, ◌<◌, ◌≤◌, [], ◌∷◌, ◌++◌, ℕ, List, length, map, IfOk, IfErr, OnOk, IsTrue};
ghost use Rattle.std.specs.Str.{IsCharBoundary};
ghost use Rattle.mt_tactical.specs.Tacticals.{Branches, Focus, End as NoItem, Item};
ghost use Rattle.mt_tactical.specs.TacticalOf.{sequence_of, step_of, choices_of};
ghost use Rattle.mt_term_parser.specs.Readings.{many_from, sees_sign, IsEnd, HaltsAs, Reads, StopsInText};
ghost use Rattle.mt_term_parser.specs.WrittenOf.{written_of};
ghost use Rattle.mt_unit_parser.specs.UnitOf.{deed_of, action_of};
ghost use Rattle.mt_unit_parser.specs.BlockOf.{branch_of, led_of, optional_step};
ghost use Rattle.mt_unit_parser.specs.Units.{deed, action, with_term};
ghost use Rattle.mt_unit_parser.specs.Blocks.{placed, positions, is_number_kind, picked, branch, barred, branch_list, branches, separator, unfocus_place, focus, item_by, optional_item, item_onto, led_onto, led_item, sees_separator, items, full, full_at, sequence, choices, choices_onto};

use crate::commands::{is_spelled, nums_at};
use crate::units::{Action, ActionShape};
use crate::words::{Lead, Verb, begins_item, ends_sequence, is_dot, is_separator, lead_of};
use mt_lexer::{Token, TokenKind};
use mt_tactical::{Pick, TacBranch, TacBranches, TacItem, Tactical};
use mt_term::{Fault, Halt, Refusal, deeper};
use mt_term_parser::readings::{
    binder_at, misplacement, name_at, number_at, peek_token, require_token, sees_sign, sign_at,
    sign_of,
};
use mt_term_parser::{Raw, term_at};
use std::alloc::{AllocError, Global};

// What follows the first token of an action.
fn deed(
    alloc: Global,
    verb: Verb,
    depth: usize,
    text: &str,
    at: usize,
) -> Result<(ActionShape, usize), Halt>
    requires { IsCharBoundary text.now at }
    ensures reads { Reads deed_of (deed verb depth text.now at) result }
    ensures end { IfOk result (λ p. (at ≤ p.1) × IsCharBoundary text.now p.1) }
    ensures stop { IfErr result (StopsInText text.now) }
{
    match verb {
        Verb::Intro => {
            let (name, end) = binder_at(alloc, text, at)?;
            Ok((ActionShape::Intro(name), end))
        }
        Verb::Clear => {
            let (name, end) = name_at(alloc, text, at)?;
            Ok((ActionShape::Clear(name), end))
        }
        Verb::Constructor => {
            let (number, end) = number_at(text, at)?;
            Ok((ActionShape::Constructor(number), end))
        }
        Verb::Whd => Ok((ActionShape::Whd, at)),
        Verb::Normalize => Ok((ActionShape::Normalize, at)),
        Verb::Assumption => Ok((ActionShape::Assumption, at)),
        _ => {
            let (term, end) = term_at(alloc, text, at, depth)?;
            Ok((with_term(verb, term), end))
        }
    }
}

fn with_term(verb: Verb, term: Raw) -> ActionShape
    ensures { deed_of result ≡ with_term verb (written_of term) }
{
    match verb {
        Verb::Exact => ActionShape::Exact(term),
        Verb::Refine => ActionShape::Refine(term),
        Verb::Apply => ActionShape::Apply(term),
        Verb::Cut => ActionShape::Cut(term),
        Verb::Lapply => ActionShape::Lapply(term),
        Verb::Change => ActionShape::Change(term),
        Verb::Generalize => ActionShape::Generalize(term),
        Verb::Cases => ActionShape::Cases(term),
        Verb::Elim => ActionShape::Elim(term),
        _ => ActionShape::Whd,
    }
}

/// The action that begins with this token, within `depth` sequences.
pub fn action(
    alloc: Global,
    verb: Verb,
    depth: usize,
    text: &str,
    token: &Token,
) -> Result<(Action, usize), Halt>
    requires order { token.now.start < token.now.end }
    requires start { IsCharBoundary text.now token.now.start }
    requires stop { IsCharBoundary text.now token.now.end }
    ensures reads { Reads action_of (action verb depth text.now token.now) result }
    ensures end { IfOk result (λ p. (token.now.end ≤ p.1) × IsCharBoundary text.now p.1) }
    ensures stop { IfErr result (StopsInText text.now) }
{
    let (shape, end) = deed(alloc, verb, depth, text, token.end)?;
    Ok((
        Action {
            start: token.start,
            shape,
        },
        end,
    ))
}

// The place and the end of a sign.
fn placed(sign: char, text: &str, at: usize) -> Result<(usize, usize), Halt>
    requires { IsCharBoundary text.now at }
    ensures reads { Reads (λ p. p) (placed sign text.now at) result }
    ensures end { IfOk result (λ p. IsEnd text.now at p.1) }
    ensures stop { IfErr result (StopsInText text.now) }
{
    let token = require_token(text, at)?;
    if sign_of(text, &token) == sign {
        Ok((token.start, token.end))
    } else {
        Err(misplacement(&token))
    }
}

// The place and the end of `unfocus`.
fn unfocus_place(text: &str, at: usize) -> Result<(usize, usize), Halt>
    requires { IsCharBoundary text.now at }
    ensures reads { Reads (λ p. p) (unfocus_place text.now at) result }
    ensures end { IfOk result (λ p. IsEnd text.now at p.1) }
    ensures stop { IfErr result (StopsInText text.now) }
{
    let token = require_token(text, at)?;
    if is_spelled("unfocus", text, &token) {
        Ok((token.start, token.end))
    } else {
        Err(misplacement(&token))
    }
}

// `;` or `.`: whether it is `.`, and its place.
fn separator(text: &str, at: usize) -> Result<((bool, usize), usize), Halt>
    requires { IsCharBoundary text.now at }
    ensures reads { Reads (λ s. s) (separator text.now at) result }
    ensures end { IfOk result (λ p. IsEnd text.now at p.1) }
    ensures stop { IfErr result (StopsInText text.now) }
{
    let token = require_token(text, at)?;
    let lead = lead_of(text, &token);
    if is_separator(lead) {
        Ok(((is_dot(lead), token.start), token.end))
    } else {
        Err(misplacement(&token))
    }
}

fn sees_separator(text: &str, at: usize) -> bool
    requires { IsCharBoundary text.now at }
    ensures value { result ≡ sees_separator text.now at }
    ensures inside { IsTrue result → at < length text.now }
{
    match peek_token(text, at) {
        Some(token) => is_separator(lead_of(text, &token)),
        None => false,
    }
}

// `nums ":"` from the token of the first number on.
fn positions(alloc: Global, text: &str, token: &Token) -> Result<(Pick, usize), Halt>
    requires order { token.now.start < token.now.end }
    requires start { IsCharBoundary text.now token.now.start }
    requires stop { IsCharBoundary text.now token.now.end }
    ensures reads { Reads (λ p. p) (positions text.now token.now) result }
    ensures end { IfOk result (λ p. IsEnd text.now token.now.start p.1) }
    ensures stop { IfErr result (StopsInText text.now) }
{
    let (numbers, last) = nums_at(alloc, text, token.start)?;
    let end = sign_at(':', text, last)?;
    Ok((Pick::Positions(token.start, numbers), end))
}

// `[nums ":" | "*" ":"]`.
fn picked(alloc: Global, text: &str, at: usize) -> Result<(Pick, usize), Halt>
    requires { IsCharBoundary text.now at }
    ensures reads { Reads (λ p. p) (picked text.now at) result }
    ensures end { IfOk result (λ p. (at ≤ p.1) × IsCharBoundary text.now p.1) }
    ensures stop { IfErr result (StopsInText text.now) }
{
    let Some(token) = peek_token(text, at) else {
        return Ok((Pick::Next, at));
    };
    if is_number(&token) {
        positions(alloc, text, &token)
    } else if sign_of(text, &token) == '*' {
        let end = sign_at(':', text, token.end)?;
        Ok((Pick::Rest(token.start), end))
    } else {
        Ok((Pick::Next, at))
    }
}

/// Whether the token is a number.
pub fn is_number(token: &Token) -> bool
    ensures { result ≡ is_number_kind token.now.kind }
{
    match token.kind {
        TokenKind::Number(_) => true,
        _ => false,
    }
}

// How many terms and sequences may be open.
const NESTING: usize = 200;

/// A sequence of items, where `room` terms and sequences may be open, it among them.
#[cycle(sequence)]
pub fn sequence(
    alloc: Global,
    room: usize,
    depth_left: usize,
    text: &str,
    at: usize,
) -> Result<(Tactical<Action>, usize), Halt>
    requires boundary { IsCharBoundary text.now at }
    requires room { room ≤ 200 }
    ensures reads { Reads (sequence_of action_of) (sequence room text.now at) result }
    ensures end { IfOk result (λ p. (at ≤ p.1) × IsCharBoundary text.now p.1) }
    ensures stop { IfErr result (StopsInText text.now) }
{
    if room == 0 {
        return no_sequence(text, at);
    }
    let depth_left = deeper(depth_left)?;
    items(alloc, room - 1, depth_left, text, at)
}

// An empty sequence, where no further one may be open.
fn no_sequence(text: &str, at: usize) -> Result<(Tactical<Action>, usize), Halt>
    requires { IsCharBoundary text.now at }
    ensures reads { Reads (sequence_of action_of) (sequence 0 text.now at) result }
    ensures end { IfOk result (λ p. (at ≤ p.1) × IsCharBoundary text.now p.1) }
    ensures stop { IfErr result (StopsInText text.now) }
{
    let token = require_token(text, at)?;
    if ends_sequence(text, &token) {
        return Ok((Tactical::End, at));
    }
    Err(full(lead_of(text, &token), &token))
}

fn full(lead: Lead, token: &Token) -> Halt
    ensures stop { HaltsAs (full_at lead token.now.start) result }
    ensures place { (text : List ℕ) → IsCharBoundary text token.now.start → StopsInText text result }
{
    if begins_item(lead) || is_separator(lead) {
        Halt::Refused(Fault {
            refusal: Refusal::TooDeep,
            at: token.start,
        })
    } else {
        misplacement(token)
    }
}

// `item { (";" | ".") item }`.
#[cycle(sequence)]
fn items(
    alloc: Global,
    room: usize,
    depth_left: usize,
    text: &str,
    at: usize,
) -> Result<(Tactical<Action>, usize), Halt>
    requires boundary { IsCharBoundary text.now at }
    requires room { room < 200 }
    ensures reads { Reads (sequence_of action_of) (items (200 - room) (sequence room text.now) text.now at) result }
    ensures end { IfOk result (λ p. (at ≤ p.1) × IsCharBoundary text.now p.1) }
    ensures stop { IfErr result (StopsInText text.now) }
{
    let (first, after_first) = optional_item(alloc, room, depth_left, text, at)?;
    let (rest, end) = led_items(alloc, room, depth_left, text, after_first)?;
    Ok((item_onto(alloc, first, led_onto(alloc, rest)?)?, end))
}

// `{ (";" | ".") item }`.
#[cycle(sequence)]
fn led_items(
    alloc: Global,
    room: usize,
    depth_left: usize,
    text: &str,
    at: usize,
) -> Result<(Vec<Led>, usize), Halt>
    requires boundary { IsCharBoundary text.now at }
    requires room { room < 200 }
    ensures reads { Reads (λ v. map led_of v.items) (many_from text.now (sees_separator text.now) (led_item (200 - room) (sequence room text.now) text.now) at) result }
    ensures end { IfOk result (λ p. (at ≤ p.1) × IsCharBoundary text.now p.1) }
    ensures stop { IfErr result (StopsInText text.now) }
{
    let mut items = Vec::new(alloc);
    let mut depth_left = depth_left;
    let mut end = at;
    'row: while sees_separator(text, end) {
        depth_left = deeper(depth_left)?;
        let (item, last) = led_item(alloc, room, depth_left, text, end)?;
        push_led(&mut items, item)?;
        end = last;
    }
    Ok((items, end))
}

// A sign, and the item after it if there is one.
#[derive(Drop)]
struct Led {
    dot: bool,
    place: usize,
    item: Option<TacItem<Action>>,
}

fn push_led(items: &mut Vec<Led>, item: Led) -> Result<(), AllocError>
    ensures { OnOk result (items.new.items ≡ items.old.items ++ item ∷ []) }
{
    items.push(item)?;
    Ok(())
}

// `(";" | ".") item`.
#[cycle(sequence)]
fn led_item(
    alloc: Global,
    room: usize,
    depth_left: usize,
    text: &str,
    at: usize,
) -> Result<(Led, usize), Halt>
    requires boundary { IsCharBoundary text.now at }
    requires room { room < 200 }
    ensures reads { Reads led_of (led_item (200 - room) (sequence room text.now) text.now at) result }
    ensures end { IfOk result (λ p. IsEnd text.now at p.1) }
    ensures stop { IfErr result (StopsInText text.now) }
{
    let ((dot, place), after_sign) = separator(text, at)?;
    let (item, end) = optional_item(alloc, room, depth_left, text, after_sign)?;
    Ok((Led { dot, place, item }, end))
}

// An item, or nothing.
#[cycle(sequence)]
fn optional_item(
    alloc: Global,
    room: usize,
    depth_left: usize,
    text: &str,
    at: usize,
) -> Result<(Option<TacItem<Action>>, usize), Halt>
    requires boundary { IsCharBoundary text.now at }
    requires room { room < 200 }
    ensures reads { Reads optional_step (optional_item (200 - room) (sequence room text.now) text.now at) result }
    ensures end { IfOk result (λ p. (at ≤ p.1) × IsCharBoundary text.now p.1) }
    ensures stop { IfErr result (StopsInText text.now) }
{
    let Some(token) = peek_token(text, at) else {
        return Ok((None, at));
    };
    let lead = lead_of(text, &token);
    if !begins_item(lead) {
        return Ok((None, at));
    }
    let (item, end) = item_by(alloc, lead, room, depth_left, text, &token)?;
    Ok((Some(item), end))
}

// The item that begins with this token.
#[cycle(sequence)]
fn item_by(
    alloc: Global,
    lead: Lead,
    room: usize,
    depth_left: usize,
    text: &str,
    token: &Token,
) -> Result<(TacItem<Action>, usize), Halt>
    requires order { token.now.start < token.now.end }
    requires start { IsCharBoundary text.now token.now.start }
    requires stop { IsCharBoundary text.now token.now.end }
    requires room { room < 200 }
    ensures reads { Reads (step_of action_of) (item_by lead (200 - room) (sequence room text.now) text.now token.now) result }
    ensures end { IfOk result (λ p. (token.now.end ≤ p.1) × IsCharBoundary text.now p.1) }
    ensures stop { IfErr result (StopsInText text.now) }
{
    match lead {
        Lead::Action(verb) => {
            let (action, end) = action(alloc, verb, NESTING - room, text, token)?;
            Ok((TacItem::Action(token.start, action), end))
        }
        Lead::Skip => Ok((TacItem::Skip(token.start), token.end)),
        Lead::Open => branches(alloc, room, depth_left, text, token.start, token.end),
        Lead::Focus => focus(alloc, room, depth_left, text, token.start, token.end),
        _ => Err(misplacement(token)),
    }
}

// `br { "|" br } "]"`, after `[`.
#[cycle(sequence)]
fn branches(
    alloc: Global,
    room: usize,
    depth_left: usize,
    text: &str,
    start: usize,
    at: usize,
) -> Result<(TacItem<Action>, usize), Halt>
    requires boundary { IsCharBoundary text.now at }
    requires room { room < 200 }
    ensures reads { Reads (step_of action_of) (branches (sequence room text.now) text.now start at) result }
    ensures end { IfOk result (λ p. IsEnd text.now at p.1) }
    ensures stop { IfErr result (StopsInText text.now) }
{
    let (list, last) = branch_list(alloc, room, depth_left, text, start, at)?;
    let (close, end) = placed(']', text, last)?;
    let branches = branches_of(alloc, list)?;
    Ok((TacItem::Branches { branches, close }, end))
}

// `br { "|" br }`.
#[cycle(sequence)]
fn branch_list(
    alloc: Global,
    room: usize,
    depth_left: usize,
    text: &str,
    start: usize,
    at: usize,
) -> Result<(Vec<TacBranch<Action>>, usize), Halt>
    requires boundary { IsCharBoundary text.now at }
    requires room { room < 200 }
    ensures reads { Reads (λ v. map branch_of v.items) (branch_list (sequence room text.now) text.now start at) result }
    ensures end { IfOk result (λ p. (at ≤ p.1) × IsCharBoundary text.now p.1) }
    ensures stop { IfErr result (StopsInText text.now) }
{
    let mut list = Vec::new(alloc);
    let (first, mut end) = branch(alloc, room, depth_left, text, start, at)?;
    push_branch(&mut list, first)?;
    let mut depth_left = depth_left;
    'row: while sees_sign('|', text, end) {
        depth_left = deeper(depth_left)?;
        let (item, last) = barred(alloc, room, depth_left, text, end)?;
        push_branch(&mut list, item)?;
        end = last;
    }
    Ok((list, end))
}

fn push_branch(
    items: &mut Vec<TacBranch<Action>>,
    item: TacBranch<Action>,
) -> Result<(), AllocError>
    ensures { OnOk result (items.new.items ≡ items.old.items ++ item ∷ []) }
{
    items.push(item)?;
    Ok(())
}

// `"|" br`.
#[cycle(sequence)]
fn barred(
    alloc: Global,
    room: usize,
    depth_left: usize,
    text: &str,
    at: usize,
) -> Result<(TacBranch<Action>, usize), Halt>
    requires boundary { IsCharBoundary text.now at }
    requires room { room < 200 }
    ensures reads { Reads branch_of (barred (sequence room text.now) text.now at) result }
    ensures end { IfOk result (λ p. IsEnd text.now at p.1) }
    ensures stop { IfErr result (StopsInText text.now) }
{
    let (start, after_bar) = placed('|', text, at)?;
    branch(alloc, room, depth_left, text, start, after_bar)
}

// `[nums ":" | "*" ":"] seq`, where the sign before it stands at `start`.
#[cycle(sequence)]
fn branch(
    alloc: Global,
    room: usize,
    depth_left: usize,
    text: &str,
    start: usize,
    at: usize,
) -> Result<(TacBranch<Action>, usize), Halt>
    requires boundary { IsCharBoundary text.now at }
    requires room { room < 200 }
    ensures reads { Reads branch_of (branch (sequence room text.now) text.now start at) result }
    ensures end { IfOk result (λ p. (at ≤ p.1) × IsCharBoundary text.now p.1) }
    ensures stop { IfErr result (StopsInText text.now) }
{
    let (pick, after_pick) = picked(alloc, text, at)?;
    let (body, end) = sequence(alloc, room, depth_left, text, after_pick)?;
    Ok((
        TacBranch {
            at: start,
            pick,
            body,
        },
        end,
    ))
}

// `nums (";" | ".") seq "unfocus"`, after `focus`.
#[cycle(sequence)]
fn focus(
    alloc: Global,
    room: usize,
    depth_left: usize,
    text: &str,
    at: usize,
    from: usize,
) -> Result<(TacItem<Action>, usize), Halt>
    requires boundary { IsCharBoundary text.now from }
    requires room { room < 200 }
    ensures reads { Reads (step_of action_of) (focus (sequence room text.now) text.now at from) result }
    ensures end { IfOk result (λ p. IsEnd text.now from p.1) }
    ensures stop { IfErr result (StopsInText text.now) }
{
    let (numbers, after_numbers) = nums_at(alloc, text, from)?;
    let ((dot, sign), after_sign) = separator(text, after_numbers)?;
    let (body, after_body) = sequence(alloc, room, depth_left, text, after_sign)?;
    let (unfocus, end) = unfocus_place(text, after_body)?;
    Ok((
        TacItem::Focus {
            at,
            numbers,
            dot,
            sign,
            body,
            unfocus,
        },
        end,
    ))
}

fn tactical_item(
    alloc: Global,
    item: TacItem<Action>,
    rest: Tactical<Action>,
) -> Result<Tactical<Action>, AllocError>
    ensures { IfOk result (λ t. sequence_of action_of t ≡ Item (step_of action_of item) (sequence_of action_of rest)) }
{
    let item = Box::new(alloc, item)?;
    let rest = Box::new(alloc, rest)?;
    Ok(Tactical::Item(item, rest))
}

fn item_onto(
    alloc: Global,
    item: Option<TacItem<Action>>,
    rest: Tactical<Action>,
) -> Result<Tactical<Action>, AllocError>
    ensures { IfOk result (λ t. sequence_of action_of t ≡ item_onto (optional_step item) (sequence_of action_of rest)) }
{
    match item {
        Some(item) => tactical_item(alloc, item, rest),
        None => Ok(rest),
    }
}

fn led_item_onto(
    alloc: Global,
    led: Led,
    rest: Tactical<Action>,
) -> Result<Tactical<Action>, AllocError>
    ensures { IfOk result (λ t. sequence_of action_of t ≡ led_onto (led_of led ∷ []) (sequence_of action_of rest)) }
{
    let Led { dot, place, item } = led;
    let rest = item_onto(alloc, item, rest)?;
    let sign = if dot {
        TacItem::Dot(place)
    } else {
        TacItem::Semicolon(place)
    };
    tactical_item(alloc, sign, rest)
}

fn led_onto(alloc: Global, mut items: Vec<Led>) -> Result<Tactical<Action>, AllocError>
    ensures { IfOk result (λ t. sequence_of action_of t ≡ led_onto (map led_of items.items) NoItem) }
{
    let mut rest = Tactical::End;
    'row: while let Some(led) = items.pop() {
        rest = led_item_onto(alloc, led, rest)?;
    }
    Ok(rest)
}

fn branches_item(
    alloc: Global,
    branch: TacBranch<Action>,
    rest: TacBranches<Action>,
) -> Result<TacBranches<Action>, AllocError>
    ensures { IfOk result (λ b. choices_of action_of b ≡ choices_onto (branch_of branch ∷ []) (choices_of action_of rest)) }
{
    let branch = Box::new(alloc, branch)?;
    let rest = Box::new(alloc, rest)?;
    Ok(TacBranches::Item(branch, rest))
}

fn branches_of(
    alloc: Global,
    mut items: Vec<TacBranch<Action>>,
) -> Result<TacBranches<Action>, AllocError>
    ensures { IfOk result (λ b. choices_of action_of b ≡ choices (map branch_of items.items)) }
{
    let mut rest = TacBranches::End;
    'row: while let Some(branch) = items.pop() {
        rest = branches_item(alloc, branch, rest)?;
    }
    Ok(rest)
}
