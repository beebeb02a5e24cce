// The grammar of commands.
ghost use Rattle.std.specs.Prelude.{◌≡◌, ◌<◌, ◌≤◌, [], ◌∷◌, map, IfOk, IfErr};
ghost use Rattle.std.specs.Str.{IsCharBoundary};
ghost use Rattle.mt_term_parser.specs.Readings.{many_from, number, sees_sign, IsEnd, Reads, Passes, StopsInText};
ghost use Rattle.mt_term_parser.specs.WrittenOf.{written_of};
ghost use Rattle.mt_term_parser.specs.Grammar.{led, separated};
ghost use Rattle.mt_term_parser.proofs.Rows.{after};
ghost use Rattle.mt_unit_parser.specs.WrittenUnits.{Inductive, Recursive};
ghost use Rattle.mt_unit_parser.specs.UnitOf.{group_of, con_of, eq_of, kind_of, optional_of};
ghost use Rattle.mt_unit_parser.specs.SignatureOf.{signature_of, recursion_of};
ghost use Rattle.mt_unit_parser.specs.Units.{is_spelled, spelled, after_sign, head, variable, group, groups, some_groups, nums, constraint, stated, assumed, theorem, optional_type, body, defined, constructor, optional_bar, constructors, signature, inductive, recursion_head, recursion, corecursion, letting, variables, equation, sides, hint_head, hint, coercion, qed};

use crate::units::{
    Group, Groups, RawCon, RawCons, RawEq, RawEqs, RawFunction, RawFunctions, RawType, RawTypes,
    UnitKind,
};
use mt_lexer::Token;
use mt_term::{Halt, Name};
use mt_term_parser::readings::{
    binder_at, is_name, is_name_kind, misplacement, name_at, name_of, number_at, require_token,
    sees_binder, sees_name, sees_sign, sign_at, word_of,
};
use mt_term_parser::{Raw, term_at};
use mt_tiny::Goals;
use std::alloc::{AllocError, Global};

/// Whether the token is this word, which is a name elsewhere.
pub fn is_spelled(wanted: &str, text: &str, token: &Token) -> bool
    requires order { token.now.start ≤ token.now.end }
    requires start { IsCharBoundary text.now token.now.start }
    requires stop { IsCharBoundary text.now token.now.end }
    ensures { result ≡ is_spelled wanted.now text.now token.now }
{
    is_name_kind(token) && word_of(text, token) == wanted
}

// The end of a word that is needed.
fn spelled(wanted: &str, text: &str, at: usize) -> Result<usize, Halt>
    requires { IsCharBoundary text.now at }
    ensures reads { Passes (spelled wanted.now text.now at) result }
    ensures end { IfOk result (IsEnd text.now at) }
    ensures stop { IfErr result (StopsInText text.now) }
{
    let token = require_token(text, at)?;
    if is_spelled(wanted, text, &token) {
        Ok(token.end)
    } else {
        Err(misplacement(&token))
    }
}

// A sign and then a term.
fn after_sign(sign: char, alloc: Global, text: &str, at: usize) -> Result<(Raw, usize), Halt>
    requires { IsCharBoundary text.now at }
    ensures reads { Reads written_of (after_sign sign text.now at) result }
    ensures end { IfOk result (λ p. IsEnd text.now at p.1) }
    ensures stop { IfErr result (StopsInText text.now) }
{
    let place = sign_at(sign, text, at)?;
    term_at(alloc, text, place, 0)
}

// `name ":" term`.
fn head(alloc: Global, text: &str, at: usize) -> Result<(Group, usize), Halt>
    requires { IsCharBoundary text.now at }
    ensures reads { Reads group_of (head text.now at) result }
    ensures end { IfOk result (λ p. IsEnd text.now at p.1) }
    ensures stop { IfErr result (StopsInText text.now) }
{
    let (name, after_name) = name_at(alloc, text, at)?;
    let (ty, end) = after_sign(':', alloc, text, after_name)?;
    Ok((Group { name, ty }, end))
}

// `x ":" term`.
fn variable(alloc: Global, text: &str, at: usize) -> Result<(Group, usize), Halt>
    requires { IsCharBoundary text.now at }
    ensures reads { Reads group_of (variable text.now at) result }
    ensures end { IfOk result (λ p. IsEnd text.now at p.1) }
    ensures stop { IfErr result (StopsInText text.now) }
{
    let (name, after_name) = binder_at(alloc, text, at)?;
    let (ty, end) = after_sign(':', alloc, text, after_name)?;
    Ok((Group { name, ty }, end))
}

// `"(" x ":" term ")"`.
fn group(alloc: Global, text: &str, at: usize) -> Result<(Group, usize), Halt>
    requires { IsCharBoundary text.now at }
    ensures reads { Reads group_of (group text.now at) result }
    ensures end { IfOk result (λ p. IsEnd text.now at p.1) }
    ensures stop { IfErr result (StopsInText text.now) }
{
    let open = sign_at('(', text, at)?;
    let (group, last) = variable(alloc, text, open)?;
    let end = sign_at(')', text, last)?;
    Ok((group, end))
}

// `{ group }`, after groups that were read before.
fn more_groups(
    alloc: Global,
    text: &str,
    at: usize,
    before: Groups,
) -> Result<(Groups, usize), Halt>
    requires { IsCharBoundary text.now at }
    ensures reads { Reads (map group_of) (after (map group_of before) (groups text.now at)) result }
    ensures end { IfOk result (λ p. (at ≤ p.1) × IsCharBoundary text.now p.1) }
    ensures stop { IfErr result (StopsInText text.now) }
{
    let mut groups = before;
    let mut end = at;
    'row: while sees_sign('(', text, end) {
        let (item, last) = group(alloc, text, end)?;
        groups.push(item)?;
        end = last;
    }
    Ok((groups, end))
}

// `{ group }`.
fn groups_at(alloc: Global, text: &str, at: usize) -> Result<(Groups, usize), Halt>
    requires { IsCharBoundary text.now at }
    ensures reads { Reads (map group_of) (after [] (groups text.now at)) result }
    ensures end { IfOk result (λ p. (at ≤ p.1) × IsCharBoundary text.now p.1) }
    ensures stop { IfErr result (StopsInText text.now) }
{
    more_groups(alloc, text, at, Groups::new(alloc))
}

// `group { group }`.
fn some_groups(alloc: Global, text: &str, at: usize) -> Result<(Groups, usize), Halt>
    requires { IsCharBoundary text.now at }
    ensures reads { Reads (map group_of) (some_groups text.now at) result }
    ensures end { IfOk result (λ p. IsEnd text.now at p.1) }
    ensures stop { IfErr result (StopsInText text.now) }
{
    let (first, place) = group(alloc, text, at)?;
    let mut groups = Groups::new(alloc);
    groups.push(first)?;
    more_groups(alloc, text, place, groups)
}

/// `number { "," number }`.
pub fn nums_at(alloc: Global, text: &str, at: usize) -> Result<(Goals, usize), Halt>
    requires { IsCharBoundary text.now at }
    ensures reads { Reads (λ n. n) (nums text.now at) result }
    ensures end { IfOk result (λ p. IsEnd text.now at p.1) }
    ensures stop { IfErr result (StopsInText text.now) }
{
    let mut numbers = Goals::new(alloc);
    let (first, mut end) = number_at(text, at)?;
    numbers.push(first as usize)?;
    'row: while sees_sign(',', text, end) {
        let (number, last) = next_number(text, end)?;
        numbers.push(number as usize)?;
        end = last;
    }
    Ok((numbers, end))
}

// `"," number`.
fn next_number(text: &str, at: usize) -> Result<(u32, usize), Halt>
    requires { IsCharBoundary text.now at }
    ensures reads { Reads (λ n. n) (led 44 text.now (number text.now) at) result }
    ensures end { IfOk result (λ p. IsEnd text.now at p.1) }
    ensures stop { IfErr result (StopsInText text.now) }
{
    let comma = sign_at(',', text, at)?;
    number_at(text, comma)
}

/// `"constraint" name "<" name "."`, after `universe`.
pub fn constraint(alloc: Global, text: &str, at: usize) -> Result<(UnitKind, usize), Halt>
    requires { IsCharBoundary text.now at }
    ensures reads { Reads kind_of (constraint text.now at) result }
    ensures end { IfOk result (λ p. IsEnd text.now at p.1) }
    ensures stop { IfErr result (StopsInText text.now) }
{
    let word = spelled("constraint", text, at)?;
    let (low, after_low) = name_at(alloc, text, word)?;
    let sign = sign_at('<', text, after_low)?;
    let (high, after_high) = name_at(alloc, text, sign)?;
    let end = sign_at('.', text, after_high)?;
    Ok((UnitKind::Constraint(low, high), end))
}

// `name ":" term "."`.
fn stated(alloc: Global, text: &str, at: usize) -> Result<(Group, usize), Halt>
    requires { IsCharBoundary text.now at }
    ensures reads { Reads group_of (stated text.now at) result }
    ensures end { IfOk result (λ p. IsEnd text.now at p.1) }
    ensures stop { IfErr result (StopsInText text.now) }
{
    let (group, last) = head(alloc, text, at)?;
    let end = sign_at('.', text, last)?;
    Ok((group, end))
}

/// `name ":" term "."`, after `axiom`.
pub fn axiom_unit(alloc: Global, text: &str, at: usize) -> Result<(UnitKind, usize), Halt>
    requires { IsCharBoundary text.now at }
    ensures reads { Reads kind_of (assumed text.now at) result }
    ensures end { IfOk result (λ p. IsEnd text.now at p.1) }
    ensures stop { IfErr result (StopsInText text.now) }
{
    let (group, end) = stated(alloc, text, at)?;
    let Group { name, ty } = group;
    Ok((UnitKind::Axiom(name, ty), end))
}

/// `name ":" term "."`, after `theorem`.
pub fn theorem(alloc: Global, text: &str, at: usize) -> Result<(UnitKind, usize), Halt>
    requires { IsCharBoundary text.now at }
    ensures reads { Reads kind_of (theorem text.now at) result }
    ensures end { IfOk result (λ p. IsEnd text.now at p.1) }
    ensures stop { IfErr result (StopsInText text.now) }
{
    let (group, end) = stated(alloc, text, at)?;
    let Group { name, ty } = group;
    Ok((UnitKind::Theorem(name, ty), end))
}

// `[":" term]`.
fn optional_type(alloc: Global, text: &str, at: usize) -> Result<(Option<Raw>, usize), Halt>
    requires { IsCharBoundary text.now at }
    ensures reads { Reads optional_of (optional_type text.now at) result }
    ensures end { IfOk result (λ p. (at ≤ p.1) × IsCharBoundary text.now p.1) }
    ensures stop { IfErr result (StopsInText text.now) }
{
    if !sees_sign(':', text, at) {
        return Ok((None, at));
    }
    let (ty, end) = after_sign(':', alloc, text, at)?;
    Ok((Some(ty), end))
}

// `"≝" term "."`.
fn body_at(alloc: Global, text: &str, at: usize) -> Result<(Raw, usize), Halt>
    requires { IsCharBoundary text.now at }
    ensures reads { Reads written_of (body text.now at) result }
    ensures end { IfOk result (λ p. IsEnd text.now at p.1) }
    ensures stop { IfErr result (StopsInText text.now) }
{
    let (body, last) = after_sign('≝', alloc, text, at)?;
    let end = sign_at('.', text, last)?;
    Ok((body, end))
}

/// `name [":" term] "≝" term "."`, after `definition`.
pub fn definition_unit(alloc: Global, text: &str, at: usize) -> Result<(UnitKind, usize), Halt>
    requires { IsCharBoundary text.now at }
    ensures reads { Reads kind_of (defined text.now at) result }
    ensures end { IfOk result (λ p. IsEnd text.now at p.1) }
    ensures stop { IfErr result (StopsInText text.now) }
{
    let (name, after_name) = name_at(alloc, text, at)?;
    let (ty, after_type) = optional_type(alloc, text, after_name)?;
    let (body, end) = body_at(alloc, text, after_type)?;
    Ok((UnitKind::Definition(name, ty, body), end))
}

// `name ":" term`, with the place of the name.
fn constructor(alloc: Global, text: &str, at: usize) -> Result<(RawCon, usize), Halt>
    requires { IsCharBoundary text.now at }
    ensures reads { Reads con_of (constructor text.now at) result }
    ensures end { IfOk result (λ p. IsEnd text.now at p.1) }
    ensures stop { IfErr result (StopsInText text.now) }
{
    let token = require_token(text, at)?;
    if !is_name(text, &token) {
        return Err(misplacement(&token));
    }
    let name = name_of(alloc, text, &token)?;
    let (ty, end) = after_sign(':', alloc, text, token.end)?;
    Ok((
        RawCon {
            at: token.start,
            name,
            ty,
        },
        end,
    ))
}

// `"|" name ":" term`.
fn next_constructor(alloc: Global, text: &str, at: usize) -> Result<(RawCon, usize), Halt>
    requires { IsCharBoundary text.now at }
    ensures reads { Reads con_of (led 124 text.now (constructor text.now) at) result }
    ensures end { IfOk result (λ p. IsEnd text.now at p.1) }
    ensures stop { IfErr result (StopsInText text.now) }
{
    let bar = sign_at('|', text, at)?;
    constructor(alloc, text, bar)
}

fn constructor_list(alloc: Global, text: &str, at: usize) -> Result<(RawCons, usize), Halt>
    requires { IsCharBoundary text.now at }
    ensures reads { Reads (map con_of) (separated 124 text.now (constructor text.now) at) result }
    ensures end { IfOk result (λ p. IsEnd text.now at p.1) }
    ensures stop { IfErr result (StopsInText text.now) }
{
    let mut cons = RawCons::new(alloc);
    let (first, mut end) = constructor(alloc, text, at)?;
    cons.push(first)?;
    'row: while sees_sign('|', text, end) {
        let (con, last) = next_constructor(alloc, text, end)?;
        cons.push(con)?;
        end = last;
    }
    Ok((cons, end))
}

fn optional_bar(text: &str, at: usize) -> Result<usize, Halt>
    requires { IsCharBoundary text.now at }
    ensures reads { Passes (optional_bar text.now at) result }
    ensures end { IfOk result (λ end. (at ≤ end) × IsCharBoundary text.now end) }
    ensures stop { IfErr result (StopsInText text.now) }
{
    if sees_sign('|', text, at) {
        sign_at('|', text, at)
    } else {
        Ok(at)
    }
}

// `["|"] [name ":" term { "|" name ":" term }]`.
fn constructors(alloc: Global, text: &str, at: usize) -> Result<(RawCons, usize), Halt>
    requires { IsCharBoundary text.now at }
    ensures reads { Reads (map con_of) (constructors text.now at) result }
    ensures end { IfOk result (λ p. (at ≤ p.1) × IsCharBoundary text.now p.1) }
    ensures stop { IfErr result (StopsInText text.now) }
{
    let bar = optional_bar(text, at)?;
    if sees_name(text, bar) {
        constructor_list(alloc, text, bar)
    } else {
        Ok((RawCons::new(alloc), bar))
    }
}

// A name, its groups and its type.
#[derive(Drop)]
struct FunctionHead {
    name: Name,
    groups: Groups,
    ty: Raw,
}

// `name { group } ":" term`.
fn signature(alloc: Global, text: &str, at: usize) -> Result<(FunctionHead, usize), Halt>
    requires { IsCharBoundary text.now at }
    ensures reads { Reads signature_of (signature text.now at) result }
    ensures end { IfOk result (λ p. IsEnd text.now at p.1) }
    ensures stop { IfErr result (StopsInText text.now) }
{
    let (name, after_name) = name_at(alloc, text, at)?;
    let (groups, after_groups) = groups_at(alloc, text, after_name)?;
    let (ty, end) = after_sign(':', alloc, text, after_groups)?;
    Ok((FunctionHead { name, groups, ty }, end))
}

/// `name { group } ":" term "≝" ["|"] [name ":" term { "|" name ":" term }] "."`, after
/// `inductive` or `coinductive`.
pub fn inductive(alloc: Global, co: bool, text: &str, at: usize) -> Result<(UnitKind, usize), Halt>
    requires { IsCharBoundary text.now at }
    ensures reads { Reads kind_of (inductive co text.now at) result }
    ensures end { IfOk result (λ p. IsEnd text.now at p.1) }
    ensures stop { IfErr result (StopsInText text.now) }
{
    let (signature, after_type) = signature(alloc, text, at)?;
    let sign = sign_at('≝', text, after_type)?;
    let (cons, last) = constructors(alloc, text, sign)?;
    let end = sign_at('.', text, last)?;
    Ok((inductive_of(alloc, co, signature, cons)?, end))
}

fn inductive_of(
    alloc: Global,
    co: bool,
    signature: FunctionHead,
    cons: RawCons,
) -> Result<UnitKind, AllocError>
    ensures { IfOk result (λ k. kind_of k ≡ Inductive co (map group_of signature.groups) (record { name = signature.name; arity = written_of signature.ty; cons = map con_of cons } ∷ [])) }
{
    let FunctionHead { name, groups, ty } = signature;
    let mut types = RawTypes::new(alloc);
    types.push(RawType {
        name,
        arity: ty,
        cons,
    })?;
    Ok(UnitKind::Inductive { co, groups, types })
}

/// `"rec"` or `"corec"` and a function, after `let`.
pub fn letting(alloc: Global, text: &str, at: usize) -> Result<(UnitKind, usize), Halt>
    requires { IsCharBoundary text.now at }
    ensures reads { Reads kind_of (letting text.now at) result }
    ensures end { IfOk result (λ p. IsEnd text.now at p.1) }
    ensures stop { IfErr result (StopsInText text.now) }
{
    let token = require_token(text, at)?;
    if is_spelled("rec", text, &token) {
        recursion(alloc, text, token.end)
    } else if is_spelled("corec", text, &token) {
        corecursion(alloc, text, token.end)
    } else {
        Err(misplacement(&token))
    }
}

// `name group { group } "on" name ":" term`.
fn recursion_head(
    alloc: Global,
    text: &str,
    at: usize,
) -> Result<((FunctionHead, Name), usize), Halt>
    requires { IsCharBoundary text.now at }
    ensures reads { Reads recursion_of (recursion_head text.now at) result }
    ensures end { IfOk result (λ p. IsEnd text.now at p.1) }
    ensures stop { IfErr result (StopsInText text.now) }
{
    let (name, after_name) = name_at(alloc, text, at)?;
    let (groups, after_groups) = some_groups(alloc, text, after_name)?;
    let word = spelled("on", text, after_groups)?;
    let (on, after_on) = name_at(alloc, text, word)?;
    let (ty, end) = after_sign(':', alloc, text, after_on)?;
    Ok(((FunctionHead { name, groups, ty }, on), end))
}

fn recursion(alloc: Global, text: &str, at: usize) -> Result<(UnitKind, usize), Halt>
    requires { IsCharBoundary text.now at }
    ensures reads { Reads kind_of (recursion text.now at) result }
    ensures end { IfOk result (λ p. IsEnd text.now at p.1) }
    ensures stop { IfErr result (StopsInText text.now) }
{
    let ((signature, on), after_type) = recursion_head(alloc, text, at)?;
    let (body, end) = body_at(alloc, text, after_type)?;
    Ok((function_of(alloc, false, signature, Some(on), body)?, end))
}

fn corecursion(alloc: Global, text: &str, at: usize) -> Result<(UnitKind, usize), Halt>
    requires { IsCharBoundary text.now at }
    ensures reads { Reads kind_of (corecursion text.now at) result }
    ensures end { IfOk result (λ p. IsEnd text.now at p.1) }
    ensures stop { IfErr result (StopsInText text.now) }
{
    let (signature, after_type) = signature(alloc, text, at)?;
    let (body, end) = body_at(alloc, text, after_type)?;
    Ok((function_of(alloc, true, signature, None, body)?, end))
}

fn function_of(
    alloc: Global,
    co: bool,
    signature: FunctionHead,
    on: Option<Name>,
    body: Raw,
) -> Result<UnitKind, AllocError>
    ensures { IfOk result (λ k. kind_of k ≡ Recursive co (record { name = signature.name; groups = map group_of signature.groups; on = on; type = written_of signature.ty; body = written_of body } ∷ [])) }
{
    let FunctionHead { name, groups, ty } = signature;
    let mut functions = RawFunctions::new(alloc);
    functions.push(RawFunction {
        name,
        groups,
        on,
        ty,
        body,
    })?;
    Ok(UnitKind::Recursive { co, functions })
}

// `"," x ":" term`.
fn next_variable(alloc: Global, text: &str, at: usize) -> Result<(Group, usize), Halt>
    requires { IsCharBoundary text.now at }
    ensures reads { Reads group_of (led 44 text.now (variable text.now) at) result }
    ensures end { IfOk result (λ p. IsEnd text.now at p.1) }
    ensures stop { IfErr result (StopsInText text.now) }
{
    let comma = sign_at(',', text, at)?;
    variable(alloc, text, comma)
}

fn variable_list(alloc: Global, text: &str, at: usize) -> Result<(Groups, usize), Halt>
    requires { IsCharBoundary text.now at }
    ensures reads { Reads (map group_of) (separated 44 text.now (variable text.now) at) result }
    ensures end { IfOk result (λ p. IsEnd text.now at p.1) }
    ensures stop { IfErr result (StopsInText text.now) }
{
    let mut vars = Groups::new(alloc);
    let (first, mut end) = variable(alloc, text, at)?;
    vars.push(first)?;
    'row: while sees_sign(',', text, end) {
        let (var, last) = next_variable(alloc, text, end)?;
        vars.push(var)?;
        end = last;
    }
    Ok((vars, end))
}

// `[x ":" term { "," x ":" term }]`.
fn variables(alloc: Global, text: &str, at: usize) -> Result<(Groups, usize), Halt>
    requires { IsCharBoundary text.now at }
    ensures reads { Reads (map group_of) (variables text.now at) result }
    ensures end { IfOk result (λ p. (at ≤ p.1) × IsCharBoundary text.now p.1) }
    ensures stop { IfErr result (StopsInText text.now) }
{
    if sees_binder(text, at) {
        variable_list(alloc, text, at)
    } else {
        Ok((Groups::new(alloc), at))
    }
}

// `";" name "≟" term`.
fn equation(alloc: Global, text: &str, at: usize) -> Result<(RawEq, usize), Halt>
    requires { IsCharBoundary text.now at }
    ensures reads { Reads eq_of (equation text.now at) result }
    ensures end { IfOk result (λ p. IsEnd text.now at p.1) }
    ensures stop { IfErr result (StopsInText text.now) }
{
    let sign = sign_at(';', text, at)?;
    let (name, after_name) = name_at(alloc, text, sign)?;
    let (term, end) = after_sign('≟', alloc, text, after_name)?;
    Ok((RawEq { name, term }, end))
}

// `{ ";" name "≟" term }`.
fn equations(alloc: Global, text: &str, at: usize) -> Result<(RawEqs, usize), Halt>
    requires { IsCharBoundary text.now at }
    ensures reads { Reads (map eq_of) (many_from text.now (sees_sign 59 text.now) (equation text.now) at) result }
    ensures end { IfOk result (λ p. (at ≤ p.1) × IsCharBoundary text.now p.1) }
    ensures stop { IfErr result (StopsInText text.now) }
{
    let mut eqs = RawEqs::new(alloc);
    let mut end = at;
    'row: while sees_sign(';', text, end) {
        let (eq, last) = equation(alloc, text, end)?;
        eqs.push(eq)?;
        end = last;
    }
    Ok((eqs, end))
}

// `"⊢" term "≡" term "."`.
fn sides(alloc: Global, text: &str, at: usize) -> Result<((Raw, Raw), usize), Halt>
    requires { IsCharBoundary text.now at }
    ensures reads { Reads (λ s. (written_of s.0, written_of s.1)) (sides text.now at) result }
    ensures end { IfOk result (λ p. IsEnd text.now at p.1) }
    ensures stop { IfErr result (StopsInText text.now) }
{
    let (left, after_left) = after_sign('⊢', alloc, text, at)?;
    let (right, after_right) = after_sign('≡', alloc, text, after_left)?;
    let end = sign_at('.', text, after_right)?;
    Ok(((left, right), end))
}

// `"hint" number "≔"`.
fn hint_head(text: &str, at: usize) -> Result<(u32, usize), Halt>
    requires { IsCharBoundary text.now at }
    ensures reads { Reads (λ n. n) (hint_head text.now at) result }
    ensures end { IfOk result (λ p. IsEnd text.now at p.1) }
    ensures stop { IfErr result (StopsInText text.now) }
{
    let word = spelled("hint", text, at)?;
    let (precedence, after_number) = number_at(text, word)?;
    let end = sign_at('≔', text, after_number)?;
    Ok((precedence, end))
}

/// `"hint" number "≔" [x ":" term { "," x ":" term }] { ";" name "≟" term } "⊢" term "≡" term "."`,
/// after `unification`.
pub fn hint(alloc: Global, text: &str, at: usize) -> Result<(UnitKind, usize), Halt>
    requires { IsCharBoundary text.now at }
    ensures reads { Reads kind_of (hint text.now at) result }
    ensures end { IfOk result (λ p. IsEnd text.now at p.1) }
    ensures stop { IfErr result (StopsInText text.now) }
{
    let (precedence, after_head) = hint_head(text, at)?;
    let (vars, after_vars) = variables(alloc, text, after_head)?;
    let (eqs, after_eqs) = equations(alloc, text, after_vars)?;
    let ((left, right), end) = sides(alloc, text, after_eqs)?;
    Ok((
        UnitKind::Hint {
            precedence,
            vars,
            eqs,
            left,
            right,
        },
        end,
    ))
}

/// `name "."`, after `coercion`.
pub fn coercion(alloc: Global, text: &str, at: usize) -> Result<(UnitKind, usize), Halt>
    requires { IsCharBoundary text.now at }
    ensures reads { Reads kind_of (coercion text.now at) result }
    ensures end { IfOk result (λ p. IsEnd text.now at p.1) }
    ensures stop { IfErr result (StopsInText text.now) }
{
    let (name, last) = name_at(alloc, text, at)?;
    let end = sign_at('.', text, last)?;
    Ok((UnitKind::Coercion(name), end))
}

/// `"."`, after `qed`.
pub fn qed(text: &str, at: usize) -> Result<(UnitKind, usize), Halt>
    requires { IsCharBoundary text.now at }
    ensures reads { Reads kind_of (qed text.now at) result }
    ensures end { IfOk result (λ p. IsEnd text.now at p.1) }
    ensures stop { IfErr result (StopsInText text.now) }
{
    let end = sign_at('.', text, at)?;
    Ok((UnitKind::Qed, end))
}
