// Raw terms taken by their names. `depth_left` is how deep the term may be; past it memory is
// wanting.
ghost use Rattle.std.specs.Prelude.{◌≡◌, ◌+◌, ◌≤◌, max, IfOk};
ghost use Rattle.mt_resolver.specs.Counts.{count_of};
ghost use Rattle.mt_resolver.specs.Resolution.{meant, or_unbound, resolved, resolved_arms, resolved_on};
ghost use Rattle.mt_resolver.specs.Resolves.{Resolves};
ghost use Rattle.mt_resolver.specs.ScopeOf.{names_of};
ghost use Rattle.mt_resolver.specs.TableOf.{AreNamesOf};
ghost use Rattle.mt_term.specs.Depth.{depth, depth_arms};
ghost use Rattle.mt_term.specs.EnvironmentOf.{environment_of};
ghost use Rattle.mt_term.specs.TreeOf.{arms_of, tree_of};
ghost use Rattle.mt_term.specs.Trees.{App, Arm, Lam, Prod};
ghost use Rattle.mt_term_parser.specs.WrittenOf.{arguments_of, cases_of, written_of};

use crate::arms::type_of_arms;
use crate::scopes::{Scope, place_in};
use crate::sorts::{refusal_at, sort_of};
use crate::table::Table;
use mt_term::{
    Branch, Branches, Halt, MAX_DEPTH, Name, Names, OutOfMemory, PlainEnv, Refusal, Term, deeper,
};
use mt_term_parser::{Raw, RawArms, RawShape, Raws};
use std::alloc::{AllocError, Global};

/// The term that a raw term stands for: each name is the newest hypothesis of that name, else the
/// entry or constructor. Nothing else of the term is judged, but that the arms of a match name the
/// constructors of one type.
///
/// # Errors
///
/// The first fault from the left: `Unbound` at a name, or at a sort, that is not known;
/// `BadElimination` at a match whose arms do not fit; `NotHere` at a form that is not taken by
/// names.

pub fn resolve(
    alloc: Global,
    env: &PlainEnv,
    names: &Table,
    scope: &Scope<'_>,
    raw: &Raw,
) -> Result<Term, Halt>
    requires { AreNamesOf names.now env.now.entries }
    ensures found { Resolves tree_of (resolved (environment_of env.now) (names_of scope.now) (written_of raw.now)) result }
    ensures depth { IfOk result (λ t. depth (tree_of t) ≤ 2000) }
{
    resolve_within(alloc, env, names, scope, raw, MAX_DEPTH)
}

#[cycle(resolve)]
fn resolve_within(
    alloc: Global,
    env: &PlainEnv,
    names: &Table,
    scope: &Scope<'_>,
    raw: &Raw,
    depth_left: usize,
) -> Result<Term, Halt>
    requires { AreNamesOf names.now env.now.entries }
    ensures found { Resolves tree_of (resolved (environment_of env.now) (names_of scope.now) (written_of raw.now)) result }
    ensures depth { IfOk result (λ t. depth (tree_of t) ≤ depth_left) }
{
    let depth_left = deeper(depth_left)?;
    match &raw.shape {
        RawShape::Name(name) => named_term(env, names, scope, name, raw.start),
        RawShape::Sort(sort) => Ok(Term::Sort(sort_of(alloc, &env.names, sort, raw.start)?)),
        RawShape::Lam(name, Some(ty), body) => {
            let ty = resolve_within(alloc, env, names, scope, ty, depth_left)?;
            let inner = Scope::More(&*name, &*scope);
            let body = resolve_within(alloc, env, names, &inner, body, depth_left)?;
            Ok(abstraction(alloc, name, ty, body)?)
        }
        RawShape::Prod(name, ty, body) => {
            let ty = resolve_within(alloc, env, names, scope, ty, depth_left)?;
            let inner = Scope::More(&*name, &*scope);
            let body = resolve_within(alloc, env, names, &inner, body, depth_left)?;
            Ok(product(alloc, name, ty, body)?)
        }
        RawShape::App(head, args) => {
            let left = left_beside(args, depth_left)?;
            let head = resolve_within(alloc, env, names, scope, head, left)?;
            resolve_on(alloc, env, names, scope, args, head, left)
        }
        RawShape::Match(matched, Some(ty), arms) => {
            let matched = in_box(
                alloc,
                resolve_within(alloc, env, names, scope, matched, depth_left)?,
            )?;
            let number = match type_of_arms(env, names, arms, depth_left)? {
                Some(number) => number,
                None => return Err(refusal_at(Refusal::BadElimination, raw.start)),
            };
            let ty = in_box(
                alloc,
                resolve_within(alloc, env, names, scope, ty, depth_left)?,
            )?;
            let branches = resolve_arms(alloc, env, names, scope, arms, depth_left)?;
            Ok(Term::Match(number, ty, matched, branches))
        }
        _ => Err(refusal_at(Refusal::NotHere, raw.start)),
    }
}

// A term on further arguments, each no deeper than `left`.
#[cycle(resolve)]
fn resolve_on(
    alloc: Global,
    env: &PlainEnv,
    names: &Table,
    scope: &Scope<'_>,
    args: &Raws,
    head: Term,
    left: usize,
) -> Result<Term, Halt>
    requires { AreNamesOf names.now env.now.entries }
    ensures found { Resolves tree_of (resolved_on (environment_of env.now) (names_of scope.now) (tree_of head) (arguments_of args.now)) result }
    ensures depth { IfOk result (λ t. depth (tree_of t) ≤ max (depth (tree_of head)) left + count_of (arguments_of args.now)) }
{
    match args {
        Raws::End => Ok(head),
        Raws::Item(arg, rest) => {
            let arg = resolve_within(alloc, env, names, scope, arg, left)?;
            let head = application(alloc, head, arg)?;
            resolve_on(alloc, env, names, scope, rest, head, left)
        }
    }
}

#[cycle(resolve)]
fn resolve_arms(
    alloc: Global,
    env: &PlainEnv,
    names: &Table,
    scope: &Scope<'_>,
    arms: &RawArms,
    depth_left: usize,
) -> Result<Branches, Halt>
    requires { AreNamesOf names.now env.now.entries }
    ensures found { Resolves arms_of (resolved_arms (environment_of env.now) (names_of scope.now) (cases_of arms.now)) result }
    ensures depth { IfOk result (λ bs. depth_arms (arms_of bs) ≤ depth_left) }
{
    let depth_left = deeper(depth_left)?;
    match arms {
        RawArms::End => Ok(Branches::End),
        RawArms::Item(arm, rest) => {
            let arm = arm;
            let inner = Scope::Binders(&arm.binders, &*scope);
            let body = resolve_within(alloc, env, names, &inner, &arm.body, depth_left)?;
            let branches = resolve_arms(alloc, env, names, scope, rest, depth_left)?;
            Ok(branch(alloc, &arm.binders, body, branches)?)
        }
    }
}

// What a name stands for.
#[tactic(auto, using(crate::proofs::Names::name_rules))]
fn named_term(
    env: &PlainEnv,
    names: &Table,
    scope: &Scope<'_>,
    name: &Name,
    at: usize,
) -> Result<Term, Halt>
    requires { AreNamesOf names.now env.now.entries }
    ensures found { Resolves tree_of (or_unbound name.now at (meant (environment_of env.now) (names_of scope.now) name.now)) result }
    ensures depth { IfOk result (λ t. depth (tree_of t) ≡ 1) }
{
    if let Some(i) = place_in(scope, name.as_bytes())? {
        return Ok(Term::Var(i));
    }
    match names.find(name.as_bytes()) {
        Some(meaning) => Ok(meaning.term()),
        None => Err(refusal_at(Refusal::Unbound(name.clone()?), at)),
    }
}

// The depth that is left for the head and the arguments of an application.
fn left_beside(args: &Raws, depth_left: usize) -> Result<usize, OutOfMemory>
    ensures { IfOk result (λ left. left + count_of (arguments_of args.now) ≡ depth_left) }
{
    match args {
        Raws::End => Ok(depth_left),
        Raws::Item(_, rest) => left_beside(rest, deeper(depth_left)?),
    }
}

fn abstraction(alloc: Global, name: &Name, ty: Term, body: Term) -> Result<Term, OutOfMemory>
    ensures { IfOk result (λ t. tree_of t ≡ Lam name.now (tree_of ty) (tree_of body)) }
{
    let name = name.clone()?;
    let ty = Box::new(alloc, ty)?;
    let body = Box::new(alloc, body)?;
    Ok(Term::Lam(name, ty, body))
}

fn product(alloc: Global, name: &Name, ty: Term, body: Term) -> Result<Term, OutOfMemory>
    ensures { IfOk result (λ t. tree_of t ≡ Prod name.now (tree_of ty) (tree_of body)) }
{
    let name = name.clone()?;
    let ty = Box::new(alloc, ty)?;
    let body = Box::new(alloc, body)?;
    Ok(Term::Prod(name, ty, body))
}

fn application(alloc: Global, head: Term, arg: Term) -> Result<Term, OutOfMemory>
    ensures { IfOk result (λ t. tree_of t ≡ App (tree_of head) (tree_of arg)) }
{
    let head = Box::new(alloc, head)?;
    let arg = Box::new(alloc, arg)?;
    Ok(Term::App(head, arg))
}

fn in_box(alloc: Global, t: Term) -> Result<Box<Term>, OutOfMemory>
    ensures { IfOk result (λ b. tree_of b.value ≡ tree_of t) }
{
    Ok(Box::new(alloc, t)?)
}

fn branch(
    alloc: Global,
    names: &Names,
    body: Term,
    branches: Branches,
) -> Result<Branches, OutOfMemory>
    ensures { IfOk result (λ bs. arms_of bs ≡ Arm names.now (tree_of body) (arms_of branches)) }
{
    let names = names.clone()?;
    let branch = Box::new(alloc, Branch { names, body })?;
    let branches = Box::new(alloc, branches)?;
    Ok(Branches::Item(branch, branches))
}
