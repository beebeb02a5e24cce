// Constructors of an inductive type, where the environment knows the type.
ghost use Rattle.std.specs.Prelude.{◌≡◌, ◌+◌, ◌<◌, ◌++◌, ◌∷◌, ◌&&◌, [], drop, length, IfOk};
ghost use Rattle.mt_decl.specs.Constructing.{constructed, constructed_on, finished, typed};
ghost use Rattle.mt_decl.specs.Declares.{Declares};
ghost use Rattle.mt_decl.specs.Fitting.{sorting};
ghost use Rattle.mt_decl.specs.TelescopeOf.{hypotheses_of};
ghost use Rattle.mt_decl.specs.Telescopes.{generalized, names_of};
ghost use Rattle.mt_pool.specs.Region.{Kept, tree_at};
ghost use Rattle.mt_positivity.specs.Deciding.{is_positive};
ghost use Rattle.mt_resolver.specs.Resolution.{resolved};
ghost use Rattle.mt_resolver.specs.Resolves.{Resolves};
ghost use Rattle.mt_resolver.specs.ScopeOf as scopes;
ghost use Rattle.mt_resolver.specs.TableOf.{AreNamesOf};
ghost use Rattle.mt_term.specs.ConstructorOf.{constructor_of};
ghost use Rattle.mt_term.specs.EnvironmentOf.{environment_of};
ghost use Rattle.mt_term.specs.TreeOf.{tree_of};
ghost use Rattle.mt_term_parser.specs.WrittenOf.{written_of};

use crate::arguments::{arguments_fit, do_arguments_fit};
use crate::judging::judge_type;
use crate::telescopes::{Telescope, count, generalization_over};
use mt_pool::{Held, HeldCons, HeldConstructor, Pool, TermId};
use mt_positivity::positive;
use mt_resolver::{Scope, Table, resolve};
use mt_term::{
    Cons, Constructor, Fault, Halt, MAX_DEPTH, Name, OutOfMemory, PlainEnv, Refusal, Sort, Term,
    copy, deeper,
};
use mt_term_parser::Raw;
use mt_text::{Ledger, Steps};
use mt_unit_parser::{RawCon, RawCons};
use std::alloc::Global;

/// An inductive type whose constructors are declared: its number, its parameters, its closed type
/// and its sort.
#[derive(Clone, Copy)]
pub struct NewFamily<'a> {
    pub number: usize,
    pub params: &'a Telescope<'a>,
    pub ty: &'a Term,
    pub sort: &'a Sort,
}

/// The constructors of a type from a number on, after those that are declared, and whether all
/// allow a match into every sort.
///
/// # Errors
///
/// Those of each constructor in order: of its type's names, `NotPositive`, and `KernelRefused` at
/// the unit's start.
#[tactic(auto, using(crate::proofs::ConstructingRules::constructors_rules, mt_pool::proofs::Region::kept))]
pub fn declare_constructors<L: Ledger>(
    alloc: Global,
    pool: &mut Pool,
    env: &PlainEnv,
    names: &Table,
    start: usize,
    scope: &Scope<'_>,
    family: &NewFamily<'_>,
    only: bool,
    cons: &RawCons,
    from: usize,
    made: (Cons, bool),
    left: &mut u64,
    depth_left: usize,
    steps: &mut Steps<L>,
) -> Result<(Cons, bool), Halt>
    requires names { AreNamesOf names.now env.now.entries }
    requires scope { scopes.names_of scope.now ≡ names_of (hypotheses_of family.now.params.now) }
    ensures kept { Kept pool.old pool.new }
    ensures answer { Declares (λ d. d) (constructed_on (environment_of env.now) start family.now.number (hypotheses_of family.now.params.now) (tree_of family.now.ty.now) family.now.sort.now only made.0 made.1 (drop from cons.now) left.old) left.new result }
    ensures cost { steps.new + left.new ≡ steps.old + left.old }
{
    let _left = *left;
    let depth_left = deeper(depth_left)?;
    match cons.get(from) {
        None => Ok(made),
        Some(con) => {
            let next = next_to(from)?;
            let one = declare_constructor(
                alloc, pool, env, names, start, scope, family, only, con, left, steps,
            )?;
            let made = joined(made, one)?;
            declare_constructors(
                alloc, pool, env, names, start, scope, family, only, cons, next, made, left,
                depth_left, steps,
            )
        }
    }
}

fn next_to(place: usize) -> Result<usize, OutOfMemory>
    ensures { IfOk result (λ next. next ≡ place + 1) }
{
    place.checked_add(1).ok_or(OutOfMemory)
}

// Constructors with one more, and whether all allow a match into every sort.
fn joined(made: (Cons, bool), one: (Constructor, bool)) -> Result<(Cons, bool), OutOfMemory>
    ensures { IfOk result (λ d. (d.0 ≡ made.0 ++ constructor_of one.0 ∷ []) × (d.1 ≡ (made.1 && one.1))) }
{
    let (mut cons, all) = made;
    let (constructor, large) = one;
    cons.push(constructor)?;
    Ok((cons, all && large))
}

// One constructor, and whether its arguments allow a match into every sort.
#[tactic(auto, using(crate::proofs::ConstructingRules::constructor_rules, mt_pool::proofs::Region::kept))]
fn declare_constructor<L: Ledger>(
    alloc: Global,
    pool: &mut Pool,
    env: &PlainEnv,
    names: &Table,
    start: usize,
    scope: &Scope<'_>,
    family: &NewFamily<'_>,
    only: bool,
    con: &RawCon,
    left: &mut u64,
    steps: &mut Steps<L>,
) -> Result<(Constructor, bool), Halt>
    requires names { AreNamesOf names.now env.now.entries }
    requires scope { scopes.names_of scope.now ≡ names_of (hypotheses_of family.now.params.now) }
    ensures kept { Kept pool.old pool.new }
    ensures answer { Declares (λ d. (constructor_of d.0, d.1)) (constructed (environment_of env.now) start family.now.number (hypotheses_of family.now.params.now) (tree_of family.now.ty.now) family.now.sort.now only con.now.at con.now.name (written_of con.now.ty) left.old) left.new result }
    ensures cost { steps.new + left.new ≡ steps.old + left.old }
{
    let _left = *left;
    let t = type_under(alloc, env, names, scope, family.params, &con.ty)?;
    declare_typed(alloc, pool, env, start, family, only, con, &t, left, steps)
}

// A type by its names, under parameters.
fn type_under(
    alloc: Global,
    env: &PlainEnv,
    names: &Table,
    scope: &Scope<'_>,
    params: &Telescope<'_>,
    ty: &Raw,
) -> Result<Term, Halt>
    requires names { AreNamesOf names.now env.now.entries }
    requires scope { scopes.names_of scope.now ≡ names_of (hypotheses_of params.now) }
    ensures { Resolves tree_of (resolved (environment_of env.now) (names_of (hypotheses_of params.now)) (written_of ty.now)) result }
{
    let _params = params;
    resolve(alloc, env, names, scope, ty)
}

// One constructor, from its type under the parameters on.
#[tactic(auto, using(crate::proofs::ConstructingRules::typed_rules, mt_pool::proofs::Region::kept))]
fn declare_typed<L: Ledger>(
    alloc: Global,
    pool: &mut Pool,
    env: &PlainEnv,
    start: usize,
    family: &NewFamily<'_>,
    only: bool,
    con: &RawCon,
    t: &Term,
    left: &mut u64,
    steps: &mut Steps<L>,
) -> Result<(Constructor, bool), Halt>
    ensures kept { Kept pool.old pool.new }
    ensures answer { Declares (λ d. (constructor_of d.0, d.1)) (typed (environment_of env.now) start family.now.number (hypotheses_of family.now.params.now) (tree_of family.now.ty.now) family.now.sort.now only con.now.at con.now.name (tree_of t.now) left.old) left.new result }
    ensures cost { steps.new + left.new ≡ steps.old + left.old }
{
    let _left = *left;
    let closed = generalization_over(alloc, family.params, copy(alloc, t)?, MAX_DEPTH)?;
    if !is_constructor_positive(alloc, pool, family, &closed)? {
        return Err(Halt::Refused(Fault {
            refusal: Refusal::NotPositive,
            at: con.at,
        }));
    }
    finish_constructor(
        alloc, env, start, family, only, &con.name, t, closed, left, steps,
    )
}

// Whether a constructor of this closed type is positive.
#[tactic(auto, using(mt_pool::proofs::Region::kept))]
fn is_constructor_positive(
    alloc: Global,
    pool: &mut Pool,
    family: &NewFamily<'_>,
    closed: &Term,
) -> Result<bool, OutOfMemory>
    ensures kept { Kept pool.old pool.new }
    ensures positive { IfOk result (λ b. b ≡ is_positive family.now.number (length (hypotheses_of family.now.params.now)) (tree_of family.now.ty.now) (tree_of closed.now)) }
{
    let params = count(family.params, MAX_DEPTH)?;
    let ty = pool.import(alloc, family.ty)?;
    let closed = pool.import(alloc, closed)?;
    is_held_positive(alloc, pool, family.number, params, ty, closed)
}

// A constructor of this closed type, and no other.
fn only_constructor(alloc: Global, closed: TermId) -> Result<HeldCons, OutOfMemory>
    ensures { IfOk result (λ cons. cons ≡ record { name = []; ty = closed } ∷ []) }
{
    let mut cons = HeldCons::new(alloc);
    let name = Name::new(alloc);
    cons.push(HeldConstructor { name, ty: closed })?;
    Ok(cons)
}

// Whether a constructor of an inductive type is positive, by the ids of their closed types.
fn is_held_positive(
    alloc: Global,
    pool: &Pool,
    number: usize,
    params: usize,
    ty: TermId,
    closed: TermId,
) -> Result<bool, OutOfMemory>
    requires ty { ty.at < length pool.now }
    requires closed { closed.at < length pool.now }
    ensures { IfOk result (λ b. b ≡ is_positive number params (tree_at pool.now ty) (tree_at pool.now closed)) }
{
    let cons = only_constructor(alloc, closed)?;
    let held = Held::Inductive {
        name: Name::new(alloc),
        co: false,
        params,
        ty,
        cons,
        large: false,
    };
    positive(pool, number, &held)
}

// The rest of a constructor: the sorts of its arguments, and the kernel on its closed type.
#[tactic(auto, using(crate::proofs::ConstructingRules::finish_rules))]
fn finish_constructor<L: Ledger>(
    alloc: Global,
    env: &PlainEnv,
    start: usize,
    family: &NewFamily<'_>,
    only: bool,
    name: &Name,
    t: &Term,
    closed: Term,
    left: &mut u64,
    steps: &mut Steps<L>,
) -> Result<(Constructor, bool), Halt>
    requires { tree_of closed ≡ generalized (hypotheses_of family.now.params.now) (tree_of t.now) }
    ensures answer { Declares (λ d. (constructor_of d.0, d.1)) (finished (environment_of env.now) start (hypotheses_of family.now.params.now) family.now.sort.now only name.now (tree_of t.now) left.old) left.new result }
    ensures cost { steps.new + left.new ≡ steps.old + left.old }
{
    let _left = *left;
    let name = name.clone()?;
    let large = argument_sorts(
        alloc,
        env,
        start,
        family.sort,
        only,
        family.params,
        t,
        left,
        steps,
    )?;
    judge_type(alloc, env, start, &closed, left, steps)?;
    Ok((Constructor { name, ty: closed }, large))
}

// The sorts of a constructor's arguments: whether they allow a match into every sort.
#[tactic(auto, using(crate::proofs::FittingRules::sorting_rules))]
fn argument_sorts<L: Ledger>(
    alloc: Global,
    env: &PlainEnv,
    start: usize,
    sort: &Sort,
    only: bool,
    telescope: &Telescope<'_>,
    t: &Term,
    left: &mut u64,
    steps: &mut Steps<L>,
) -> Result<bool, Halt>
    ensures answer { Declares (λ b. b) (sorting (environment_of env.now) start sort.now only (hypotheses_of telescope.now) (tree_of t.now) left.old) left.new result }
    ensures cost { steps.new + left.new ≡ steps.old + left.old }
{
    let _left = *left;
    match sort {
        Sort::Typ(_) => {
            arguments_fit(
                alloc, env, start, sort, telescope, t, left, MAX_DEPTH, steps,
            )?;
            Ok(true)
        }
        Sort::Prop => {
            if only {
                do_arguments_fit(alloc, env, sort, telescope, t, left, MAX_DEPTH, steps)
            } else {
                Ok(false)
            }
        }
    }
}
