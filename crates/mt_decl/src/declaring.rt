// The entry that a unit declares.
ghost use Rattle.std.specs.Prelude.{◌≡◌, ◌+◌, [], length};
ghost use Rattle.mt_decl.specs.Declares.{Declares, DeclaresFrom};
ghost use Rattle.mt_decl.specs.Declaring.{declared_entry};
ghost use Rattle.mt_decl.specs.Fronts.{opening};
ghost use Rattle.mt_decl.specs.Units.{axiom_unit, body_judged, definition_unit, functions_unit, on_unit, types_unit, unit_declared};
ghost use Rattle.mt_env.specs.Environments.{EntriesBelow, environment_in};
ghost use Rattle.mt_pool.specs.Region.{Kept};
ghost use Rattle.mt_resolver.specs.Resolution.{resolved};
ghost use Rattle.mt_resolver.specs.Resolves.{Resolves};
ghost use Rattle.mt_resolver.specs.TableOf.{AreNamesOf};
ghost use Rattle.mt_term.specs.declared.refusals.Halt.TheVariants as halt;
ghost use Rattle.mt_term.specs.declared.refusals.Refusal.TheVariants as refusal;
ghost use Rattle.mt_term.specs.EntryOf.{declaration_of};
ghost use Rattle.mt_term.specs.EnvironmentOf.{environment_of};
ghost use Rattle.mt_term.specs.TreeOf.{tree_of};
ghost use Rattle.mt_term_parser.specs.WrittenOf.{written_of};
ghost use Rattle.mt_unit_parser.specs.UnitOf.{kind_of};

use crate::freshness::{check_name, check_names};
use crate::groups::{End, with_groups};
use crate::judging::{judge_term, judge_type};
use crate::telescopes::Telescope;
use mt_env::Env;
use mt_pool::Pool;
use mt_resolver::{Scope, Table, resolve};
use mt_term::{Entry, Fault, Halt, MAX_DEPTH, Name, PlainEnv, Refusal, Term};
use mt_term_parser::Raw;
use mt_text::{Ledger, Steps};
use mt_unit_parser::{Groups, RawFunction, RawFunctions, RawType, RawTypes, Unit, UnitKind};
use std::alloc::Global;

/// The entry that an axiom, a definition, an inductive, coinductive, recursive or corecursive unit
/// declares, each term taken by its names and checked by the kernel, under an allowance. Each
/// charge is counted.
///
/// `env` is the environment as trees, `names` its table of names, and `held` the same environment
/// in the pool. What the unit's parts take as known stands in `env` and `names` during the call
/// alone.
///
/// # Errors
///
/// In the written order: `Taken`, `Unbound`, `NotASort`, `NotPositive`, `NotGuarded`,
/// `BadElimination`, `KernelRefused`; `NotHere` for a unit that declares no entry; `Spent` where
/// the allowance does not suffice.
#[tactic(auto, using(crate::proofs::UnitRules::plain_rules))]
pub fn declare_plain<L: Ledger>(
    alloc: Global,
    pool: &mut Pool,
    held: &Env,
    env: &mut PlainEnv,
    names: &mut Table,
    unit: &Unit,
    allowance: u64,
    steps: &mut Steps<L>,
) -> Result<Entry, Halt>
    requires names { AreNamesOf names.old env.old.entries }
    requires held { environment_in pool.old held.now ≡ environment_of env.old }
    requires below { EntriesBelow (length pool.old) held.now.entries }
    ensures kept { Kept pool.old pool.new }
    ensures env { environment_of env.new ≡ environment_of env.old }
    ensures names { names.new ≡ names.old }
    ensures answer { DeclaresFrom declaration_of (declared_entry (environment_of env.old) unit.now.span.start (kind_of unit.now.kind) allowance) allowance steps.old steps.new result }
{
    let mut left = allowance;
    declare_unit(
        alloc,
        pool,
        held,
        env,
        names,
        unit.span.start,
        &unit.kind,
        &mut left,
        steps,
    )
}

// The same, with what is left of an allowance.
#[tactic(auto, using(crate::proofs::UnitRules::unit_rules, mt_pool::proofs::Region::kept))]
fn declare_unit<L: Ledger>(
    alloc: Global,
    pool: &mut Pool,
    held: &Env,
    env: &mut PlainEnv,
    names: &mut Table,
    start: usize,
    kind: &UnitKind,
    left: &mut u64,
    steps: &mut Steps<L>,
) -> Result<Entry, Halt>
    requires names { AreNamesOf names.old env.old.entries }
    requires held { environment_in pool.old held.now ≡ environment_of env.old }
    requires below { EntriesBelow (length pool.old) held.now.entries }
    ensures kept { Kept pool.old pool.new }
    ensures env { environment_of env.new ≡ environment_of env.old }
    ensures names { names.new ≡ names.old }
    ensures answer { Declares declaration_of (unit_declared (environment_of env.old) start (kind_of kind.now) left.old) left.new result }
    ensures cost { steps.new + left.new ≡ steps.old + left.old }
{
    match kind {
        UnitKind::Axiom(name, ty) => {
            declare_axiom(alloc, env, names, start, name, ty, left, steps)
        }
        UnitKind::Definition(name, Some(ty), body) => {
            declare_definition(alloc, env, names, start, name, ty, body, left, steps)
        }
        UnitKind::Inductive { co, groups, types } => declare_types(
            alloc, pool, held, env, names, start, *co, groups, types, left, steps,
        ),
        UnitKind::Recursive { co, functions } => declare_functions(
            alloc, pool, held, env, names, start, *co, functions, left, steps,
        ),
        UnitKind::Constraint(_, _)
        | UnitKind::Definition(_, None, _)
        | UnitKind::Hint { .. }
        | UnitKind::Coercion(_)
        | UnitKind::Theorem(_, _)
        | UnitKind::Qed
        | UnitKind::Step(_)
        | UnitKind::Block(_) => Err(not_here(start)),
    }
}

fn not_here(start: usize) -> Halt
    ensures { result ≡ halt.Refused (record { refusal = refusal.NotHere; at = start }) }
{
    Halt::Refused(Fault {
        refusal: Refusal::NotHere,
        at: start,
    })
}

// A new name and a closed type.
#[tactic(auto, unfolding(crate::specs::Fronts::opening))]
fn open_unit(
    alloc: Global,
    env: &PlainEnv,
    names: &Table,
    start: usize,
    name: &Name,
    ty: &Raw,
) -> Result<Term, Halt>
    requires names { AreNamesOf names.now env.now.entries }
    ensures { Resolves tree_of (opening (environment_of env.now) start name.now (written_of ty.now)) result }
{
    check_name(env, names, start, &Scope::Empty, name)?;
    closed_term(alloc, env, names, ty)
}

// A closed term by its names.
fn closed_term(alloc: Global, env: &PlainEnv, names: &Table, raw: &Raw) -> Result<Term, Halt>
    requires { AreNamesOf names.now env.now.entries }
    ensures { Resolves tree_of (resolved (environment_of env.now) [] (written_of raw.now)) result }
{
    resolve(alloc, env, names, &Scope::Empty, raw)
}

#[tactic(auto, using(crate::proofs::UnitRules::axiom_rules))]
fn declare_axiom<L: Ledger>(
    alloc: Global,
    env: &PlainEnv,
    names: &Table,
    start: usize,
    name: &Name,
    ty: &Raw,
    left: &mut u64,
    steps: &mut Steps<L>,
) -> Result<Entry, Halt>
    requires names { AreNamesOf names.now env.now.entries }
    ensures answer { Declares declaration_of (axiom_unit (environment_of env.now) start name.now (written_of ty.now) left.old) left.new result }
    ensures cost { steps.new + left.new ≡ steps.old + left.old }
{
    let _left = *left;
    let ty = open_unit(alloc, env, names, start, name, ty)?;
    let name = name.clone()?;
    judge_type(alloc, env, start, &ty, left, steps)?;
    Ok(Entry::Axiom { name, ty })
}

#[tactic(auto, using(crate::proofs::UnitRules::definition_rules))]
fn declare_definition<L: Ledger>(
    alloc: Global,
    env: &PlainEnv,
    names: &Table,
    start: usize,
    name: &Name,
    ty: &Raw,
    body: &Raw,
    left: &mut u64,
    steps: &mut Steps<L>,
) -> Result<Entry, Halt>
    requires names { AreNamesOf names.now env.now.entries }
    ensures answer { Declares declaration_of (definition_unit (environment_of env.now) start name.now (written_of ty.now) (written_of body.now) left.old) left.new result }
    ensures cost { steps.new + left.new ≡ steps.old + left.old }
{
    let _left = *left;
    let ty = open_unit(alloc, env, names, start, name, ty)?;
    let name = name.clone()?;
    let body = judge_body(alloc, env, names, start, &ty, body, left, steps)?;
    Ok(Entry::Definition { name, ty, body })
}

// A closed term of this closed type.
#[tactic(auto, using(crate::proofs::UnitRules::body_rules))]
fn judge_body<L: Ledger>(
    alloc: Global,
    env: &PlainEnv,
    names: &Table,
    start: usize,
    ty: &Term,
    body: &Raw,
    left: &mut u64,
    steps: &mut Steps<L>,
) -> Result<Term, Halt>
    requires names { AreNamesOf names.now env.now.entries }
    ensures answer { Declares tree_of (body_judged (environment_of env.now) start (tree_of ty.now) (written_of body.now) left.old) left.new result }
    ensures cost { steps.new + left.new ≡ steps.old + left.old }
{
    let _left = *left;
    let body = closed_term(alloc, env, names, body)?;
    judge_term(alloc, env, start, &body, ty, left, steps)?;
    Ok(body)
}

// One inductive or coinductive type.
#[tactic(auto, using(crate::proofs::UnitRules::types_rules, mt_pool::proofs::Region::kept))]
fn declare_types<L: Ledger>(
    alloc: Global,
    pool: &mut Pool,
    held: &Env,
    env: &mut PlainEnv,
    names: &mut Table,
    start: usize,
    co: bool,
    groups: &Groups,
    types: &RawTypes,
    left: &mut u64,
    steps: &mut Steps<L>,
) -> Result<Entry, Halt>
    requires names { AreNamesOf names.old env.old.entries }
    requires held { environment_in pool.old held.now ≡ environment_of env.old }
    requires below { EntriesBelow (length pool.old) held.now.entries }
    ensures kept { Kept pool.old pool.new }
    ensures env { environment_of env.new ≡ environment_of env.old }
    ensures names { names.new ≡ names.old }
    ensures answer { Declares declaration_of (types_unit (environment_of env.old) start co groups.now types.now left.old) left.new result }
    ensures cost { steps.new + left.new ≡ steps.old + left.old }
{
    let _left = *left;
    if types.len() != 1 {
        return Err(not_here(start));
    }
    match types.get(0) {
        None => Err(Halt::OutOfMemory),
        Some(ty) => {
            check_names(env, names, start, &ty.name, &ty.cons)?;
            let end = End::Inductive(co, ty);
            with_groups(
                alloc,
                pool,
                held,
                env,
                names,
                start,
                &Scope::Empty,
                &Telescope::Empty,
                groups,
                0,
                end,
                left,
                MAX_DEPTH,
                steps,
            )
        }
    }
}

// One recursive or corecursive function.
#[tactic(auto, using(crate::proofs::UnitRules::functions_rules, mt_pool::proofs::Region::kept))]
fn declare_functions<L: Ledger>(
    alloc: Global,
    pool: &mut Pool,
    held: &Env,
    env: &mut PlainEnv,
    names: &mut Table,
    start: usize,
    co: bool,
    functions: &RawFunctions,
    left: &mut u64,
    steps: &mut Steps<L>,
) -> Result<Entry, Halt>
    requires names { AreNamesOf names.old env.old.entries }
    requires held { environment_in pool.old held.now ≡ environment_of env.old }
    requires below { EntriesBelow (length pool.old) held.now.entries }
    ensures kept { Kept pool.old pool.new }
    ensures env { environment_of env.new ≡ environment_of env.old }
    ensures names { names.new ≡ names.old }
    ensures answer { Declares declaration_of (functions_unit (environment_of env.old) start co functions.now left.old) left.new result }
    ensures cost { steps.new + left.new ≡ steps.old + left.old }
{
    let _left = *left;
    if functions.len() != 1 {
        return Err(not_here(start));
    }
    match functions.get(0) {
        None => Err(Halt::OutOfMemory),
        Some(function) => match (co, &function.on) {
            (false, Some(on)) => {
                let end = End::Recursive(function, on);
                declare_function(
                    alloc, pool, held, env, names, start, function, end, left, steps,
                )
            }
            (true, None) => {
                let end = End::Corecursive(function);
                declare_function(
                    alloc, pool, held, env, names, start, function, end, left, steps,
                )
            }
            (false, None) | (true, Some(_)) => Err(not_here(start)),
        },
    }
}

// A function of a new name, from its binders on.
#[tactic(auto, using(crate::proofs::UnitRules::on_rules, mt_pool::proofs::Region::kept))]
fn declare_function<L: Ledger>(
    alloc: Global,
    pool: &mut Pool,
    held: &Env,
    env: &mut PlainEnv,
    names: &mut Table,
    start: usize,
    function: &RawFunction,
    end: End<'_>,
    left: &mut u64,
    steps: &mut Steps<L>,
) -> Result<Entry, Halt>
    requires names { AreNamesOf names.old env.old.entries }
    requires held { environment_in pool.old held.now ≡ environment_of env.old }
    requires below { EntriesBelow (length pool.old) held.now.entries }
    ensures kept { Kept pool.old pool.new }
    ensures env { environment_of env.new ≡ environment_of env.old }
    ensures names { names.new ≡ names.old }
    ensures answer { Declares declaration_of (on_unit (environment_of env.old) start function.now end.entry left.old) left.new result }
    ensures cost { steps.new + left.new ≡ steps.old + left.old }
{
    let _left = *left;
    check_name(env, names, start, &Scope::Empty, &function.name)?;
    with_groups(
        alloc,
        pool,
        held,
        env,
        names,
        start,
        &Scope::Empty,
        &Telescope::Empty,
        &function.groups,
        0,
        end,
        left,
        MAX_DEPTH,
        steps,
    )
}
