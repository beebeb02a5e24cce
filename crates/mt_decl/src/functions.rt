// Recursive and corecursive functions.
ghost use Rattle.std.specs.Prelude.{◌≡◌, ◌+◌, false, length, OnOk};
ghost use Rattle.mt_decl.specs.Declares.{Declares};
ghost use Rattle.mt_decl.specs.Declaring.{assuming};
ghost use Rattle.mt_decl.specs.Ends.{corecursive_end, recursive_end};
ghost use Rattle.mt_decl.specs.Functions.{body_within, function_body, function_end, guard_said, placed};
ghost use Rattle.mt_decl.specs.Growing.{Grows};
ghost use Rattle.mt_decl.specs.TelescopeOf.{hypotheses_of};
ghost use Rattle.mt_decl.specs.Telescopes.{names_of};
ghost use Rattle.mt_env.specs.Environments.{EntriesBelow, environment_in};
ghost use Rattle.mt_pool.specs.Region.{Kept};
ghost use Rattle.mt_resolver.specs.Resolves.{Resolves};
ghost use Rattle.mt_resolver.specs.ScopeOf as scopes;
ghost use Rattle.mt_resolver.specs.TableOf.{AreNamesOf, Extends};
ghost use Rattle.mt_term.specs.Declarations.{Recursive};
ghost use Rattle.mt_term.specs.EntryOf.{declaration_of};
ghost use Rattle.mt_term.specs.EnvironmentOf.{environment_of};
ghost use Rattle.mt_term.specs.TreeOf.{tree_of};

use crate::entering::{enter, leave};
use crate::judging::{judge_term, judge_type};
use crate::telescopes::{Telescope, abstraction_over, count, generalization_over};
use mt_env::{Env, hold};
use mt_guard::is_entry_guarded;
use mt_pool::Pool;
use mt_resolver::{Scope, Table, place_in, resolve};
use mt_term::{Entry, Fault, Halt, MAX_DEPTH, Name, OutOfMemory, PlainEnv, Refusal, Term, copy};
use mt_text::{Ledger, Steps};
use mt_unit_parser::RawFunction;
use std::alloc::Global;

/// A recursive function on the binder of a name, under its binders.
///
/// # Errors
///
/// Those of the type's names; `Unbound` at the unit's start where there is no such binder;
/// `KernelRefused`; those of the body's names; and `NotGuarded`.
#[tactic(auto, using(crate::proofs::FunctionRules::recursive_rules, mt_pool::proofs::Region::kept))]
pub fn declare_recursive<L: Ledger>(
    alloc: Global,
    pool: &mut Pool,
    held: &Env,
    env: &mut PlainEnv,
    names: &mut Table,
    start: usize,
    scope: &Scope<'_>,
    binders: &Telescope<'_>,
    function: &RawFunction,
    on: &Name,
    left: &mut u64,
    steps: &mut Steps<L>,
) -> Result<Entry, Halt>
    requires names { AreNamesOf names.old env.old.entries }
    requires held { environment_in pool.old held.now ≡ environment_of env.old }
    requires below { EntriesBelow (length pool.old) held.now.entries }
    requires scope { scopes.names_of scope.now ≡ names_of (hypotheses_of binders.now) }
    ensures kept { Kept pool.old pool.new }
    ensures env { environment_of env.new ≡ environment_of env.old }
    ensures names { names.new ≡ names.old }
    ensures answer { Declares declaration_of (recursive_end (environment_of env.old) start function.now on.now (hypotheses_of binders.now) left.old) left.new result }
    ensures cost { steps.new + left.new ≡ steps.old + left.old }
{
    let _left = *left;
    let ty = resolve(alloc, env, names, scope, &function.ty)?;
    let place = place_of(start, scope, binders, on)?;
    let closed = generalization_over(alloc, binders, ty, MAX_DEPTH)?;
    judge_type(alloc, env, start, &closed, left, steps)?;
    declare_function(
        alloc, pool, held, env, names, start, scope, binders, function, false, place, closed, left,
        steps,
    )
}

/// A corecursive function, under its binders.
///
/// # Errors
///
/// Those of the type's names; `KernelRefused`; those of the body's names; and `NotGuarded`.
#[tactic(auto, using(crate::proofs::FunctionRules::corecursive_rules, mt_pool::proofs::Region::kept))]
pub fn declare_corecursive<L: Ledger>(
    alloc: Global,
    pool: &mut Pool,
    held: &Env,
    env: &mut PlainEnv,
    names: &mut Table,
    start: usize,
    scope: &Scope<'_>,
    binders: &Telescope<'_>,
    function: &RawFunction,
    left: &mut u64,
    steps: &mut Steps<L>,
) -> Result<Entry, Halt>
    requires names { AreNamesOf names.old env.old.entries }
    requires held { environment_in pool.old held.now ≡ environment_of env.old }
    requires below { EntriesBelow (length pool.old) held.now.entries }
    requires scope { scopes.names_of scope.now ≡ names_of (hypotheses_of binders.now) }
    ensures kept { Kept pool.old pool.new }
    ensures env { environment_of env.new ≡ environment_of env.old }
    ensures names { names.new ≡ names.old }
    ensures answer { Declares declaration_of (corecursive_end (environment_of env.old) start function.now (hypotheses_of binders.now) left.old) left.new result }
    ensures cost { steps.new + left.new ≡ steps.old + left.old }
{
    let _left = *left;
    let ty = resolve(alloc, env, names, scope, &function.ty)?;
    let closed = generalization_over(alloc, binders, ty, MAX_DEPTH)?;
    judge_type(alloc, env, start, &closed, left, steps)?;
    declare_function(
        alloc, pool, held, env, names, start, scope, binders, function, true, 0, closed, left,
        steps,
    )
}

// The place of a binder, counted from the oldest.
#[tactic(auto, using(crate::proofs::FunctionRules::place_rules))]
fn place_of(
    start: usize,
    scope: &Scope<'_>,
    binders: &Telescope<'_>,
    on: &Name,
) -> Result<usize, Halt>
    requires { scopes.names_of scope.now ≡ names_of (hypotheses_of binders.now) }
    ensures { Resolves (λ r. r) (placed start (hypotheses_of binders.now) on.now) result }
{
    let many = count(binders, MAX_DEPTH)?;
    match place_in(scope, on.as_bytes())? {
        Some(i) => Ok(many.saturating_sub(i).saturating_sub(1)),
        None => Err(Halt::Refused(Fault {
            refusal: Refusal::Unbound(on.clone()?),
            at: start,
        })),
    }
}

// A function from its place and its closed type on.
#[tactic(auto, using(crate::proofs::FunctionRules::function_rules, crate::proofs::GrowingRules::back_rules, mt_pool::proofs::Region::kept))]
fn declare_function<L: Ledger>(
    alloc: Global,
    pool: &mut Pool,
    held: &Env,
    env: &mut PlainEnv,
    names: &mut Table,
    start: usize,
    scope: &Scope<'_>,
    binders: &Telescope<'_>,
    function: &RawFunction,
    co: bool,
    place: usize,
    closed: Term,
    left: &mut u64,
    steps: &mut Steps<L>,
) -> Result<Entry, Halt>
    requires names { AreNamesOf names.old env.old.entries }
    requires held { environment_in pool.old held.now ≡ environment_of env.old }
    requires below { EntriesBelow (length pool.old) held.now.entries }
    requires scope { scopes.names_of scope.now ≡ names_of (hypotheses_of binders.now) }
    ensures kept { Kept pool.old pool.new }
    ensures env { environment_of env.new ≡ environment_of env.old }
    ensures names { names.new ≡ names.old }
    ensures answer { Declares declaration_of (function_end (environment_of env.old) start function.now co place (hypotheses_of binders.now) (tree_of closed) left.old) left.new result }
    ensures cost { steps.new + left.new ≡ steps.old + left.old }
{
    let _left = *left;
    let many = count(binders, MAX_DEPTH)?;
    let name = function.name.clone()?;
    let entries = env.entries.len();
    let known = names.len();
    let body = declare_body(
        alloc, pool, held, env, names, start, scope, binders, function, co, place, &closed, left,
        steps,
    );
    leave(env, names, entries, known);
    Ok(Entry::Recursive {
        name,
        co,
        binders: many,
        place,
        ty: closed,
        body: body?,
        made: false,
    })
}

// The closed body of a function, which the environment knows from here on as an axiom.
#[tactic(auto, using(crate::proofs::FunctionRules::known_rules, mt_pool::proofs::Region::kept))]
fn declare_body<L: Ledger>(
    alloc: Global,
    pool: &mut Pool,
    held: &Env,
    env: &mut PlainEnv,
    names: &mut Table,
    start: usize,
    scope: &Scope<'_>,
    binders: &Telescope<'_>,
    function: &RawFunction,
    co: bool,
    place: usize,
    closed: &Term,
    left: &mut u64,
    steps: &mut Steps<L>,
) -> Result<Term, Halt>
    requires names { AreNamesOf names.old env.old.entries }
    requires held { environment_in pool.old held.now ≡ environment_of env.old }
    requires below { EntriesBelow (length pool.old) held.now.entries }
    requires scope { scopes.names_of scope.now ≡ names_of (hypotheses_of binders.now) }
    ensures kept { Kept pool.old pool.new }
    ensures env { Grows (environment_of env.old) (environment_of env.new) }
    ensures names { Extends names.old names.new }
    ensures answer { Declares tree_of (function_body (environment_of env.old) start function.now co place (hypotheses_of binders.now) (tree_of closed.now) left.old) left.new result }
    ensures cost { steps.new + left.new ≡ steps.old + left.old }
{
    let _left = *left;
    assume(alloc, env, names, &function.name, closed)?;
    body_within(
        alloc, pool, held, env, names, start, scope, binders, function, co, place, closed, left,
        steps,
    )
}

// The closed body of a function, after the entries that are held, where the environment knows it.
#[tactic(auto, using(crate::proofs::FunctionRules::body_rules, mt_pool::proofs::Region::kept))]
fn body_within<L: Ledger>(
    alloc: Global,
    pool: &mut Pool,
    held: &Env,
    env: &PlainEnv,
    names: &Table,
    start: usize,
    scope: &Scope<'_>,
    binders: &Telescope<'_>,
    function: &RawFunction,
    co: bool,
    place: usize,
    closed: &Term,
    left: &mut u64,
    steps: &mut Steps<L>,
) -> Result<Term, Halt>
    requires names { AreNamesOf names.now env.now.entries }
    requires below { EntriesBelow (length pool.old) held.now.entries }
    requires scope { scopes.names_of scope.now ≡ names_of (hypotheses_of binders.now) }
    ensures kept { Kept pool.old pool.new }
    ensures answer { Declares tree_of (body_within (environment_in pool.old held.now) (environment_of env.now) start function.now co place (hypotheses_of binders.now) (tree_of closed.now) left.old) left.new result }
    ensures cost { steps.new + left.new ≡ steps.old + left.old }
{
    let _left = *left;
    let body = resolve(alloc, env, names, scope, &function.body)?;
    let body = abstraction_over(alloc, binders, body, MAX_DEPTH)?;
    check_body(
        alloc, pool, held, start, binders, function, co, place, closed, &body,
    )?;
    judge_term(alloc, env, start, &body, closed, left, steps)?;
    Ok(body)
}

// The environment knows a function as an axiom of its closed type from here on.
#[tactic(auto, using(crate::proofs::GrowingRules::growing_rules))]
fn assume(
    alloc: Global,
    env: &mut PlainEnv,
    names: &mut Table,
    name: &Name,
    closed: &Term,
) -> Result<(), OutOfMemory>
    requires { AreNamesOf names.old env.old.entries }
    ensures known { OnOk result (environment_of env.new ≡ assuming (environment_of env.old) name.now (tree_of closed.now)) }
    ensures named { OnOk result (AreNamesOf names.new env.new.entries) }
    ensures env { Grows (environment_of env.old) (environment_of env.new) }
    ensures names { Extends names.old names.new }
{
    let name = name.clone()?;
    let ty = copy(alloc, closed)?;
    enter(alloc, env, names, Entry::Axiom { name, ty })
}

// Whether a function of this closed type and closed body is guarded.
#[tactic(auto, using(mt_pool::proofs::Region::kept))]
fn check_body(
    alloc: Global,
    pool: &mut Pool,
    held: &Env,
    start: usize,
    binders: &Telescope<'_>,
    function: &RawFunction,
    co: bool,
    place: usize,
    closed: &Term,
    body: &Term,
) -> Result<(), Halt>
    requires below { EntriesBelow (length pool.old) held.now.entries }
    ensures kept { Kept pool.old pool.new }
    ensures guard { Resolves (λ z. z) (guard_said (environment_in pool.old held.now) start (Recursive function.now.name co (length (hypotheses_of binders.now)) place (tree_of closed.now) (tree_of body.now) false)) result }
{
    let entry = Entry::Recursive {
        name: function.name.clone()?,
        co,
        binders: count(binders, MAX_DEPTH)?,
        place,
        ty: copy(alloc, closed)?,
        body: copy(alloc, body)?,
        made: false,
    };
    check_guard(alloc, pool, held, start, &entry)
}

// Whether a function is guarded, after the entries that the pool holds.
#[tactic(auto, using(crate::proofs::FunctionRules::guard_rules, mt_pool::proofs::Region::kept, mt_guard::proofs::Growing::growing))]
fn check_guard(
    alloc: Global,
    pool: &mut Pool,
    held: &Env,
    start: usize,
    function: &Entry,
) -> Result<(), Halt>
    requires below { EntriesBelow (length pool.old) held.now.entries }
    ensures kept { Kept pool.old pool.new }
    ensures guard { Resolves (λ z. z) (guard_said (environment_in pool.old held.now) start (declaration_of function.now)) result }
{
    let entry = hold(alloc, pool, function)?;
    if is_entry_guarded(pool, held, held.len(), &entry)? {
        return Ok(());
    }
    Err(Halt::Refused(Fault {
        refusal: Refusal::NotGuarded,
        at: start,
    }))
}
