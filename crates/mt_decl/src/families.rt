// Inductive and coinductive types.
ghost use Rattle.std.specs.Prelude.{◌≡◌, ◌+◌, [], true, IfOk};
ghost use Rattle.mt_decl.specs.Declares.{Declares};
ghost use Rattle.mt_decl.specs.Ends.{closed_end, family_end, family_known, type_end};
ghost use Rattle.mt_decl.specs.Growing.{Grows};
ghost use Rattle.mt_decl.specs.TelescopeOf.{hypotheses_of};
ghost use Rattle.mt_decl.specs.Telescopes.{names_of};
ghost use Rattle.mt_pool.specs.Region.{Kept};
ghost use Rattle.mt_resolver.specs.ScopeOf as scopes;
ghost use Rattle.mt_resolver.specs.TableOf.{AreNamesOf, Extends};
ghost use Rattle.mt_term.specs.Declarations.{Inductive};
ghost use Rattle.mt_term.specs.EntryOf.{declaration_of};
ghost use Rattle.mt_term.specs.EnvironmentOf.{environment_of};
ghost use Rattle.mt_term.specs.TreeOf.{tree_of};

use crate::constructing::{NewFamily, declare_constructors};
use crate::entering::{enter, leave};
use crate::judging::judge_type;
use crate::telescopes::{Telescope, count, generalization_over, result_sort};
use mt_pool::Pool;
use mt_resolver::{Scope, Table, resolve};
use mt_term::{
    Cons, Entry, Fault, Halt, MAX_DEPTH, OutOfMemory, PlainEnv, Refusal, Sort, Term, copy,
};
use mt_text::{Ledger, Steps};
use mt_unit_parser::RawType;
use std::alloc::Global;

/// An inductive or coinductive type, under its parameters.
///
/// # Errors
///
/// Those of the type's names; `NotASort` at the unit's start; `KernelRefused`; and those of the
/// constructors.
#[tactic(auto, using(crate::proofs::EndRules::type_rules, mt_pool::proofs::Region::kept))]
pub fn declare_type<L: Ledger>(
    alloc: Global,
    pool: &mut Pool,
    env: &mut PlainEnv,
    names: &mut Table,
    start: usize,
    scope: &Scope<'_>,
    params: &Telescope<'_>,
    co: bool,
    ty: &RawType,
    left: &mut u64,
    depth_left: usize,
    steps: &mut Steps<L>,
) -> Result<Entry, Halt>
    requires names { AreNamesOf names.old env.old.entries }
    requires scope { scopes.names_of scope.now ≡ names_of (hypotheses_of params.now) }
    ensures kept { Kept pool.old pool.new }
    ensures env { environment_of env.new ≡ environment_of env.old }
    ensures names { names.new ≡ names.old }
    ensures answer { Declares declaration_of (type_end (environment_of env.old) start co ty.now (hypotheses_of params.now) left.old) left.new result }
    ensures cost { steps.new + left.new ≡ steps.old + left.old }
{
    let _left = *left;
    let arity = resolve(alloc, env, names, scope, &ty.arity)?;
    let sort = match result_sort(&arity, MAX_DEPTH)? {
        Some(sort) => sort,
        None => {
            return Err(Halt::Refused(Fault {
                refusal: Refusal::NotASort,
                at: start,
            }));
        }
    };
    let closed = generalization_over(alloc, params, arity, MAX_DEPTH)?;
    declare_closed(
        alloc, pool, env, names, start, scope, params, co, ty, closed, &sort, left, depth_left,
        steps,
    )
}

// A type from its closed type and its sort on, which the kernel checks first.
#[tactic(auto, using(crate::proofs::EndRules::closed_rules, mt_pool::proofs::Region::kept))]
fn declare_closed<L: Ledger>(
    alloc: Global,
    pool: &mut Pool,
    env: &mut PlainEnv,
    names: &mut Table,
    start: usize,
    scope: &Scope<'_>,
    params: &Telescope<'_>,
    co: bool,
    ty: &RawType,
    closed: Term,
    sort: &Sort,
    left: &mut u64,
    depth_left: usize,
    steps: &mut Steps<L>,
) -> Result<Entry, Halt>
    requires names { AreNamesOf names.old env.old.entries }
    requires scope { scopes.names_of scope.now ≡ names_of (hypotheses_of params.now) }
    ensures kept { Kept pool.old pool.new }
    ensures env { environment_of env.new ≡ environment_of env.old }
    ensures names { names.new ≡ names.old }
    ensures answer { Declares declaration_of (closed_end (environment_of env.old) start co ty.now (hypotheses_of params.now) (tree_of closed) sort.now left.old) left.new result }
    ensures cost { steps.new + left.new ≡ steps.old + left.old }
{
    let _left = *left;
    judge_type(alloc, env, start, &closed, left, steps)?;
    declare_family(
        alloc, pool, env, names, start, scope, params, co, ty, closed, sort, left, depth_left,
        steps,
    )
}

// A type from its closed type and its sort on.
#[tactic(auto, using(crate::proofs::EndRules::family_rules, mt_pool::proofs::Region::kept))]
fn declare_family<L: Ledger>(
    alloc: Global,
    pool: &mut Pool,
    env: &mut PlainEnv,
    names: &mut Table,
    start: usize,
    scope: &Scope<'_>,
    params: &Telescope<'_>,
    co: bool,
    ty: &RawType,
    closed: Term,
    sort: &Sort,
    left: &mut u64,
    depth_left: usize,
    steps: &mut Steps<L>,
) -> Result<Entry, Halt>
    requires names { AreNamesOf names.old env.old.entries }
    requires scope { scopes.names_of scope.now ≡ names_of (hypotheses_of params.now) }
    ensures kept { Kept pool.old pool.new }
    ensures env { environment_of env.new ≡ environment_of env.old }
    ensures names { names.new ≡ names.old }
    ensures answer { Declares declaration_of (family_end (environment_of env.old) start co ty.now (hypotheses_of params.now) (tree_of closed) sort.now left.old) left.new result }
    ensures cost { steps.new + left.new ≡ steps.old + left.old }
{
    let _left = *left;
    let many = count(params, MAX_DEPTH)?;
    let name = ty.name.clone()?;
    let family = NewFamily {
        number: env.entries.len(),
        params,
        ty: &closed,
        sort,
    };
    let (cons, large) = declare_inside(
        alloc, pool, env, names, start, scope, &family, many, co, ty, left, depth_left, steps,
    )?;
    Ok(Entry::Inductive {
        name,
        co,
        params: many,
        ty: closed,
        cons,
        large,
    })
}

// The constructors of a type, which the environment knows during the call.
#[tactic(auto, using(crate::proofs::GrowingRules::back_rules))]
fn declare_inside<L: Ledger>(
    alloc: Global,
    pool: &mut Pool,
    env: &mut PlainEnv,
    names: &mut Table,
    start: usize,
    scope: &Scope<'_>,
    family: &NewFamily<'_>,
    many: usize,
    co: bool,
    ty: &RawType,
    left: &mut u64,
    depth_left: usize,
    steps: &mut Steps<L>,
) -> Result<(Cons, bool), Halt>
    requires names { AreNamesOf names.old env.old.entries }
    requires scope { scopes.names_of scope.now ≡ names_of (hypotheses_of family.now.params.now) }
    ensures kept { Kept pool.old pool.new }
    ensures env { environment_of env.new ≡ environment_of env.old }
    ensures names { names.new ≡ names.old }
    ensures answer { Declares (λ d. d) (family_known (environment_of env.old) start family.now.number (hypotheses_of family.now.params.now) (tree_of family.now.ty.now) family.now.sort.now many co ty.now left.old) left.new result }
    ensures cost { steps.new + left.new ≡ steps.old + left.old }
{
    let entries = env.entries.len();
    let known = names.len();
    let declared = declare_known(
        alloc, pool, env, names, start, scope, family, many, co, ty, left, depth_left, steps,
    );
    leave(env, names, entries, known);
    declared
}

// The constructors of a type, which the environment knows from here on.
#[tactic(auto, using(crate::proofs::EndRules::known_rules, crate::proofs::GrowingRules::growing_rules, mt_pool::proofs::Region::kept))]
fn declare_known<L: Ledger>(
    alloc: Global,
    pool: &mut Pool,
    env: &mut PlainEnv,
    names: &mut Table,
    start: usize,
    scope: &Scope<'_>,
    family: &NewFamily<'_>,
    many: usize,
    co: bool,
    ty: &RawType,
    left: &mut u64,
    depth_left: usize,
    steps: &mut Steps<L>,
) -> Result<(Cons, bool), Halt>
    requires names { AreNamesOf names.old env.old.entries }
    requires scope { scopes.names_of scope.now ≡ names_of (hypotheses_of family.now.params.now) }
    ensures kept { Kept pool.old pool.new }
    ensures env { Grows (environment_of env.old) (environment_of env.new) }
    ensures names { Extends names.old names.new }
    ensures answer { Declares (λ d. d) (family_known (environment_of env.old) start family.now.number (hypotheses_of family.now.params.now) (tree_of family.now.ty.now) family.now.sort.now many co ty.now left.old) left.new result }
    ensures cost { steps.new + left.new ≡ steps.old + left.old }
{
    let _left = *left;
    let entry = known_type(alloc, family, many, co, ty)?;
    enter(alloc, env, names, entry)?;
    let only = ty.cons.len() == 1;
    let none = (Cons::new(alloc), true);
    declare_constructors(
        alloc, pool, env, names, start, scope, family, only, &ty.cons, 0, none, left, depth_left,
        steps,
    )
}

// The type as an entry, without constructors.
fn known_type(
    alloc: Global,
    family: &NewFamily<'_>,
    params: usize,
    co: bool,
    ty: &RawType,
) -> Result<Entry, OutOfMemory>
    ensures { IfOk result (λ e. declaration_of e ≡ Inductive ty.now.name co params (tree_of family.now.ty.now) [] true) }
{
    let name = ty.name.clone()?;
    let ty = copy(alloc, family.ty)?;
    Ok(Entry::Inductive {
        name,
        co,
        params,
        ty,
        cons: Cons::new(alloc),
        large: true,
    })
}
