// The binders of a unit, and what comes after them.
ghost use Rattle.std.specs.Prelude.{◌≡◌, ◌+◌, drop, length};
ghost use Rattle.mt_decl.specs.Declares.{Declares};
ghost use Rattle.mt_decl.specs.Ends.{ended, walked};
ghost use Rattle.mt_decl.specs.TelescopeOf.{hypotheses_of};
ghost use Rattle.mt_decl.specs.Telescopes.{names_of};
ghost use Rattle.mt_env.specs.Environments.{EntriesBelow, environment_in};
ghost use Rattle.mt_pool.specs.Region.{Kept};
ghost use Rattle.mt_resolver.specs.ScopeOf as scopes;
ghost use Rattle.mt_resolver.specs.TableOf.{AreNamesOf};
ghost use Rattle.mt_term.specs.EntryOf.{declaration_of};
ghost use Rattle.mt_term.specs.EnvironmentOf.{environment_of};

use crate::families::declare_type;
use crate::functions::{declare_corecursive, declare_recursive};
use crate::telescopes::Telescope;
use mt_env::Env;
use mt_pool::Pool;
use mt_resolver::{Scope, Table, resolve};
use mt_term::{Entry, Halt, Name, OutOfMemory, PlainEnv, deeper};
use mt_text::{Ledger, Steps};
use mt_unit_parser::{Groups, RawFunction, RawType};
use std::alloc::Global;

/// What comes after the binders of a unit: an inductive or coinductive type, a recursive function
/// on the binder of a name, or a corecursive function.
#[derive(Clone, Copy)]
pub enum End<'a> {
    Inductive(bool, &'a RawType),
    Recursive(&'a RawFunction, &'a Name),
    Corecursive(&'a RawFunction),
}

/// The binders of a unit from a number on, each type under the earlier ones, and then its end.
///
/// # Errors
///
/// The first fault of the binders' names, and then those of the end.
#[tactic(auto, using(crate::proofs::EndRules::walk_rules, mt_pool::proofs::Region::kept))]
pub fn with_groups<L: Ledger>(
    alloc: Global,
    pool: &mut Pool,
    held: &Env,
    env: &mut PlainEnv,
    names: &mut Table,
    start: usize,
    scope: &Scope<'_>,
    binders: &Telescope<'_>,
    groups: &Groups,
    from: usize,
    end: End<'_>,
    left: &mut u64,
    depth_left: usize,
    steps: &mut Steps<L>,
) -> Result<Entry, Halt>
    requires names { AreNamesOf names.old env.old.entries }
    requires held { environment_in pool.old held.now ≡ environment_of env.old }
    requires below { EntriesBelow (length pool.old) held.now.entries }
    requires scope { scopes.names_of scope.now ≡ names_of (hypotheses_of binders.now) }
    ensures kept { Kept pool.old pool.new }
    ensures env { environment_of env.new ≡ environment_of env.old }
    ensures names { names.new ≡ names.old }
    ensures answer { Declares declaration_of (walked (environment_of env.old) start end.entry (hypotheses_of binders.now) (drop from groups.now) left.old) left.new result }
    ensures cost { steps.new + left.new ≡ steps.old + left.old }
{
    let _left = *left;
    let depth_left = deeper(depth_left)?;
    match groups.get(from) {
        None => declare_end(
            alloc, pool, held, env, names, start, scope, binders, end, left, depth_left, steps,
        ),
        Some(group) => {
            let next = from.checked_add(1).ok_or(OutOfMemory)?;
            let ty = resolve(alloc, env, names, scope, &group.ty)?;
            let scope = Scope::More(&group.name, &*scope);
            let binders = Telescope::More(&group.name, &ty, &*binders);
            with_groups(
                alloc, pool, held, env, names, start, &scope, &binders, groups, next, end, left,
                depth_left, steps,
            )
        }
    }
}

#[tactic(auto, using(crate::proofs::EndRules::end_rules))]
fn declare_end<L: Ledger>(
    alloc: Global,
    pool: &mut Pool,
    held: &Env,
    env: &mut PlainEnv,
    names: &mut Table,
    start: usize,
    scope: &Scope<'_>,
    binders: &Telescope<'_>,
    end: End<'_>,
    left: &mut u64,
    depth_left: usize,
    steps: &mut Steps<L>,
) -> Result<Entry, Halt>
    requires names { AreNamesOf names.old env.old.entries }
    requires held { environment_in pool.old held.now ≡ environment_of env.old }
    requires below { EntriesBelow (length pool.old) held.now.entries }
    requires scope { scopes.names_of scope.now ≡ names_of (hypotheses_of binders.now) }
    ensures kept { Kept pool.old pool.new }
    ensures env { environment_of env.new ≡ environment_of env.old }
    ensures names { names.new ≡ names.old }
    ensures answer { Declares declaration_of (ended (environment_of env.old) start end.entry (hypotheses_of binders.now) left.old) left.new result }
    ensures cost { steps.new + left.new ≡ steps.old + left.old }
{
    match end {
        End::Inductive(co, ty) => declare_type(
            alloc, pool, env, names, start, scope, binders, co, ty, left, depth_left, steps,
        ),
        End::Recursive(function, on) => declare_recursive(
            alloc, pool, held, env, names, start, scope, binders, function, on, left, steps,
        ),
        End::Corecursive(function) => declare_corecursive(
            alloc, pool, held, env, names, start, scope, binders, function, left, steps,
        ),
    }
}
