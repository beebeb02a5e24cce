// Contexts of the terms whose types are inferred.
ghost use Rattle.std.specs.Prelude.{◌≡◌, ◌+◌, ◌<◌, ℕ, length, List, IfOk, reverse, slice_get};
ghost use Rattle.mt_infer.specs.Scopes.{held_type, scope_in, ScopeBelow};
ghost use Rattle.mt_layers.specs.Environments.{found_in, FoundBelow};
ghost use Rattle.mt_pool.specs.Region.{Kept};
ghost use Rattle.mt_rules.specs.Inference.{type_at};
ghost use Rattle.mt_term.specs.Trees.{Tree};

use mt_pool::{Pool, TermId};
use mt_term::{Hyp, Hyps, Name, OutOfMemory};
use std::alloc::{AllocFailed, Global};
use std::clone::Clone;

/// Names with their types, the innermost first.
#[derive(Clone, Copy)]
pub enum Scope<'a> {
    Empty,
    More(&'a Name, TermId, &'a Scope<'a>),
}

/// The type of a variable, in its own context.
fn found(scope: &Scope<'_>, i: usize) -> Option<TermId>
    ensures tree { (p : List Tree) → found_in p result ≡ held_type (slice_get (scope_in p scope.now) i) }
    ensures held { (n : ℕ) → ScopeBelow n scope.now → FoundBelow n result }
{
    match scope {
        Scope::Empty => None,
        Scope::More(_, ty, rest) => {
            if i == 0 {
                Some(*ty)
            } else {
                found(rest, i - 1)
            }
        }
    }
}

/// The type of a variable, in the whole context.
#[tactic(auto, using(crate::proofs::Held::infer_held, crate::proofs::Contexts::type_rules))]
pub fn type_at(
    pool: &mut Pool,
    alloc: Global,
    scope: &Scope<'_>,
    i: usize,
) -> Result<Option<TermId>, OutOfMemory>
    requires { ScopeBelow (length pool.old) scope.now }
    ensures kept { Kept pool.old pool.new }
    ensures held { IfOk result (λ o. FoundBelow (length pool.new) o) }
    ensures tree { IfOk result (λ o. found_in pool.new o ≡ type_at (scope_in pool.old scope.now) i) }
{
    let by = i.checked_add(1).ok_or(OutOfMemory)?;
    match found(scope, i) {
        None => Ok(None),
        Some(ty) => {
            let t = pool.lift(alloc, ty, by, 0)?;
            Ok(Some(t))
        }
    }
}

/// The hypotheses of a context, as a refusal shows them.
pub fn hypotheses(pool: &Pool, alloc: Global, scope: &Scope<'_>) -> Result<Hyps, OutOfMemory>
    requires { ScopeBelow (length pool.now) scope.now }
    ensures { IfOk result (λ hyps. reverse hyps ≡ scope_in pool.now scope.now) }
{
    match scope {
        Scope::Empty => Ok(Hyps::new(alloc)),
        Scope::More(name, ty, rest) => {
            let mut hyps = hypotheses(pool, alloc, rest)?;
            hyps.push(Hyp {
                name: (*name).clone()?,
                ty: pool.export(alloc, *ty)?,
            })?;
            Ok(hyps)
        }
    }
}
