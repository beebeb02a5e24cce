// The types of variables, sorts and entries.
ghost use Rattle.std.specs.Prelude.{◌≡◌, ◌<◌, ◌+◌, [], length, IfOk};
ghost use Rattle.mt_infer.specs.Scopes.{scope_in, ScopeBelow};
ghost use Rattle.mt_layers.specs.Environments.{environment_in, EnvBelow};
ghost use Rattle.mt_rules.specs.Answers.{Answers};
ghost use Rattle.mt_pool.specs.Region.{tree_at, Kept};
ghost use Rattle.mt_store.specs.Held.{store_in, StoreBelow};
ghost use Rattle.mt_rules.specs.Inference.{infer};
ghost use Rattle.mt_term.specs.Trees.{Con, Const, Ind, Sort as SortTree, Var};

use crate::entries::{constant_type, inductive_type};
use crate::scopes::{Scope, type_at};
use crate::sorts::sort_above;
use mt_layers::{Work, constructor_type};
use mt_pool::{Node, TermId};
use mt_term::{Name, Refusal, Sort, Stop};
use mt_text::{Ledger, Steps};
use std::alloc::Global;

/// The type of a variable.
#[tactic(auto, using(crate::proofs::Held::infer_held, crate::proofs::Inferring::leaf_rules))]
pub fn infer_variable<L: Ledger>(
    alloc: Global,
    w: &mut Work<'_>,
    scope: &Scope<'_>,
    at: usize,
    steps: &mut Steps<L>,
) -> Result<TermId, Stop>
    requires scope_held { ScopeBelow (length w.old.pool.now) scope.now }
    requires env_held { EnvBelow (length w.old.pool.now) w.old.env.now }
    requires store_held { StoreBelow (length w.old.pool.now) w.old.store.now }
    ensures same_pool { w.new.pool.ghost_name ≡ w.old.pool.ghost_name }
    ensures env { w.new.env ≡ w.old.env }
    ensures store { w.new.store ≡ w.old.store }
    ensures kept { Kept w.old.pool.now w.new.pool.now }
    ensures outcome { Answers (tree_at w.new.pool.now) (infer (environment_in w.old.pool.now w.old.env.now) (store_in w.old.pool.now w.old.store.now) (scope_in w.old.pool.now scope.now) (Var at) w.old.left) w.new.left result }
    ensures result_held { IfOk result (λ u. u.at < length w.new.pool.now) }
    ensures cost { steps.new + w.new.left ≡ steps.old + w.old.left }
{
    w.charge(steps)?;
    match type_at(w.pool, alloc, scope, at)? {
        Some(ty) => Ok(ty),
        None => Err(Stop::Refused(Refusal::Unbound(Name::new(alloc)))),
    }
}

/// The type of a sort.
#[tactic(auto, using(crate::proofs::Held::infer_held, crate::proofs::Inferring::leaf_rules))]
pub fn infer_sort<L: Ledger>(
    alloc: Global,
    w: &mut Work<'_>,
    scope: &Scope<'_>,
    s: Sort,
    steps: &mut Steps<L>,
) -> Result<TermId, Stop>
    requires scope_held { ScopeBelow (length w.old.pool.now) scope.now }
    requires env_held { EnvBelow (length w.old.pool.now) w.old.env.now }
    requires store_held { StoreBelow (length w.old.pool.now) w.old.store.now }
    ensures same_pool { w.new.pool.ghost_name ≡ w.old.pool.ghost_name }
    ensures env { w.new.env ≡ w.old.env }
    ensures store { w.new.store ≡ w.old.store }
    ensures kept { Kept w.old.pool.now w.new.pool.now }
    ensures outcome { Answers (tree_at w.new.pool.now) (infer (environment_in w.old.pool.now w.old.env.now) (store_in w.old.pool.now w.old.store.now) (scope_in w.old.pool.now scope.now) (SortTree s) w.old.left) w.new.left result }
    ensures result_held { IfOk result (λ u. u.at < length w.new.pool.now) }
    ensures cost { steps.new + w.new.left ≡ steps.old + w.old.left }
{
    w.charge(steps)?;
    match sort_above(alloc, &s)? {
        Some(above) => Ok(w.pool.put(Node::Sort(above))?),
        None => Err(Stop::Refused(Refusal::NotASort)),
    }
}

/// The type of a constant.
#[tactic(auto, using(crate::proofs::Held::infer_held, crate::proofs::Inferring::leaf_rules))]
pub fn infer_constant<L: Ledger>(
    alloc: Global,
    w: &mut Work<'_>,
    scope: &Scope<'_>,
    c: usize,
    steps: &mut Steps<L>,
) -> Result<TermId, Stop>
    requires scope_held { ScopeBelow (length w.old.pool.now) scope.now }
    requires env_held { EnvBelow (length w.old.pool.now) w.old.env.now }
    requires store_held { StoreBelow (length w.old.pool.now) w.old.store.now }
    ensures same_pool { w.new.pool.ghost_name ≡ w.old.pool.ghost_name }
    ensures env { w.new.env ≡ w.old.env }
    ensures store { w.new.store ≡ w.old.store }
    ensures kept { Kept w.old.pool.now w.new.pool.now }
    ensures outcome { Answers (tree_at w.new.pool.now) (infer (environment_in w.old.pool.now w.old.env.now) (store_in w.old.pool.now w.old.store.now) (scope_in w.old.pool.now scope.now) (Const c) w.old.left) w.new.left result }
    ensures result_held { IfOk result (λ u. u.at < length w.new.pool.now) }
    ensures cost { steps.new + w.new.left ≡ steps.old + w.old.left }
{
    w.charge(steps)?;
    match constant_type(w.env, c) {
        Some(ty) => Ok(ty),
        None => Err(Stop::Refused(Refusal::Unbound(Name::new(alloc)))),
    }
}

/// The type of an inductive type.
#[tactic(auto, using(crate::proofs::Held::infer_held, crate::proofs::Inferring::leaf_rules))]
pub fn infer_inductive<L: Ledger>(
    alloc: Global,
    w: &mut Work<'_>,
    scope: &Scope<'_>,
    e: usize,
    steps: &mut Steps<L>,
) -> Result<TermId, Stop>
    requires scope_held { ScopeBelow (length w.old.pool.now) scope.now }
    requires env_held { EnvBelow (length w.old.pool.now) w.old.env.now }
    requires store_held { StoreBelow (length w.old.pool.now) w.old.store.now }
    ensures same_pool { w.new.pool.ghost_name ≡ w.old.pool.ghost_name }
    ensures env { w.new.env ≡ w.old.env }
    ensures store { w.new.store ≡ w.old.store }
    ensures kept { Kept w.old.pool.now w.new.pool.now }
    ensures outcome { Answers (tree_at w.new.pool.now) (infer (environment_in w.old.pool.now w.old.env.now) (store_in w.old.pool.now w.old.store.now) (scope_in w.old.pool.now scope.now) (Ind e) w.old.left) w.new.left result }
    ensures result_held { IfOk result (λ u. u.at < length w.new.pool.now) }
    ensures cost { steps.new + w.new.left ≡ steps.old + w.old.left }
{
    w.charge(steps)?;
    match inductive_type(w.env, e) {
        Some(ty) => Ok(ty),
        None => Err(Stop::Refused(Refusal::Unbound(Name::new(alloc)))),
    }
}

/// The type of a constructor.
#[tactic(auto, using(crate::proofs::Held::infer_held, crate::proofs::Inferring::leaf_rules))]
pub fn infer_constructor<L: Ledger>(
    alloc: Global,
    w: &mut Work<'_>,
    scope: &Scope<'_>,
    e: usize,
    k: usize,
    steps: &mut Steps<L>,
) -> Result<TermId, Stop>
    requires scope_held { ScopeBelow (length w.old.pool.now) scope.now }
    requires env_held { EnvBelow (length w.old.pool.now) w.old.env.now }
    requires store_held { StoreBelow (length w.old.pool.now) w.old.store.now }
    ensures same_pool { w.new.pool.ghost_name ≡ w.old.pool.ghost_name }
    ensures env { w.new.env ≡ w.old.env }
    ensures store { w.new.store ≡ w.old.store }
    ensures kept { Kept w.old.pool.now w.new.pool.now }
    ensures outcome { Answers (tree_at w.new.pool.now) (infer (environment_in w.old.pool.now w.old.env.now) (store_in w.old.pool.now w.old.store.now) (scope_in w.old.pool.now scope.now) (Con e k) w.old.left) w.new.left result }
    ensures result_held { IfOk result (λ u. u.at < length w.new.pool.now) }
    ensures cost { steps.new + w.new.left ≡ steps.old + w.old.left }
{
    w.charge(steps)?;
    match constructor_type(w.env, e, k) {
        Some(ty) => Ok(ty),
        None => Err(Stop::Refused(Refusal::Unbound(Name::new(alloc)))),
    }
}
