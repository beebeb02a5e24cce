// Which sort a motive answers in, by its type.
ghost use Rattle.std.specs.Prelude.{◌≡◌, ◌<◌, ◌+◌, length};
ghost use Rattle.mt_infer.specs.Fitting.{eliminating_over};
ghost use Rattle.mt_infer.specs.Scopes.{scope_in, ScopeBelow};
ghost use Rattle.mt_layers.specs.Environments.{environment_in, EnvBelow};
ghost use Rattle.mt_rules.specs.Answers.{Answers};
ghost use Rattle.mt_pool.specs.Region.{tree_at, Kept};
ghost use Rattle.mt_store.specs.Held.{store_in, StoreBelow};
ghost use Rattle.mt_rules.specs.Inference.{eliminating, may_eliminate};
ghost use Rattle.mt_term.specs.Trees.{Sort as SortTree};

use crate::arguments::on_newest;
use crate::expected::{as_sort, product_over};
use crate::inferrer::Inferrer;
use crate::scopes::Scope;
use mt_layers::{Convert, Whd, Work};
use mt_pool::{Node, TermId};
use mt_term::{Refusal, Sort, Stop, deeper};
use mt_text::{Ledger, Steps};
use std::alloc::{AllocFailed, Global};
use std::clone::Clone;

/// Whether a match on a type of the first sort may answer in the second.
fn may_eliminate(large: bool, from: &Sort, into: &Sort) -> bool
    ensures { result ≡ may_eliminate large from.now into.now }
{
    match (from, into) {
        (Sort::Prop, Sort::Typ(_)) => large,
        (Sort::Prop, Sort::Prop) => true,
        (Sort::Typ(_), _) => true,
    }
}

/// The sort that a motive of type `ty` answers in: `ty` has to be products over the indices of
/// `arity`, and over `family` on them, into a sort that is allowed. Recurses at most `depth_left`
/// levels.
#[cycle(elimination_sort)]
#[tactic(auto, using(crate::proofs::Held::infer_held, crate::proofs::Eliminating::eliminating_rules))]
pub fn elimination_sort<C: Convert, W: Whd, L: Ledger>(
    i: &Inferrer<C, W>,
    alloc: Global,
    w: &mut Work<'_>,
    scope: &Scope<'_>,
    large: bool,
    arity: TermId,
    family: TermId,
    ty: TermId,
    depth_left: usize,
    steps: &mut Steps<L>,
) -> Result<Sort, Stop>
    requires arity_held { arity.at < length w.old.pool.now }
    requires family_held { family.at < length w.old.pool.now }
    requires type_held { ty.at < length w.old.pool.now }
    requires scope_held { ScopeBelow (length w.old.pool.now) scope.now }
    requires env_held { EnvBelow (length w.old.pool.now) w.old.env.now }
    requires store_held { StoreBelow (length w.old.pool.now) w.old.store.now }
    ensures same_pool { w.new.pool.ghost_name ≡ w.old.pool.ghost_name }
    ensures env { w.new.env ≡ w.old.env }
    ensures store { w.new.store ≡ w.old.store }
    ensures kept { Kept w.old.pool.now w.new.pool.now }
    ensures outcome { Answers (λ s. s) (eliminating (environment_in w.old.pool.now w.old.env.now) (store_in w.old.pool.now w.old.store.now) (scope_in w.old.pool.now scope.now) large (tree_at w.old.pool.now arity) (tree_at w.old.pool.now family) (tree_at w.old.pool.now ty) w.old.left) w.new.left result }
    ensures cost { steps.new + w.new.left ≡ steps.old + w.old.left }
{
    let depth_left = deeper(depth_left)?;
    match w.pool.node(arity) {
        Node::Prod(_, index, rest) => {
            let index = *index;
            let rest = *rest;
            eliminated_over(
                i, alloc, w, scope, large, index, rest, family, ty, depth_left, steps,
            )
        }
        Node::Sort(from) => {
            let from = from.clone()?;
            eliminated_last(i, alloc, w, scope, large, from, family, ty, steps)
        }
        Node::Var(_)
        | Node::Lam(..)
        | Node::App(..)
        | Node::Const(_)
        | Node::Ind(_)
        | Node::Con(..)
        | Node::Match(..)
        | Node::Meta(..) => Err(Stop::Refused(Refusal::BadElimination)),
    }
}

/// The same over a further index, and then the rest of the arity. Recurses at most `depth_left`
/// levels.
#[cycle(elimination_sort)]
#[tactic(auto, using(crate::proofs::Held::infer_held, crate::proofs::Eliminating::index_rules))]
fn eliminated_over<C: Convert, W: Whd, L: Ledger>(
    i: &Inferrer<C, W>,
    alloc: Global,
    w: &mut Work<'_>,
    scope: &Scope<'_>,
    large: bool,
    index: TermId,
    rest: TermId,
    family: TermId,
    ty: TermId,
    depth_left: usize,
    steps: &mut Steps<L>,
) -> Result<Sort, Stop>
    requires index_held { index.at < length w.old.pool.now }
    requires rest_held { rest.at < length w.old.pool.now }
    requires family_held { family.at < length w.old.pool.now }
    requires type_held { ty.at < length w.old.pool.now }
    requires scope_held { ScopeBelow (length w.old.pool.now) scope.now }
    requires env_held { EnvBelow (length w.old.pool.now) w.old.env.now }
    requires store_held { StoreBelow (length w.old.pool.now) w.old.store.now }
    ensures same_pool { w.new.pool.ghost_name ≡ w.old.pool.ghost_name }
    ensures env { w.new.env ≡ w.old.env }
    ensures store { w.new.store ≡ w.old.store }
    ensures kept { Kept w.old.pool.now w.new.pool.now }
    ensures outcome { Answers (λ s. s) (eliminating_over (environment_in w.old.pool.now w.old.env.now) (store_in w.old.pool.now w.old.store.now) (scope_in w.old.pool.now scope.now) large (tree_at w.old.pool.now index) (tree_at w.old.pool.now rest) (tree_at w.old.pool.now family) (tree_at w.old.pool.now ty) w.old.left) w.new.left result }
    ensures cost { steps.new + w.new.left ≡ steps.old + w.old.left }
{
    let depth_left = deeper(depth_left)?;
    let on_index = on_newest(w.pool, alloc, family)?;
    let product = product_over(i, alloc, w, scope, ty, index, steps)?;
    let inner = Scope::More(&product.name, product.domain, &*scope);
    let codomain = product.codomain;
    elimination_sort(
        i, alloc, w, &inner, large, rest, on_index, codomain, depth_left, steps,
    )
}

/// The same without a further index, where the inductive type has the sort `from`.
#[tactic(auto, using(crate::proofs::Held::infer_held, crate::proofs::Eliminating::last_rules))]
fn eliminated_last<C: Convert, W: Whd, L: Ledger>(
    i: &Inferrer<C, W>,
    alloc: Global,
    w: &mut Work<'_>,
    scope: &Scope<'_>,
    large: bool,
    from: Sort,
    family: TermId,
    ty: TermId,
    steps: &mut Steps<L>,
) -> Result<Sort, Stop>
    requires family_held { family.at < length w.old.pool.now }
    requires type_held { ty.at < length w.old.pool.now }
    requires scope_held { ScopeBelow (length w.old.pool.now) scope.now }
    requires env_held { EnvBelow (length w.old.pool.now) w.old.env.now }
    requires store_held { StoreBelow (length w.old.pool.now) w.old.store.now }
    ensures same_pool { w.new.pool.ghost_name ≡ w.old.pool.ghost_name }
    ensures env { w.new.env ≡ w.old.env }
    ensures store { w.new.store ≡ w.old.store }
    ensures kept { Kept w.old.pool.now w.new.pool.now }
    ensures outcome { Answers (λ s. s) (eliminating (environment_in w.old.pool.now w.old.env.now) (store_in w.old.pool.now w.old.store.now) (scope_in w.old.pool.now scope.now) large (SortTree from) (tree_at w.old.pool.now family) (tree_at w.old.pool.now ty) w.old.left) w.new.left result }
    ensures cost { steps.new + w.new.left ≡ steps.old + w.old.left }
{
    let product = product_over(i, alloc, w, scope, ty, family, steps)?;
    let into = as_sort(i, alloc, w, product.codomain, steps)?;
    if !may_eliminate(large, &from, &into) {
        return Err(Stop::Refused(Refusal::BadElimination));
    }
    Ok(into)
}
