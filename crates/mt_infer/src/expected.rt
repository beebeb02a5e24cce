// What a type has to be: a sort, a product, or a type that agrees with another.
ghost use Rattle.std.specs.Prelude.{◌≡◌, ◌<◌, ◌+◌, [], length, IfOk};
ghost use Rattle.mt_infer.specs.Fitting.{product_over};
ghost use Rattle.mt_infer.specs.Forms.{held, held_in, product_in, sort_in, ProductBelow, ProductInBelow};
ghost use Rattle.mt_infer.specs.Scopes.{scope_in, ScopeBelow};
ghost use Rattle.mt_layers.specs.Environments.{environment_in, EnvBelow};
ghost use Rattle.mt_rules.specs.Answers.{Answers};
ghost use Rattle.mt_pool.specs.Region.{tree_at, Kept};
ghost use Rattle.mt_store.specs.Held.{store_in, StoreBelow};
ghost use Rattle.mt_rules.specs.Inference.{agreement, as_product, as_sort};

use crate::inferrer::Inferrer;
use crate::scopes::{Scope, hypotheses};
use mt_layers::{Convert, Whd, Work};
use mt_pool::{Node, Pool, TermId};
use mt_term::{Entries, Mode, Name, OutOfMemory, Refusal, Sort, Stop};
use mt_text::{Ledger, Steps};
use std::alloc::{AllocFailed, Global};
use std::clone::Clone;

/// A product.
#[derive(Drop)]
pub struct HeldProduct {
    pub name: Name,
    pub domain: TermId,
    pub codomain: TermId,
}

/// The sort that a term is.
fn sort_in(pool: &Pool, t: TermId) -> Result<Option<Sort>, OutOfMemory>
    requires { t.at < length pool.now }
    ensures { IfOk result (λ o. o ≡ sort_in (tree_at pool.now t)) }
{
    match pool.node(t) {
        Node::Sort(s) => Ok(Some(s.clone()?)),
        Node::Var(_)
        | Node::Prod(..)
        | Node::Lam(..)
        | Node::App(..)
        | Node::Const(_)
        | Node::Ind(_)
        | Node::Con(..)
        | Node::Match(..)
        | Node::Meta(..) => Ok(None),
    }
}

/// The product that a term is.
#[tactic(auto, using(crate::proofs::Held::infer_held))]
fn product_in(pool: &Pool, t: TermId) -> Result<Option<HeldProduct>, OutOfMemory>
    requires { t.at < length pool.now }
    ensures tree { IfOk result (λ o. held_in pool.now o ≡ product_in (tree_at pool.now t)) }
    ensures held { IfOk result (λ o. ProductInBelow (length pool.now) o) }
{
    match pool.node(t) {
        Node::Prod(name, domain, codomain) => Ok(Some(HeldProduct {
            name: name.clone()?,
            domain: *domain,
            codomain: *codomain,
        })),
        Node::Var(_)
        | Node::Sort(_)
        | Node::Lam(..)
        | Node::App(..)
        | Node::Const(_)
        | Node::Ind(_)
        | Node::Con(..)
        | Node::Match(..)
        | Node::Meta(..) => Ok(None),
    }
}

/// The weak head of a term as a sort.
#[tactic(auto, using(crate::proofs::Held::infer_held, crate::proofs::Inferring::sort_rules))]
pub fn as_sort<C: Convert, W: Whd, L: Ledger>(
    i: &Inferrer<C, W>,
    alloc: Global,
    w: &mut Work<'_>,
    t: TermId,
    steps: &mut Steps<L>,
) -> Result<Sort, Stop>
    requires held { t.at < length w.old.pool.now }
    requires env_held { EnvBelow (length w.old.pool.now) w.old.env.now }
    requires store_held { StoreBelow (length w.old.pool.now) w.old.store.now }
    ensures same_pool { w.new.pool.ghost_name ≡ w.old.pool.ghost_name }
    ensures env { w.new.env ≡ w.old.env }
    ensures store { w.new.store ≡ w.old.store }
    ensures kept { Kept w.old.pool.now w.new.pool.now }
    ensures outcome { Answers (λ s. s) (as_sort (environment_in w.old.pool.now w.old.env.now) (store_in w.old.pool.now w.old.store.now) (tree_at w.old.pool.now t) w.old.left) w.new.left result }
    ensures cost { steps.new + w.new.left ≡ steps.old + w.old.left }
{
    let head = i.whd.whd(alloc, w, t, steps)?;
    sort_in(w.pool, head)?.ok_or(Stop::Refused(Refusal::NotASort))
}

/// The weak head of a term as a product.
#[tactic(auto, using(crate::proofs::Held::infer_held, crate::proofs::Inferring::product_rules))]
pub fn as_product<C: Convert, W: Whd, L: Ledger>(
    i: &Inferrer<C, W>,
    alloc: Global,
    w: &mut Work<'_>,
    t: TermId,
    steps: &mut Steps<L>,
) -> Result<HeldProduct, Stop>
    requires held { t.at < length w.old.pool.now }
    requires env_held { EnvBelow (length w.old.pool.now) w.old.env.now }
    requires store_held { StoreBelow (length w.old.pool.now) w.old.store.now }
    ensures same_pool { w.new.pool.ghost_name ≡ w.old.pool.ghost_name }
    ensures env { w.new.env ≡ w.old.env }
    ensures store { w.new.store ≡ w.old.store }
    ensures kept { Kept w.old.pool.now w.new.pool.now }
    ensures outcome { Answers (held w.new.pool.now) (as_product (environment_in w.old.pool.now w.old.env.now) (store_in w.old.pool.now w.old.store.now) (tree_at w.old.pool.now t) w.old.left) w.new.left result }
    ensures result_held { IfOk result (λ k. ProductBelow (length w.new.pool.now) k) }
    ensures cost { steps.new + w.new.left ≡ steps.old + w.old.left }
{
    let head = i.whd.whd(alloc, w, t, steps)?;
    product_in(w.pool, head)?.ok_or(Stop::Refused(Refusal::NotAFunction))
}

/// Checks that an inferred type agrees with the expected one.
#[tactic(auto, using(crate::proofs::Held::infer_held, crate::proofs::Inferring::agree_rules))]
pub fn agree<C: Convert, W: Whd, L: Ledger>(
    i: &Inferrer<C, W>,
    alloc: Global,
    w: &mut Work<'_>,
    scope: &Scope<'_>,
    mode: Mode,
    inferred: TermId,
    expected: TermId,
    steps: &mut Steps<L>,
) -> Result<(), Stop>
    requires first { inferred.at < length w.old.pool.now }
    requires second { expected.at < length w.old.pool.now }
    requires scope_held { ScopeBelow (length w.old.pool.now) scope.now }
    requires env_held { EnvBelow (length w.old.pool.now) w.old.env.now }
    requires store_held { StoreBelow (length w.old.pool.now) w.old.store.now }
    ensures same_pool { w.new.pool.ghost_name ≡ w.old.pool.ghost_name }
    ensures env { w.new.env ≡ w.old.env }
    ensures store { w.new.store ≡ w.old.store }
    ensures kept { Kept w.old.pool.now w.new.pool.now }
    ensures outcome { Answers (λ a. a) (agreement (environment_in w.old.pool.now w.old.env.now) (store_in w.old.pool.now w.old.store.now) (scope_in w.old.pool.now scope.now) mode (tree_at w.old.pool.now inferred) (tree_at w.old.pool.now expected) w.old.left) w.new.left result }
    ensures cost { steps.new + w.new.left ≡ steps.old + w.old.left }
{
    if i.convert
        .convert(alloc, w, mode, inferred, expected, steps)?
    {
        return Ok(());
    }
    Err(Stop::Refused(Refusal::Mismatch {
        context: hypotheses(w.pool, alloc, scope)?,
        inferred: w.pool.export(alloc, inferred)?,
        expected: w.pool.export(alloc, expected)?,
        known: Entries::new(alloc),
    }))
}

/// The weak head of a type, which has to be a product over the domain.
#[tactic(auto, using(crate::proofs::Held::infer_held, crate::proofs::Eliminating::over_rules))]
pub fn product_over<C: Convert, W: Whd, L: Ledger>(
    i: &Inferrer<C, W>,
    alloc: Global,
    w: &mut Work<'_>,
    scope: &Scope<'_>,
    ty: TermId,
    domain: TermId,
    steps: &mut Steps<L>,
) -> Result<HeldProduct, Stop>
    requires type_held { ty.at < length w.old.pool.now }
    requires domain_held { domain.at < length w.old.pool.now }
    requires scope_held { ScopeBelow (length w.old.pool.now) scope.now }
    requires env_held { EnvBelow (length w.old.pool.now) w.old.env.now }
    requires store_held { StoreBelow (length w.old.pool.now) w.old.store.now }
    ensures same_pool { w.new.pool.ghost_name ≡ w.old.pool.ghost_name }
    ensures env { w.new.env ≡ w.old.env }
    ensures store { w.new.store ≡ w.old.store }
    ensures kept { Kept w.old.pool.now w.new.pool.now }
    ensures outcome { Answers (held w.new.pool.now) (product_over (environment_in w.old.pool.now w.old.env.now) (store_in w.old.pool.now w.old.store.now) (scope_in w.old.pool.now scope.now) (tree_at w.old.pool.now ty) (tree_at w.old.pool.now domain) w.old.left) w.new.left result }
    ensures result_held { IfOk result (λ k. ProductBelow (length w.new.pool.now) k) }
    ensures cost { steps.new + w.new.left ≡ steps.old + w.old.left }
{
    let product = as_product(i, alloc, w, ty, steps)?;
    agree(
        i,
        alloc,
        w,
        scope,
        Mode::Equal,
        product.domain,
        domain,
        steps,
    )?;
    Ok(product)
}
