// The inference of types.
ghost use Rattle.std.specs.Prelude.{◌≡◌, ◌<◌, ◌+◌, length, IfOk};
ghost use Rattle.mt_infer.specs.Fitting.{applied};
ghost use Rattle.mt_infer.specs.Forms.{held, ProductBelow};
ghost use Rattle.mt_infer.specs.Scopes.{scope_in, ScopeBelow};
ghost use Rattle.mt_layers.specs.Environments.{environment_in, EnvBelow};
ghost use Rattle.mt_rules.specs.Answers.{Answers};
ghost use Rattle.mt_pool.specs.Region.{tree_at, Kept};
ghost use Rattle.mt_store.specs.Held.{store_in, StoreBelow};
ghost use Rattle.mt_rules.specs.Inference.{infer, product_of, sort_of, type_head};
ghost use Rattle.mt_term.specs.Trees.{App, Lam, Prod};

use crate::arguments::instance;
use crate::expected::{HeldProduct, agree, as_product, as_sort};
use crate::inferrer::Inferrer;
use crate::leaves::{
    infer_constant, infer_constructor, infer_inductive, infer_sort, infer_variable,
};
use crate::matching::infer_match;
use crate::metavariables::infer_metavariable;
use crate::scopes::Scope;
use crate::sorts::sort_of_product;
use mt_layers::{Convert, Whd, Work, copy_node};
use mt_pool::{Node, TermId};
use mt_term::{Mode, Name, Sort, Stop, deeper};
use mt_text::{Ledger, Steps};
use std::alloc::Global;

/// The type of a term, one charge for each term in it. Recurses at most `depth_left` levels.
#[cycle(infer)]
#[tactic(auto, using(crate::proofs::Held::infer_held, mt_rules_laws::proofs::InferenceRules::infer_rules))]
pub fn infer<C: Convert, W: Whd, L: Ledger>(
    i: &Inferrer<C, W>,
    alloc: Global,
    w: &mut Work<'_>,
    scope: &Scope<'_>,
    t: TermId,
    depth_left: usize,
    steps: &mut Steps<L>,
) -> Result<TermId, Stop>
    requires held { t.at < length w.old.pool.now }
    requires scope_held { ScopeBelow (length w.old.pool.now) scope.now }
    requires env_held { EnvBelow (length w.old.pool.now) w.old.env.now }
    requires store_held { StoreBelow (length w.old.pool.now) w.old.store.now }
    ensures same_pool { w.new.pool.ghost_name ≡ w.old.pool.ghost_name }
    ensures env { w.new.env ≡ w.old.env }
    ensures store { w.new.store ≡ w.old.store }
    ensures kept { Kept w.old.pool.now w.new.pool.now }
    ensures outcome { Answers (tree_at w.new.pool.now) (infer (environment_in w.old.pool.now w.old.env.now) (store_in w.old.pool.now w.old.store.now) (scope_in w.old.pool.now scope.now) (tree_at w.old.pool.now t) w.old.left) w.new.left result }
    ensures result_held { IfOk result (λ u. u.at < length w.new.pool.now) }
    ensures cost { steps.new + w.new.left ≡ steps.old + w.old.left }
{
    let depth_left = deeper(depth_left)?;
    match copy_node(alloc, w.pool, t)? {
        Node::Var(at) => infer_variable(alloc, w, scope, at, steps),
        Node::Sort(s) => infer_sort(alloc, w, scope, s, steps),
        Node::Prod(x, a, b) => infer_product(i, alloc, w, scope, x, a, b, depth_left, steps),
        Node::Lam(x, a, b) => infer_abstraction(i, alloc, w, scope, x, a, b, depth_left, steps),
        Node::App(f, a) => infer_application(i, alloc, w, scope, f, a, depth_left, steps),
        Node::Const(c) => infer_constant(alloc, w, scope, c, steps),
        Node::Ind(e) => infer_inductive(alloc, w, scope, e, steps),
        Node::Con(e, k) => infer_constructor(alloc, w, scope, e, k, steps),
        Node::Match(e, r, c, bs) => infer_match(
            i, alloc, w, scope, e, r, c, &bs, depth_left, steps,
        ),
        Node::Meta(n, s) => infer_metavariable(i, alloc, w, scope, n, &s, depth_left, steps),
    }
}

/// The type of a product.
#[cycle(infer)]
#[tactic(auto, using(crate::proofs::Held::infer_held, mt_rules_laws::proofs::InferenceRules::infer_rules))]
fn infer_product<C: Convert, W: Whd, L: Ledger>(
    i: &Inferrer<C, W>,
    alloc: Global,
    w: &mut Work<'_>,
    scope: &Scope<'_>,
    x: Name,
    a: TermId,
    b: TermId,
    depth_left: usize,
    steps: &mut Steps<L>,
) -> Result<TermId, Stop>
    requires domain { a.at < length w.old.pool.now }
    requires codomain { b.at < length w.old.pool.now }
    requires scope_held { ScopeBelow (length w.old.pool.now) scope.now }
    requires env_held { EnvBelow (length w.old.pool.now) w.old.env.now }
    requires store_held { StoreBelow (length w.old.pool.now) w.old.store.now }
    ensures same_pool { w.new.pool.ghost_name ≡ w.old.pool.ghost_name }
    ensures env { w.new.env ≡ w.old.env }
    ensures store { w.new.store ≡ w.old.store }
    ensures kept { Kept w.old.pool.now w.new.pool.now }
    ensures outcome { Answers (tree_at w.new.pool.now) (infer (environment_in w.old.pool.now w.old.env.now) (store_in w.old.pool.now w.old.store.now) (scope_in w.old.pool.now scope.now) (Prod x (tree_at w.old.pool.now a) (tree_at w.old.pool.now b)) w.old.left) w.new.left result }
    ensures result_held { IfOk result (λ u. u.at < length w.new.pool.now) }
    ensures cost { steps.new + w.new.left ≡ steps.old + w.old.left }
{
    let depth_left = deeper(depth_left)?;
    w.charge(steps)?;
    let s = sort_of(i, alloc, w, scope, a, depth_left, steps)?;
    let inner = Scope::More(&x, a, &*scope);
    let r = sort_of(i, alloc, w, &inner, b, depth_left, steps)?;
    let s = sort_of_product(alloc, s, r)?;
    Ok(w.pool.put(Node::Sort(s))?)
}

/// The type of an abstraction.
#[cycle(infer)]
#[tactic(auto, using(crate::proofs::Held::infer_held, mt_rules_laws::proofs::InferenceRules::infer_rules))]
fn infer_abstraction<C: Convert, W: Whd, L: Ledger>(
    i: &Inferrer<C, W>,
    alloc: Global,
    w: &mut Work<'_>,
    scope: &Scope<'_>,
    x: Name,
    a: TermId,
    b: TermId,
    depth_left: usize,
    steps: &mut Steps<L>,
) -> Result<TermId, Stop>
    requires ty { a.at < length w.old.pool.now }
    requires body { b.at < length w.old.pool.now }
    requires scope_held { ScopeBelow (length w.old.pool.now) scope.now }
    requires env_held { EnvBelow (length w.old.pool.now) w.old.env.now }
    requires store_held { StoreBelow (length w.old.pool.now) w.old.store.now }
    ensures same_pool { w.new.pool.ghost_name ≡ w.old.pool.ghost_name }
    ensures env { w.new.env ≡ w.old.env }
    ensures store { w.new.store ≡ w.old.store }
    ensures kept { Kept w.old.pool.now w.new.pool.now }
    ensures outcome { Answers (tree_at w.new.pool.now) (infer (environment_in w.old.pool.now w.old.env.now) (store_in w.old.pool.now w.old.store.now) (scope_in w.old.pool.now scope.now) (Lam x (tree_at w.old.pool.now a) (tree_at w.old.pool.now b)) w.old.left) w.new.left result }
    ensures result_held { IfOk result (λ u. u.at < length w.new.pool.now) }
    ensures cost { steps.new + w.new.left ≡ steps.old + w.old.left }
{
    let depth_left = deeper(depth_left)?;
    w.charge(steps)?;
    sort_of(i, alloc, w, scope, a, depth_left, steps)?;
    let inner = Scope::More(&x, a, &*scope);
    let ty = infer(i, alloc, w, &inner, b, depth_left, steps)?;
    Ok(w.pool.put(Node::Prod(x, a, ty))?)
}

/// The type of an application.
#[cycle(infer)]
#[tactic(auto, using(crate::proofs::Held::infer_held, crate::proofs::Applying::application_rules))]
fn infer_application<C: Convert, W: Whd, L: Ledger>(
    i: &Inferrer<C, W>,
    alloc: Global,
    w: &mut Work<'_>,
    scope: &Scope<'_>,
    f: TermId,
    a: TermId,
    depth_left: usize,
    steps: &mut Steps<L>,
) -> Result<TermId, Stop>
    requires function { f.at < length w.old.pool.now }
    requires argument { a.at < length w.old.pool.now }
    requires scope_held { ScopeBelow (length w.old.pool.now) scope.now }
    requires env_held { EnvBelow (length w.old.pool.now) w.old.env.now }
    requires store_held { StoreBelow (length w.old.pool.now) w.old.store.now }
    ensures same_pool { w.new.pool.ghost_name ≡ w.old.pool.ghost_name }
    ensures env { w.new.env ≡ w.old.env }
    ensures store { w.new.store ≡ w.old.store }
    ensures kept { Kept w.old.pool.now w.new.pool.now }
    ensures outcome { Answers (tree_at w.new.pool.now) (infer (environment_in w.old.pool.now w.old.env.now) (store_in w.old.pool.now w.old.store.now) (scope_in w.old.pool.now scope.now) (App (tree_at w.old.pool.now f) (tree_at w.old.pool.now a)) w.old.left) w.new.left result }
    ensures result_held { IfOk result (λ u. u.at < length w.new.pool.now) }
    ensures cost { steps.new + w.new.left ≡ steps.old + w.old.left }
{
    let depth_left = deeper(depth_left)?;
    w.charge(steps)?;
    let product = product_of(i, alloc, w, scope, f, depth_left, steps)?;
    applied(i, alloc, w, scope, &product, a, depth_left, steps)
}

/// The type of a function, whose type is the product, on an argument.
#[cycle(infer)]
#[tactic(auto, using(crate::proofs::Held::infer_held, crate::proofs::Applying::applied_rules))]
fn applied<C: Convert, W: Whd, L: Ledger>(
    i: &Inferrer<C, W>,
    alloc: Global,
    w: &mut Work<'_>,
    scope: &Scope<'_>,
    product: &HeldProduct,
    a: TermId,
    depth_left: usize,
    steps: &mut Steps<L>,
) -> Result<TermId, Stop>
    requires product { ProductBelow (length w.old.pool.now) product.now }
    requires argument { a.at < length w.old.pool.now }
    requires scope_held { ScopeBelow (length w.old.pool.now) scope.now }
    requires env_held { EnvBelow (length w.old.pool.now) w.old.env.now }
    requires store_held { StoreBelow (length w.old.pool.now) w.old.store.now }
    ensures same_pool { w.new.pool.ghost_name ≡ w.old.pool.ghost_name }
    ensures env { w.new.env ≡ w.old.env }
    ensures store { w.new.store ≡ w.old.store }
    ensures kept { Kept w.old.pool.now w.new.pool.now }
    ensures outcome { Answers (tree_at w.new.pool.now) (applied (environment_in w.old.pool.now w.old.env.now) (store_in w.old.pool.now w.old.store.now) (scope_in w.old.pool.now scope.now) (held w.old.pool.now product.now) (tree_at w.old.pool.now a) w.old.left) w.new.left result }
    ensures result_held { IfOk result (λ u. u.at < length w.new.pool.now) }
    ensures cost { steps.new + w.new.left ≡ steps.old + w.old.left }
{
    let depth_left = deeper(depth_left)?;
    let ty = infer(i, alloc, w, scope, a, depth_left, steps)?;
    agree(i, alloc, w, scope, Mode::AtMost, ty, product.domain, steps)?;
    Ok(instance(w.pool, alloc, product.codomain, a)?)
}

/// The sort of a term: its type's weak head, which has to be one. Recurses at most `depth_left`
/// levels.
#[cycle(infer)]
#[tactic(auto, using(crate::proofs::Held::infer_held, mt_rules_laws::proofs::InferenceRules::sort_of_rules))]
fn sort_of<C: Convert, W: Whd, L: Ledger>(
    i: &Inferrer<C, W>,
    alloc: Global,
    w: &mut Work<'_>,
    scope: &Scope<'_>,
    t: TermId,
    depth_left: usize,
    steps: &mut Steps<L>,
) -> Result<Sort, Stop>
    requires held { t.at < length w.old.pool.now }
    requires scope_held { ScopeBelow (length w.old.pool.now) scope.now }
    requires env_held { EnvBelow (length w.old.pool.now) w.old.env.now }
    requires store_held { StoreBelow (length w.old.pool.now) w.old.store.now }
    ensures same_pool { w.new.pool.ghost_name ≡ w.old.pool.ghost_name }
    ensures env { w.new.env ≡ w.old.env }
    ensures store { w.new.store ≡ w.old.store }
    ensures kept { Kept w.old.pool.now w.new.pool.now }
    ensures outcome { Answers (λ s. s) (sort_of (environment_in w.old.pool.now w.old.env.now) (store_in w.old.pool.now w.old.store.now) (scope_in w.old.pool.now scope.now) (tree_at w.old.pool.now t) w.old.left) w.new.left result }
    ensures cost { steps.new + w.new.left ≡ steps.old + w.old.left }
{
    let depth_left = deeper(depth_left)?;
    let ty = infer(i, alloc, w, scope, t, depth_left, steps)?;
    as_sort(i, alloc, w, ty, steps)
}

/// The product that is the type of a term. Recurses at most `depth_left` levels.
#[cycle(infer)]
#[tactic(auto, using(crate::proofs::Held::infer_held, mt_rules_laws::proofs::InferenceRules::product_of_rules))]
fn product_of<C: Convert, W: Whd, L: Ledger>(
    i: &Inferrer<C, W>,
    alloc: Global,
    w: &mut Work<'_>,
    scope: &Scope<'_>,
    t: TermId,
    depth_left: usize,
    steps: &mut Steps<L>,
) -> Result<HeldProduct, Stop>
    requires held { t.at < length w.old.pool.now }
    requires scope_held { ScopeBelow (length w.old.pool.now) scope.now }
    requires env_held { EnvBelow (length w.old.pool.now) w.old.env.now }
    requires store_held { StoreBelow (length w.old.pool.now) w.old.store.now }
    ensures same_pool { w.new.pool.ghost_name ≡ w.old.pool.ghost_name }
    ensures env { w.new.env ≡ w.old.env }
    ensures store { w.new.store ≡ w.old.store }
    ensures kept { Kept w.old.pool.now w.new.pool.now }
    ensures outcome { Answers (held w.new.pool.now) (product_of (environment_in w.old.pool.now w.old.env.now) (store_in w.old.pool.now w.old.store.now) (scope_in w.old.pool.now scope.now) (tree_at w.old.pool.now t) w.old.left) w.new.left result }
    ensures result_held { IfOk result (λ k. ProductBelow (length w.new.pool.now) k) }
    ensures cost { steps.new + w.new.left ≡ steps.old + w.old.left }
{
    let depth_left = deeper(depth_left)?;
    let ty = infer(i, alloc, w, scope, t, depth_left, steps)?;
    as_product(i, alloc, w, ty, steps)
}

/// The weak head of a term's type. Recurses at most `depth_left` levels.
#[cycle(infer)]
#[tactic(auto, using(crate::proofs::Held::infer_held, mt_rules_laws::proofs::InferenceRules::type_head_rules))]
pub fn type_head<C: Convert, W: Whd, L: Ledger>(
    i: &Inferrer<C, W>,
    alloc: Global,
    w: &mut Work<'_>,
    scope: &Scope<'_>,
    t: TermId,
    depth_left: usize,
    steps: &mut Steps<L>,
) -> Result<TermId, Stop>
    requires held { t.at < length w.old.pool.now }
    requires scope_held { ScopeBelow (length w.old.pool.now) scope.now }
    requires env_held { EnvBelow (length w.old.pool.now) w.old.env.now }
    requires store_held { StoreBelow (length w.old.pool.now) w.old.store.now }
    ensures same_pool { w.new.pool.ghost_name ≡ w.old.pool.ghost_name }
    ensures env { w.new.env ≡ w.old.env }
    ensures store { w.new.store ≡ w.old.store }
    ensures kept { Kept w.old.pool.now w.new.pool.now }
    ensures outcome { Answers (tree_at w.new.pool.now) (type_head (environment_in w.old.pool.now w.old.env.now) (store_in w.old.pool.now w.old.store.now) (scope_in w.old.pool.now scope.now) (tree_at w.old.pool.now t) w.old.left) w.new.left result }
    ensures result_held { IfOk result (λ u. u.at < length w.new.pool.now) }
    ensures cost { steps.new + w.new.left ≡ steps.old + w.old.left }
{
    let depth_left = deeper(depth_left)?;
    let ty = infer(i, alloc, w, scope, t, depth_left, steps)?;
    i.whd.whd(alloc, w, ty, steps)
}
