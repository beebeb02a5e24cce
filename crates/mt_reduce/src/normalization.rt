// Normal forms: the weak head, and then its parts.
ghost use Rattle.std.specs.Prelude.{◌≡◌, ◌<◌, ◌+◌, ◌∷◌, length, IfOk, IfErr};
ghost use Rattle.mt_layers.specs.Environments.{environment_in, EnvBelow};
ghost use Rattle.mt_layers.specs.Stops.{IsNoRefusal};
ghost use Rattle.mt_rules.specs.Answers.{Answers};
ghost use Rattle.mt_pool.specs.Region.{arms_at, branches_of, ids_of, tree_at, trees_at, AllBelow, ArmsBelow, Kept};
ghost use Rattle.mt_store.specs.Held.{store_in, StoreBelow};
ghost use Rattle.mt_term.specs.Trees.{Match, Meta};
ghost use Rattle.mt_rules.specs.WeakHead.{normal, normal_arms, normal_parts, normal_terms};

use crate::reduction::whd;
use mt_layers::{Work, copy_branches, copy_ids};
use mt_pool::{BranchIds, Node, TermId, TermIds};
use mt_term::{Names, OutOfMemory, Stop, deeper};
use mt_text::{Ledger, Steps};
use std::alloc::{AllocFailed, Global};
use std::clone::Clone;

/// The normal form. Recurses at most `depth_left` levels, and as many again for weak heads.
#[cycle(normal)]
#[tactic(auto, using(crate::proofs::Held::reduce_rules, mt_rules_laws::proofs::NormalRules::normal_rules))]
pub fn normal<L: Ledger>(
    alloc: Global,
    w: &mut Work<'_>,
    t: TermId,
    depth_left: usize,
    steps: &mut Steps<L>,
) -> Result<TermId, Stop>
    requires held { t.at < length w.old.pool.now }
    requires env_held { EnvBelow (length w.old.pool.now) w.old.env.now }
    requires store_held { StoreBelow (length w.old.pool.now) w.old.store.now }
    ensures same_pool { w.new.pool.ghost_name ≡ w.old.pool.ghost_name }
    ensures env { w.new.env ≡ w.old.env }
    ensures store { w.new.store ≡ w.old.store }
    ensures kept { Kept w.old.pool.now w.new.pool.now }
    ensures outcome { Answers (tree_at w.new.pool.now) (normal (environment_in w.old.pool.now w.old.env.now) (store_in w.old.pool.now w.old.store.now) (tree_at w.old.pool.now t) w.old.left) w.new.left result }
    ensures result_held { IfOk result (λ u. u.at < length w.new.pool.now) }
    ensures unrefused { IfErr result (λ e. IsNoRefusal e) }
    ensures cost { steps.new + w.new.left ≡ steps.old + w.old.left }
{
    let depth_left = deeper(depth_left)?;
    let head = whd(alloc, w, t, depth_left, steps)?;
    normal_parts(alloc, w, head, depth_left, steps)
}

/// A weak head with each direct part replaced by its normal form, left to right. Recurses at most
/// `depth_left` levels.
#[cycle(normal)]
#[tactic(auto, using(crate::proofs::Held::reduce_rules, mt_rules_laws::proofs::NormalRules::normal_parts_rules))]
fn normal_parts<L: Ledger>(
    alloc: Global,
    w: &mut Work<'_>,
    t: TermId,
    depth_left: usize,
    steps: &mut Steps<L>,
) -> Result<TermId, Stop>
    requires held { t.at < length w.old.pool.now }
    requires env_held { EnvBelow (length w.old.pool.now) w.old.env.now }
    requires store_held { StoreBelow (length w.old.pool.now) w.old.store.now }
    ensures same_pool { w.new.pool.ghost_name ≡ w.old.pool.ghost_name }
    ensures env { w.new.env ≡ w.old.env }
    ensures store { w.new.store ≡ w.old.store }
    ensures kept { Kept w.old.pool.now w.new.pool.now }
    ensures outcome { Answers (tree_at w.new.pool.now) (normal_parts (environment_in w.old.pool.now w.old.env.now) (store_in w.old.pool.now w.old.store.now) (tree_at w.old.pool.now t) w.old.left) w.new.left result }
    ensures result_held { IfOk result (λ u. u.at < length w.new.pool.now) }
    ensures unrefused { IfErr result (λ e. IsNoRefusal e) }
    ensures cost { steps.new + w.new.left ≡ steps.old + w.old.left }
{
    let depth_left = deeper(depth_left)?;
    match w.pool.node(t) {
        Node::Prod(x, a, b) => {
            let x = x.clone()?;
            let a = *a;
            let b = *b;
            let a = normal(alloc, w, a, depth_left, steps)?;
            let b = normal(alloc, w, b, depth_left, steps)?;
            Ok(w.pool.put(Node::Prod(x, a, b))?)
        }
        Node::Lam(x, a, b) => {
            let x = x.clone()?;
            let a = *a;
            let b = *b;
            let a = normal(alloc, w, a, depth_left, steps)?;
            let b = normal(alloc, w, b, depth_left, steps)?;
            Ok(w.pool.put(Node::Lam(x, a, b))?)
        }
        Node::App(f, a) => {
            let f = *f;
            let a = *a;
            let f = normal(alloc, w, f, depth_left, steps)?;
            let a = normal(alloc, w, a, depth_left, steps)?;
            Ok(w.pool.put(Node::App(f, a))?)
        }
        Node::Match(e, r, c, bs) => {
            let e = *e;
            let r = *r;
            let c = *c;
            let bs = copy_branches(alloc, bs, depth_left)?;
            normal_match(alloc, w, e, r, c, &bs, depth_left, steps)
        }
        Node::Meta(n, s) => {
            let n = *n;
            let s = copy_ids(alloc, s, depth_left)?;
            normal_meta(alloc, w, n, &s, depth_left, steps)
        }
        Node::Var(_) | Node::Sort(_) | Node::Const(_) | Node::Ind(_) | Node::Con(..) => Ok(t),
    }
}

/// A match with each part replaced by its normal form.
#[cycle(normal)]
#[tactic(auto, using(crate::proofs::Held::reduce_rules, mt_rules_laws::proofs::NormalRules::normal_parts_rules))]
fn normal_match<L: Ledger>(
    alloc: Global,
    w: &mut Work<'_>,
    e: usize,
    r: TermId,
    c: TermId,
    bs: &BranchIds,
    depth_left: usize,
    steps: &mut Steps<L>,
) -> Result<TermId, Stop>
    requires function { r.at < length w.old.pool.now }
    requires matched { c.at < length w.old.pool.now }
    requires branches { ArmsBelow (length w.old.pool.now) (branches_of bs.now) }
    requires env_held { EnvBelow (length w.old.pool.now) w.old.env.now }
    requires store_held { StoreBelow (length w.old.pool.now) w.old.store.now }
    ensures same_pool { w.new.pool.ghost_name ≡ w.old.pool.ghost_name }
    ensures env { w.new.env ≡ w.old.env }
    ensures store { w.new.store ≡ w.old.store }
    ensures kept { Kept w.old.pool.now w.new.pool.now }
    ensures outcome { Answers (tree_at w.new.pool.now) (normal_parts (environment_in w.old.pool.now w.old.env.now) (store_in w.old.pool.now w.old.store.now) (Match e (tree_at w.old.pool.now r) (tree_at w.old.pool.now c) (arms_at w.old.pool.now (branches_of bs.now))) w.old.left) w.new.left result }
    ensures result_held { IfOk result (λ u. u.at < length w.new.pool.now) }
    ensures unrefused { IfErr result (λ e. IsNoRefusal e) }
    ensures cost { steps.new + w.new.left ≡ steps.old + w.old.left }
{
    let depth_left = deeper(depth_left)?;
    let r = normal(alloc, w, r, depth_left, steps)?;
    let c = normal(alloc, w, c, depth_left, steps)?;
    let bs = normal_branches(alloc, w, bs, depth_left, steps)?;
    Ok(w.pool.put(Node::Match(e, r, c, bs))?)
}

/// A metavariable with each of its terms replaced by its normal form.
#[cycle(normal)]
#[tactic(auto, using(crate::proofs::Held::reduce_rules, mt_rules_laws::proofs::NormalRules::normal_parts_rules))]
fn normal_meta<L: Ledger>(
    alloc: Global,
    w: &mut Work<'_>,
    n: usize,
    s: &TermIds,
    depth_left: usize,
    steps: &mut Steps<L>,
) -> Result<TermId, Stop>
    requires terms { AllBelow (length w.old.pool.now) (ids_of s.now) }
    requires env_held { EnvBelow (length w.old.pool.now) w.old.env.now }
    requires store_held { StoreBelow (length w.old.pool.now) w.old.store.now }
    ensures same_pool { w.new.pool.ghost_name ≡ w.old.pool.ghost_name }
    ensures env { w.new.env ≡ w.old.env }
    ensures store { w.new.store ≡ w.old.store }
    ensures kept { Kept w.old.pool.now w.new.pool.now }
    ensures outcome { Answers (tree_at w.new.pool.now) (normal_parts (environment_in w.old.pool.now w.old.env.now) (store_in w.old.pool.now w.old.store.now) (Meta n (trees_at w.old.pool.now (ids_of s.now))) w.old.left) w.new.left result }
    ensures result_held { IfOk result (λ u. u.at < length w.new.pool.now) }
    ensures unrefused { IfErr result (λ e. IsNoRefusal e) }
    ensures cost { steps.new + w.new.left ≡ steps.old + w.old.left }
{
    let depth_left = deeper(depth_left)?;
    let s = normal_ids(alloc, w, s, depth_left, steps)?;
    Ok(w.pool.put(Node::Meta(n, s))?)
}

/// The normal forms of the terms of a list.
#[cycle(normal)]
#[tactic(auto, using(crate::proofs::Held::reduce_rules, mt_rules_laws::proofs::NormalRules::normal_terms_rules))]
fn normal_ids<L: Ledger>(
    alloc: Global,
    w: &mut Work<'_>,
    s: &TermIds,
    depth_left: usize,
    steps: &mut Steps<L>,
) -> Result<TermIds, Stop>
    requires held { AllBelow (length w.old.pool.now) (ids_of s.now) }
    requires env_held { EnvBelow (length w.old.pool.now) w.old.env.now }
    requires store_held { StoreBelow (length w.old.pool.now) w.old.store.now }
    ensures same_pool { w.new.pool.ghost_name ≡ w.old.pool.ghost_name }
    ensures env { w.new.env ≡ w.old.env }
    ensures store { w.new.store ≡ w.old.store }
    ensures kept { Kept w.old.pool.now w.new.pool.now }
    ensures outcome { Answers (λ r. trees_at w.new.pool.now (ids_of r)) (normal_terms (environment_in w.old.pool.now w.old.env.now) (store_in w.old.pool.now w.old.store.now) (trees_at w.old.pool.now (ids_of s.now)) w.old.left) w.new.left result }
    ensures result_held { IfOk result (λ r. AllBelow (length w.new.pool.now) (ids_of r)) }
    ensures unrefused { IfErr result (λ e. IsNoRefusal e) }
    ensures cost { steps.new + w.new.left ≡ steps.old + w.old.left }
{
    let depth_left = deeper(depth_left)?;
    match s {
        TermIds::End => Ok(TermIds::End),
        TermIds::Item(t, rest) => {
            let t = normal(alloc, w, *t, depth_left, steps)?;
            let rest = normal_ids(alloc, w, rest, depth_left, steps)?;
            Ok(with_id(alloc, t, rest)?)
        }
    }
}

/// The branches with the normal forms of their bodies.
#[cycle(normal)]
#[tactic(auto, using(crate::proofs::Held::reduce_rules, mt_rules_laws::proofs::NormalRules::normal_arms_rules))]
fn normal_branches<L: Ledger>(
    alloc: Global,
    w: &mut Work<'_>,
    bs: &BranchIds,
    depth_left: usize,
    steps: &mut Steps<L>,
) -> Result<BranchIds, Stop>
    requires held { ArmsBelow (length w.old.pool.now) (branches_of bs.now) }
    requires env_held { EnvBelow (length w.old.pool.now) w.old.env.now }
    requires store_held { StoreBelow (length w.old.pool.now) w.old.store.now }
    ensures same_pool { w.new.pool.ghost_name ≡ w.old.pool.ghost_name }
    ensures env { w.new.env ≡ w.old.env }
    ensures store { w.new.store ≡ w.old.store }
    ensures kept { Kept w.old.pool.now w.new.pool.now }
    ensures outcome { Answers (λ cs. arms_at w.new.pool.now (branches_of cs)) (normal_arms (environment_in w.old.pool.now w.old.env.now) (store_in w.old.pool.now w.old.store.now) (arms_at w.old.pool.now (branches_of bs.now)) w.old.left) w.new.left result }
    ensures result_held { IfOk result (λ cs. ArmsBelow (length w.new.pool.now) (branches_of cs)) }
    ensures unrefused { IfErr result (λ e. IsNoRefusal e) }
    ensures cost { steps.new + w.new.left ≡ steps.old + w.old.left }
{
    let depth_left = deeper(depth_left)?;
    match bs {
        BranchIds::End => Ok(BranchIds::End),
        BranchIds::Item(names, body, rest) => {
            let names = names.clone()?;
            let body = normal(alloc, w, *body, depth_left, steps)?;
            let rest = normal_branches(alloc, w, rest, depth_left, steps)?;
            Ok(with_branch(alloc, names, body, rest)?)
        }
    }
}

/// The ids with one before them.
fn with_id(alloc: Global, t: TermId, rest: TermIds) -> Result<TermIds, OutOfMemory>
    ensures { IfOk result (λ s. ids_of s ≡ t ∷ ids_of rest) }
{
    Ok(TermIds::Item(t, Box::new(alloc, rest)?))
}

/// The branches with one before them.
fn with_branch(
    alloc: Global,
    names: Names,
    body: TermId,
    rest: BranchIds,
) -> Result<BranchIds, OutOfMemory>
    ensures { IfOk result (λ bs. branches_of bs ≡ (names, body) ∷ branches_of rest) }
{
    Ok(BranchIds::Item(names, body, Box::new(alloc, rest)?))
}
