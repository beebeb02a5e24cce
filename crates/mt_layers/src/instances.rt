// Instances: every assigned metavariable replaced by its body under its terms, through and through.
ghost use Rattle.std.specs.Prelude.{◌≡◌, ◌<◌, length, IfOk};
ghost use Rattle.mt_pool.specs.Region.{arms_at, branches_of, ids_of, tree_at, trees_at, AllBelow, ArmsBelow, Kept};
ghost use Rattle.mt_store.specs.Held.{store_in, StoreBelow};
ghost use Rattle.mt_term.specs.Instances.{InstanceAll, InstanceArms, InstanceOf};
ghost use Rattle.mt_term.specs.Trees.{Match, Meta};

use crate::nodes::{copy_branches, copy_ids, listed_ids};
use mt_pool::{BranchIds, Node, Pool, TermId, TermIds};
use mt_store::Store;
use mt_term::{MAX_DEPTH, OutOfMemory, deeper};
use std::alloc::{AllocFailed, Global};
use std::clone::Clone;

/// The instance of a term. Recurses at most `depth_left` levels.
#[cycle(instance)]
#[tactic(auto, using(crate::proofs::Instancing::instance_rules))]
pub fn instance(
    pool: &mut Pool,
    alloc: Global,
    store: &Store,
    t: TermId,
    depth_left: usize,
) -> Result<TermId, OutOfMemory>
    requires held { t.at < length pool.old }
    requires store_held { StoreBelow (length pool.old) store.now }
    ensures kept { Kept pool.old pool.new }
    ensures result_held { IfOk result (λ u. u.at < length pool.new) }
    ensures instance { IfOk result (λ u. InstanceOf (store_in pool.old store.now) (tree_at pool.old t) (tree_at pool.new u)) }
{
    let depth_left = deeper(depth_left)?;
    match pool.node(t) {
        Node::Prod(x, a, b) => {
            let x = x.clone()?;
            let a = *a;
            let b = *b;
            let (a, b) = two_instances(pool, alloc, store, a, b, depth_left)?;
            pool.put(Node::Prod(x, a, b))
        }
        Node::Lam(x, a, b) => {
            let x = x.clone()?;
            let a = *a;
            let b = *b;
            let (a, b) = two_instances(pool, alloc, store, a, b, depth_left)?;
            pool.put(Node::Lam(x, a, b))
        }
        Node::App(f, a) => {
            let f = *f;
            let a = *a;
            let (f, a) = two_instances(pool, alloc, store, f, a, depth_left)?;
            pool.put(Node::App(f, a))
        }
        Node::Match(e, r, c, bs) => {
            let e = *e;
            let r = *r;
            let c = *c;
            let bs = copy_branches(alloc, bs, depth_left)?;
            instance_match(pool, alloc, store, e, r, c, &bs, depth_left)
        }
        Node::Meta(n, s) => {
            let n = *n;
            let s = copy_ids(alloc, s, depth_left)?;
            instance_meta(pool, alloc, store, n, &s, depth_left)
        }
        Node::Var(_) | Node::Sort(_) | Node::Const(_) | Node::Ind(_) | Node::Con(..) => Ok(t),
    }
}

/// The instances of two terms.
#[cycle(instance)]
#[tactic(auto, using(crate::proofs::Instancing::instance_rules))]
fn two_instances(
    pool: &mut Pool,
    alloc: Global,
    store: &Store,
    t: TermId,
    u: TermId,
    depth_left: usize,
) -> Result<(TermId, TermId), OutOfMemory>
    requires first { t.at < length pool.old }
    requires second { u.at < length pool.old }
    requires store_held { StoreBelow (length pool.old) store.now }
    ensures kept { Kept pool.old pool.new }
    ensures first_held { IfOk result (λ r. r.0.at < length pool.new) }
    ensures second_held { IfOk result (λ r. r.1.at < length pool.new) }
    ensures first { IfOk result (λ r. InstanceOf (store_in pool.old store.now) (tree_at pool.old t) (tree_at pool.new r.0)) }
    ensures second { IfOk result (λ r. InstanceOf (store_in pool.old store.now) (tree_at pool.old u) (tree_at pool.new r.1)) }
{
    let depth_left = deeper(depth_left)?;
    let t = instance(pool, alloc, store, t, depth_left)?;
    let u = instance(pool, alloc, store, u, depth_left)?;
    Ok((t, u))
}

/// The instance of a match.
#[cycle(instance)]
#[tactic(auto, using(crate::proofs::Instancing::instance_rules))]
fn instance_match(
    pool: &mut Pool,
    alloc: Global,
    store: &Store,
    e: usize,
    r: TermId,
    c: TermId,
    bs: &BranchIds,
    depth_left: usize,
) -> Result<TermId, OutOfMemory>
    requires function { r.at < length pool.old }
    requires matched { c.at < length pool.old }
    requires branches { ArmsBelow (length pool.old) (branches_of bs.now) }
    requires store_held { StoreBelow (length pool.old) store.now }
    ensures kept { Kept pool.old pool.new }
    ensures result_held { IfOk result (λ u. u.at < length pool.new) }
    ensures instance { IfOk result (λ u. InstanceOf (store_in pool.old store.now) (Match e (tree_at pool.old r) (tree_at pool.old c) (arms_at pool.old (branches_of bs.now))) (tree_at pool.new u)) }
{
    let depth_left = deeper(depth_left)?;
    let r = instance(pool, alloc, store, r, depth_left)?;
    let c = instance(pool, alloc, store, c, depth_left)?;
    let bs = instance_branches(pool, alloc, store, bs, depth_left)?;
    pool.put(Node::Match(e, r, c, bs))
}

/// The instance of a metavariable on its terms.
#[cycle(instance)]
#[tactic(auto, using(crate::proofs::Instancing::instance_rules))]
fn instance_meta(
    pool: &mut Pool,
    alloc: Global,
    store: &Store,
    n: usize,
    s: &TermIds,
    depth_left: usize,
) -> Result<TermId, OutOfMemory>
    requires terms { AllBelow (length pool.old) (ids_of s.now) }
    requires store_held { StoreBelow (length pool.old) store.now }
    ensures kept { Kept pool.old pool.new }
    ensures result_held { IfOk result (λ u. u.at < length pool.new) }
    ensures instance { IfOk result (λ u. InstanceOf (store_in pool.old store.now) (Meta n (trees_at pool.old (ids_of s.now))) (tree_at pool.new u)) }
{
    let depth_left = deeper(depth_left)?;
    let s = instance_ids(pool, alloc, store, s, depth_left)?;
    match store.body(n) {
        None => pool.put(Node::Meta(n, s)),
        Some(body) => {
            let body = instance(pool, alloc, store, body, depth_left)?;
            let s = listed_ids(alloc, &s)?;
            pool.under(alloc, body, &s)
        }
    }
}

/// The instances of the terms of a list.
#[cycle(instance)]
#[tactic(auto, using(crate::proofs::Instancing::instance_rules))]
fn instance_ids(
    pool: &mut Pool,
    alloc: Global,
    store: &Store,
    s: &TermIds,
    depth_left: usize,
) -> Result<TermIds, OutOfMemory>
    requires held { AllBelow (length pool.old) (ids_of s.now) }
    requires store_held { StoreBelow (length pool.old) store.now }
    ensures kept { Kept pool.old pool.new }
    ensures result_held { IfOk result (λ r. AllBelow (length pool.new) (ids_of r)) }
    ensures instance { IfOk result (λ r. InstanceAll (store_in pool.old store.now) (trees_at pool.old (ids_of s.now)) (trees_at pool.new (ids_of r))) }
{
    let depth_left = deeper(depth_left)?;
    match s {
        TermIds::End => Ok(TermIds::End),
        TermIds::Item(t, rest) => {
            let t = instance(pool, alloc, store, *t, depth_left)?;
            let rest = instance_ids(pool, alloc, store, rest, depth_left)?;
            Ok(TermIds::Item(t, Box::new(alloc, rest)?))
        }
    }
}

/// The branches with the instances of their bodies.
#[cycle(instance)]
#[tactic(auto, using(crate::proofs::Instancing::instance_rules))]
fn instance_branches(
    pool: &mut Pool,
    alloc: Global,
    store: &Store,
    bs: &BranchIds,
    depth_left: usize,
) -> Result<BranchIds, OutOfMemory>
    requires held { ArmsBelow (length pool.old) (branches_of bs.now) }
    requires store_held { StoreBelow (length pool.old) store.now }
    ensures kept { Kept pool.old pool.new }
    ensures result_held { IfOk result (λ cs. ArmsBelow (length pool.new) (branches_of cs)) }
    ensures instance { IfOk result (λ cs. InstanceArms (store_in pool.old store.now) (arms_at pool.old (branches_of bs.now)) (arms_at pool.new (branches_of cs))) }
{
    let depth_left = deeper(depth_left)?;
    match bs {
        BranchIds::End => Ok(BranchIds::End),
        BranchIds::Item(names, body, rest) => {
            let names = names.clone()?;
            let body = instance(pool, alloc, store, *body, depth_left)?;
            let rest = instance_branches(pool, alloc, store, rest, depth_left)?;
            Ok(BranchIds::Item(names, body, Box::new(alloc, rest)?))
        }
    }
}
