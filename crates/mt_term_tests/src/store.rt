// Each public call, with ample memory.
ghost use Rattle.std.specs.Prelude.{◌<◌, length, IfOk};
ghost use Rattle.mt_store.specs.Held.{StoreBelow};

use mt_pool::{Context, HeldHyp, Node, Pool, TermId, TermIds};
use mt_store::Store;
use mt_term::{Name, OutOfMemory, PlainStore, Sort};
use std::alloc::Global;
use std::test::Fail;

// A store with two metavariables of this type in the empty context.
#[tactic(auto, using(mt_store::proofs::HeldLaws::store_rules))]
fn two_open(alloc: Global, pool: &Pool, ty: TermId) -> Result<Store, OutOfMemory>
    requires { ty.at < length pool.now }
    ensures { IfOk result (λ s. StoreBelow (length pool.now) s) }
{
    let mut store = Store::new(alloc);
    store.declare(pool, &Context::new(alloc), ty)?;
    store.declare(pool, &Context::new(alloc), ty)?;
    Ok(store)
}

#[test]
#[tactic(auto, using(mt_store::proofs::HeldLaws::store_rules, mt_pool::proofs::Region::kept))]
fn metavariables_are_counted_from_0(rt: HostRuntime) -> Result<(), Fail> {
    let alloc = rt.alloc();
    let mut pool = Pool::new(alloc);
    let prop = pool.put(Node::Sort(Sort::Prop))?;
    let mut store = two_open(alloc, &pool, prop)?;
    assert_eq!(rt; store.count(), 2);
    let context = Context::new(alloc);
    assert_eq!(rt; store.declare(&pool, &context, prop), Ok(2usize));
    assert!(rt; store.is_open(0) && store.is_open(2) && !store.is_open(3));
    Ok(())
}

#[test]
#[tactic(auto, using(mt_store::proofs::HeldLaws::store_rules, mt_pool::proofs::Region::kept))]
fn contexts_and_types_are_kept(rt: HostRuntime) -> Result<(), Fail> {
    let alloc = rt.alloc();
    let mut pool = Pool::new(alloc);
    let prop = pool.put(Node::Sort(Sort::Prop))?;
    let var = pool.put(Node::Var(0))?;
    let mut context = Context::new(alloc);
    context.push(HeldHyp {
        name: Name::from_bytes(alloc, b"A")?,
        ty: prop,
    })?;
    let mut store = Store::new(alloc);
    store.declare(&pool, &context, var)?;
    assert_eq!(rt; store.context(0).len(), 1);
    assert_eq!(rt; store.type_of(0), var);
    Ok(())
}

#[test]
#[tactic(auto, using(mt_store::proofs::HeldLaws::store_rules, mt_pool::proofs::Region::kept))]
fn a_body_is_given_once_and_reached(rt: HostRuntime) -> Result<(), Fail> {
    let alloc = rt.alloc();
    let mut pool = Pool::new(alloc);
    let prop = pool.put(Node::Sort(Sort::Prop))?;
    let first = pool.put(Node::Meta(0, TermIds::End))?;
    let second = pool.put(Node::Meta(1, TermIds::End))?;
    let mut store = two_open(alloc, &pool, prop)?;
    assert_eq!(rt; store.reaches(alloc, &pool, first, 1), Ok(false));
    let before = store.copy(alloc)?;
    if store.is_open(0) {
        store.assign(&pool, 0, second)?;
    }
    assert_eq!(rt; store.body(0), Some(second));
    assert!(rt; !store.is_open(0) && before.is_open(0));
    assert_eq!(rt; store.reaches(alloc, &pool, first, 1), Ok(true));
    assert_eq!(rt; store.reaches(alloc, &pool, second, 0), Ok(false));
    assert_eq!(rt; store.body(1), None);
    assert_eq!(rt; store.body(2), None);
    Ok(())
}

#[test]
#[tactic(auto, using(mt_store::proofs::HeldLaws::store_rules, mt_pool::proofs::Region::kept))]
fn types_are_gone_through(rt: HostRuntime) -> Result<(), Fail> {
    let alloc = rt.alloc();
    let mut pool = Pool::new(alloc);
    let zero = pool.put(Node::Meta(0, TermIds::End))?;
    let one = pool.put(Node::Meta(1, TermIds::End))?;
    let mut store = Store::new(alloc);
    store.declare(&pool, &Context::new(alloc), one)?;
    store.declare(&pool, &Context::new(alloc), one)?;
    assert_eq!(rt; store.reaches(alloc, &pool, zero, 1), Ok(true));
    assert_eq!(rt; store.reaches(alloc, &pool, one, 0), Ok(false));
    Ok(())
}

// A term of so many applications, each of the one before to itself.
#[tactic(auto, using(mt_pool::proofs::Region::kept))]
fn doubled(pool: &mut Pool, t: TermId, times: usize) -> Result<TermId, OutOfMemory>
    requires { t.at < length pool.old }
    ensures { IfOk result (λ u. u.at < length pool.new) }
{
    let mut t = t;
    for _ in 0..times {
        t = pool.put(Node::App(t, t))?;
    }
    Ok(t)
}

#[test]
#[tactic(auto, using(mt_store::proofs::HeldLaws::store_rules, mt_pool::proofs::Region::kept))]
fn a_shared_part_is_gone_through_once(rt: HostRuntime) -> Result<(), Fail> {
    let alloc = rt.alloc();
    let mut pool = Pool::new(alloc);
    let zero = pool.put(Node::Meta(0, TermIds::End))?;
    let t = doubled(&mut pool, zero, 200)?;
    let mut store = Store::new(alloc);
    assert_eq!(rt; store.reaches(alloc, &pool, t, 0), Ok(true));
    assert_eq!(rt; store.reaches(alloc, &pool, t, 1), Ok(false));
    Ok(())
}

#[test]
#[tactic(auto, using(mt_store::proofs::HeldLaws::store_rules, mt_pool::proofs::Region::kept))]
fn a_store_as_trees(rt: HostRuntime) -> Result<(), Fail> {
    let alloc = rt.alloc();
    let mut pool = Pool::new(alloc);
    let prop = pool.put(Node::Sort(Sort::Prop))?;
    let one = pool.put(Node::Meta(1, TermIds::End))?;
    let mut store = two_open(alloc, &pool, prop)?;
    if store.is_open(0) {
        store.assign(&pool, 0, one)?;
    }
    let plain = store.plain(alloc, &pool)?;
    assert_eq!(rt; plain.metas.len(), 2);
    let bodies = (has_body(&plain, 0), has_body(&plain, 1));
    assert_eq!(rt; bodies, (Some(true), Some(false)));
    Ok(())
}

fn has_body(store: &PlainStore, n: usize) -> Option<bool> {
    let meta = store.metas.get(n)?;
    Some(meta.body.is_some())
}
