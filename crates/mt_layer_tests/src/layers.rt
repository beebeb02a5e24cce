// The parts that layers share, with ample memory.
ghost use Rattle.std.specs.Prelude.{◌≡◌, ◌<◌, length, IfOk};
ghost use Rattle.mt_pool.specs.Region.{Kept};

use mt_env::{Env, EnvStop};
use mt_layers::{
    Work, constructor_type, copy_branches, copy_ids, copy_node, entry, listed_ids,
    type_of_constructor,
};
use mt_pool::{BranchIds, Context, Held, HeldCons, Node, Pool, TermId, TermIds};
use mt_store::Store;
use mt_term::{Cons, Constructor, Entry, Name, OutOfMemory, Sort, Term, Terms};
use mt_text::{Ledger, PlainLedger, Steps};
use std::alloc::{AllocFailed, Global};
use std::sync::ledger::Blank;
use std::test::Fail;

// Whether a first and a second charge are taken, and what is left.
fn charged<L: Ledger>(alloc: Global, left: u64, blank: Blank) -> (bool, bool, u64)
    requires name { blank.name ≡ L.name }
    requires parts { blank.parts ≡ L.parts }
    requires some { 0 < L.parts }
{
    let mut steps = Steps::<L>::new(blank);
    let mut pool = Pool::new(alloc);
    let env = Env::new(alloc);
    let mut store = Store::new(alloc);
    let mut w = Work {
        pool: &mut pool,
        env: &env,
        store: &mut store,
        left,
    };
    let first = w.charge(&mut steps).is_ok();
    let second = w.charge(&mut steps).is_ok();
    (first, second, w.left)
}

fn charged_from(alloc: Global, left: u64) -> (bool, bool, u64) {
    charged::<PlainLedger>(alloc, left, Blank::new(1))
}

#[test]
fn charges_are_taken_while_any_are_left(rt: HostRuntime) {
    assert_eq!(rt; charged_from(rt.alloc(), 0), (false, false, 0));
    assert_eq!(rt; charged_from(rt.alloc(), 1), (true, false, 0));
    assert_eq!(rt; charged_from(rt.alloc(), 9), (true, true, 7));
}

// An axiom and an inductive type with one constructor, both of one type.
fn some_entries(alloc: Global, pool: &mut Pool) -> Result<Env, EnvStop> {
    let mut cons = Cons::new(alloc);
    cons.push(Constructor {
        name: Name::from_bytes(alloc, b"C")?,
        ty: Term::Sort(Sort::Prop),
    })?;
    let axiom = Entry::Axiom {
        name: Name::from_bytes(alloc, b"A")?,
        ty: Term::Sort(Sort::Prop),
    };
    let inductive = Entry::Inductive {
        name: Name::from_bytes(alloc, b"I")?,
        co: false,
        params: 0,
        ty: Term::Sort(Sort::Prop),
        cons,
        large: true,
    };
    let mut env = Env::new(alloc);
    env.add(alloc, pool, &axiom)?;
    env.add(alloc, pool, &inductive)?;
    Ok(env)
}

#[test]
fn entries_are_found_by_number(rt: HostRuntime) -> Result<(), Fail> {
    let alloc = rt.alloc();
    let mut pool = Pool::new(alloc);
    let env = some_entries(alloc, &mut pool)?;
    assert!(rt; matches!(entry(&env, 0), Some(Held::Axiom { .. })));
    assert!(rt; entry(&env, 2).is_none());
    assert!(rt; constructor_type(&env, 1, 0).is_some());
    assert!(rt; constructor_type(&env, 1, 1).is_none());
    assert!(rt; constructor_type(&env, 0, 0).is_none());
    assert!(rt; type_of_constructor(&HeldCons::new(alloc), 0).is_none());
    Ok(())
}

#[test]
fn nodes_are_copied(rt: HostRuntime) -> Result<(), Fail> {
    let alloc = rt.alloc();
    let mut pool = Pool::new(alloc);
    let id = pool.import(alloc, &Term::Con(3, 4))?;
    assert!(rt; matches!(copy_node(alloc, &pool, id)?, Node::Con(3, 4)));
    let ids = copy_ids(alloc, &TermIds::End, 1)?;
    assert!(rt; matches!(ids, TermIds::End));
    let branches = copy_branches(alloc, &BranchIds::End, 1)?;
    assert!(rt; matches!(branches, BranchIds::End));
    Ok(())
}

#[test]
fn ids_keep_their_order(rt: HostRuntime) -> Result<(), Fail> {
    let alloc = rt.alloc();
    let (first, second) = (TermId { at: 5 }, TermId { at: 3 });
    let last = TermIds::Item(second, Box::new(alloc, TermIds::End)?);
    let ids = TermIds::Item(first, Box::new(alloc, last)?);
    let listed = listed_ids(alloc, &ids)?;
    assert_eq!(rt; listed.as_slice(), [first, second].as_slice());
    let copy = copy_ids(alloc, &ids, 3)?;
    assert_eq!(rt; listed_ids(alloc, &copy)?.as_slice(), listed.as_slice());
    assert!(rt; copy_ids(alloc, &ids, 2).is_err());
    Ok(())
}

// The id of the instance of a metavariable without terms whose body is this term.
#[tactic(auto, using(mt_pool::proofs::Region::kept, mt_layers::proofs::Kept::environment_rules, mt_layers::proofs::Kept::added_rules))]
fn instance_of_assigned(alloc: Global, pool: &mut Pool, body: TermId) -> Result<TermId, OutOfMemory>
    requires { body.at < length pool.old }
    ensures kept { Kept pool.old pool.new }
    ensures held { IfOk result (λ u. u.at < length pool.new) }
{
    let t = pool.import(alloc, &Term::Meta(0, Terms::End))?;
    let env = Env::new(alloc);
    let mut store = Store::new(alloc);
    store.declare(pool, &Context::new(alloc), body)?;
    if store.is_open(0) {
        store.assign(pool, 0, body)?;
    }
    let mut w = Work {
        pool: &mut *pool,
        env: &env,
        store: &mut store,
        left: 0,
    };
    w.instance(alloc, t)
}

#[test]
#[tactic(auto, using(mt_pool::proofs::Region::kept))]
fn an_assigned_metavariable_is_its_body(rt: HostRuntime) -> Result<(), Fail> {
    let alloc = rt.alloc();
    let mut pool = Pool::new(alloc);
    let body = pool.import(alloc, &Term::Con(3, 4))?;
    let instance = instance_of_assigned(alloc, &mut pool, body)?;
    assert!(rt; pool.alike(instance, body));
    Ok(())
}
