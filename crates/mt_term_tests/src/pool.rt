// Lifting and substitution on ids, and the bound on depth.
ghost use Rattle.std.specs.Prelude.{◌<◌, length, IfOk};
ghost use Rattle.mt_pool.specs.Region.{Kept};

use mt_pool::{Node, Pool, TermId};
use mt_term::{Atoms, Sort, Term, UnivExpr, alike};
use std::alloc::{AllocError, Global};
use std::test::Fail;

fn type_of_level(alloc: Global, base: u32) -> Term {
    Term::Sort(Sort::Typ(UnivExpr {
        base,
        atoms: Atoms::new(alloc),
    }))
}

fn app(alloc: Global, f: Term, a: Term) -> Result<Term, AllocError> {
    Ok(Term::App(Box::new(alloc, f)?, Box::new(alloc, a)?))
}

// Whether an id names a tree alike to the term.
fn says(alloc: Global, pool: &Pool, id: TermId, t: &Term) -> Result<bool, AllocError> {
    if pool.len() <= id.at {
        return Ok(false);
    }
    let exported = pool.export(alloc, id)?;
    Ok(alike(&exported, t))
}

// So many applications, each of the one before.
#[tactic(auto, using(mt_pool::proofs::Region::kept))]
fn tower(pool: &mut Pool, applications: usize) -> Result<TermId, AllocError>
    ensures kept { Kept pool.old pool.new }
    ensures held { IfOk result (λ id. id.at < length pool.new) }
{
    let leaf = pool.put(Node::Var(0))?;
    let mut top = leaf;
    for _ in 0..applications {
        top = pool.put(Node::App(top, leaf))?;
    }
    Ok(top)
}

#[test]
#[tactic(auto, using(mt_pool::proofs::Region::kept))]
fn trees_are_at_most_2_000_deep(rt: HostRuntime) -> Result<(), Fail> {
    let mut pool = Pool::new(rt.alloc());
    assert!(rt; tower(&mut pool, 2001).is_err());
    let t = tower(&mut pool, 1990)?;
    let u = tower(&mut pool, 1990)?;
    assert!(rt; pool.alike(t, u) && pool.depth(t) == 1991);
    Ok(())
}

#[test]
#[tactic(auto, using(mt_pool::proofs::Region::kept))]
fn lifting_as_on_trees(rt: HostRuntime) -> Result<(), Fail> {
    let alloc = rt.alloc();
    let mut pool = Pool::new(alloc);
    let x = pool.import(alloc, &Term::Var(0))?;
    let up = pool.lift(alloc, x, 2, 0)?;
    assert!(rt; says(alloc, &pool, up, &Term::Var(2))?);
    let same = pool.lift(alloc, x, 2, 1)?;
    assert!(rt; says(alloc, &pool, same, &Term::Var(0))?);
    let held = pool.len();
    assert!(rt; pool.lift(alloc, up, usize::MAX, 0).is_err());
    assert_eq!(rt; pool.len(), held);
    Ok(())
}

// The application of variable 0 to variable 1.
#[tactic(auto, using(mt_pool::proofs::Region::kept))]
fn variables(alloc: Global, pool: &mut Pool) -> Result<TermId, AllocError>
    ensures kept { Kept pool.old pool.new }
    ensures held { IfOk result (λ id. id.at < length pool.new) }
{
    let t = app(alloc, Term::Var(0), Term::Var(1))?;
    pool.import(alloc, &t)
}

#[test]
#[tactic(auto, using(mt_pool::proofs::Region::kept))]
fn substitution_as_on_trees(rt: HostRuntime) -> Result<(), Fail> {
    let alloc = rt.alloc();
    let mut pool = Pool::new(alloc);
    let t = variables(alloc, &mut pool)?;
    let prop = pool.put(Node::Sort(Sort::Prop))?;
    let made = pool.substitute(alloc, t, 0, prop)?;
    let wanted = app(alloc, Term::Sort(Sort::Prop), Term::Var(0))?;
    assert!(rt; says(alloc, &pool, made, &wanted)?);
    Ok(())
}

#[test]
#[tactic(auto, using(mt_pool::proofs::Region::kept))]
fn terms_for_variables_as_on_trees(rt: HostRuntime) -> Result<(), Fail> {
    let alloc = rt.alloc();
    let mut pool = Pool::new(alloc);
    let t = variables(alloc, &mut pool)?;
    let prop = pool.put(Node::Sort(Sort::Prop))?;
    let level = pool.import(alloc, &type_of_level(alloc, 0))?;
    let made = pool.under(alloc, t, &[prop, level])?;
    let wanted = app(alloc, type_of_level(alloc, 0), Term::Sort(Sort::Prop))?;
    assert!(rt; says(alloc, &pool, made, &wanted)?);
    Ok(())
}

#[test]
#[tactic(auto, using(mt_pool::proofs::Region::kept))]
fn a_body_is_filled(rt: HostRuntime) -> Result<(), Fail> {
    let alloc = rt.alloc();
    let mut pool = Pool::new(alloc);
    let t = variables(alloc, &mut pool)?;
    let prop = pool.put(Node::Sort(Sort::Prop))?;
    let made = pool.fill(alloc, t, &[prop])?;
    let wanted = app(alloc, Term::Sort(Sort::Prop), Term::Var(0))?;
    assert!(rt; says(alloc, &pool, made, &wanted)?);
    Ok(())
}
