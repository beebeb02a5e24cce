// Marks, copies and trees of an environment.
use mt_env::{Env, Ref};
use mt_pool::Pool;
use mt_term::{Cons, Constructor, Entry, Name, Sort, Term};
use std::alloc::{AllocError, Global};
use std::test::Fail;

fn axiom(alloc: Global, name: &[u8], ty: Term) -> Result<Entry, AllocError> {
    Ok(Entry::Axiom {
        name: Name::from_bytes(alloc, name)?,
        ty,
    })
}

// An inductive type with two constructors, by their names.
fn pair(alloc: Global, name: &[u8], first: &[u8], second: &[u8]) -> Result<Entry, AllocError> {
    let mut cons = Cons::new(alloc);
    for name in [first, second] {
        cons.push(Constructor {
            name: Name::from_bytes(alloc, name)?,
            ty: Term::Ind(0),
        })?;
    }
    Ok(Entry::Inductive {
        name: Name::from_bytes(alloc, name)?,
        co: false,
        params: 0,
        ty: Term::Sort(Sort::Prop),
        cons,
        large: false,
    })
}

fn found(alloc: Global, env: &Env, name: &[u8]) -> Result<Option<Ref>, AllocError> {
    Ok(env.find(&Name::from_bytes(alloc, name)?))
}

#[test]
fn a_mark_is_gone_back_to(rt: HostRuntime) -> Result<(), Fail> {
    let alloc = rt.alloc();
    let mut pool = Pool::new(alloc);
    let mut env = Env::new(alloc);
    let mark = env.mark();
    env.add(alloc, &mut pool, &pair(alloc, b"or2", b"l", b"r")?)?;
    assert!(rt; mark.entries <= env.len() && mark.constraints <= env.graph().count());
    env.back_to(&mark);
    assert_eq!(rt; env.len(), 0);
    assert_eq!(rt; found(alloc, &env, b"l")?, None);
    Ok(())
}

#[test]
fn a_copy_is_equal_and_goes_its_own_way(rt: HostRuntime) -> Result<(), Fail> {
    let alloc = rt.alloc();
    let mut pool = Pool::new(alloc);
    let mut env = Env::new(alloc);
    env.add(alloc, &mut pool, &pair(alloc, b"or2", b"l", b"r")?)?;
    let mut copy = env.copy(alloc)?;
    copy.add(alloc, &mut pool, &axiom(alloc, b"x", Term::Ind(0))?)?;
    assert!(rt; copy.len() == 2 && env.len() == 1);
    assert_eq!(rt; found(alloc, &copy, b"l")?, Some(Ref::Con(0, 0)));
    assert_eq!(rt; found(alloc, &env, b"x")?, None);
    Ok(())
}

#[test]
fn an_environment_as_trees(rt: HostRuntime) -> Result<(), Fail> {
    let alloc = rt.alloc();
    let mut pool = Pool::new(alloc);
    let mut env = Env::new(alloc);
    env.add(alloc, &mut pool, &pair(alloc, b"or2", b"l", b"r")?)?;
    let mark = env.mark();
    let plain = env.plain(alloc, &pool, &mark)?;
    assert_eq!(rt; plain.entries.len(), 1);
    assert!(rt; env.type_of(Ref::Ind(0)).at < pool.len());
    Ok(())
}
