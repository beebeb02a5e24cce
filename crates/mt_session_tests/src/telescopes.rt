// Terms closed over contexts; the laws.

use mt_decl::{
    Telescope, abstraction_over, declared_by_allowance, declared_is_sound,
    declared_keeps_names_distinct, generalization_over, result_sort,
};
use mt_term::{MAX_DEPTH, Name, OutOfMemory, Sort, Term, alike};
use std::alloc::Global;
use std::test::Fail;

#[test]
fn laws(_rt: HostRuntime) {
    declared_is_sound();
    declared_by_allowance();
    declared_keeps_names_distinct();
}

fn prop() -> Term {
    Term::Sort(Sort::Prop)
}

fn lam(alloc: Global, ty: Term, body: Term) -> Result<Term, OutOfMemory> {
    let ty = Box::new(alloc, ty)?;
    let body = Box::new(alloc, body)?;
    Ok(Term::Lam(Name::new(alloc), ty, body))
}

fn prod(alloc: Global, domain: Term, codomain: Term) -> Result<Term, OutOfMemory> {
    let domain = Box::new(alloc, domain)?;
    let codomain = Box::new(alloc, codomain)?;
    Ok(Term::Prod(Name::new(alloc), domain, codomain))
}

// Under `A:Prop` and then `x:A`, the term `x` and the type `A`.
#[test]
fn closed_terms(rt: HostRuntime) -> Result<(), Fail> {
    let alloc = rt.alloc();
    let name = Name::new(alloc);
    let older = prop();
    let newer = Term::Var(0);
    let empty = Telescope::Empty;
    let one = Telescope::More(&name, &older, &empty);
    let two = Telescope::More(&name, &newer, &one);
    let term = abstraction_over(alloc, &two, Term::Var(0), MAX_DEPTH)?;
    let wanted = lam(alloc, prop(), lam(alloc, Term::Var(0), Term::Var(0))?)?;
    assert_eq!(rt; alike(&term, &wanted), true);
    let ty = generalization_over(alloc, &two, Term::Var(1), MAX_DEPTH)?;
    let wanted = prod(alloc, prop(), prod(alloc, Term::Var(0), Term::Var(1))?)?;
    assert_eq!(rt; alike(&ty, &wanted), true);
    Ok(())
}

#[test]
fn ends_of_arities(rt: HostRuntime) -> Result<(), Fail> {
    let alloc = rt.alloc();
    let arity = prod(alloc, Term::Const(0), prod(alloc, Term::Var(0), prop())?)?;
    assert_eq!(rt; result_sort(&arity, MAX_DEPTH)?.is_some(), true);
    let none = prod(alloc, Term::Const(0), Term::Var(0))?;
    assert_eq!(rt; result_sort(&none, MAX_DEPTH)?.is_some(), false);
    Ok(())
}
