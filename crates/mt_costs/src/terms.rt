// Terms in short.
use mt_term::{Atoms, Branch, Branches, Name, Names, OutOfMemory, Sort, Term, Terms, UnivExpr};
use std::alloc::{AllocFailed, Global};

pub fn var(i: usize) -> Term {
    Term::Var(i)
}

pub fn ind(e: usize) -> Term {
    Term::Ind(e)
}

pub fn con(e: usize, k: usize) -> Term {
    Term::Con(e, k)
}

pub fn constant(c: usize) -> Term {
    Term::Const(c)
}

pub fn prop() -> Term {
    Term::Sort(Sort::Prop)
}

pub fn typ(alloc: Global, base: u32) -> Term {
    Term::Sort(Sort::Typ(UnivExpr {
        base,
        atoms: Atoms::new(alloc),
    }))
}

/// A metavariable on terms.
pub fn meta(n: usize, terms: Terms) -> Term {
    Term::Meta(n, terms)
}

/// A list of one term.
pub fn one_term(alloc: Global, t: Term) -> Result<Terms, OutOfMemory> {
    let t = Box::new(alloc, t)?;
    let rest = Box::new(alloc, Terms::End)?;
    Ok(Terms::Item(t, rest))
}

pub fn app(alloc: Global, f: Term, a: Term) -> Result<Term, OutOfMemory> {
    let f = Box::new(alloc, f)?;
    let a = Box::new(alloc, a)?;
    Ok(Term::App(f, a))
}

pub fn lam(alloc: Global, ty: Term, body: Term) -> Result<Term, OutOfMemory> {
    let ty = Box::new(alloc, ty)?;
    let body = Box::new(alloc, body)?;
    Ok(Term::Lam(Name::new(alloc), ty, body))
}

pub fn prod(alloc: Global, domain: Term, codomain: Term) -> Result<Term, OutOfMemory> {
    let domain = Box::new(alloc, domain)?;
    let codomain = Box::new(alloc, codomain)?;
    Ok(Term::Prod(Name::new(alloc), domain, codomain))
}

/// A branch under so many variables, before others.
pub fn branch(
    alloc: Global,
    names: usize,
    body: Term,
    rest: Branches,
) -> Result<Branches, OutOfMemory> {
    let mut xs = Names::new(alloc);
    for _ in 0..names {
        xs.push(Name::new(alloc))?;
    }
    let b = Box::new(alloc, Branch { names: xs, body })?;
    let rest = Box::new(alloc, rest)?;
    Ok(Branches::Item(b, rest))
}

/// A match on type `e` with a motive.
pub fn match_on(
    alloc: Global,
    e: usize,
    function: Term,
    matched: Term,
    branches: Branches,
) -> Result<Term, OutOfMemory> {
    let function = Box::new(alloc, function)?;
    let matched = Box::new(alloc, matched)?;
    Ok(Term::Match(e, function, matched, branches))
}
