// Copies of terms.
ghost use Rattle.std.specs.Prelude.{◌≡◌, IfOk};
ghost use Rattle.mt_term.specs.TreeOf.{tree_of, trees_of, arms_of};

use crate::depth::{MAX_DEPTH, deeper};
use crate::terms::{Branch, Branches, Term, Terms};
use std::alloc::{AllocError, Global};

/// A copy of a term.
pub fn copy(alloc: Global, t: &Term) -> Result<Term, AllocError>
    ensures { IfOk result (λ u. tree_of u ≡ tree_of t.now) }
{
    copy_within(alloc, t, MAX_DEPTH)
}

/// A copy of the terms of a metavariable.
pub fn copy_terms(alloc: Global, ts: &Terms) -> Result<Terms, AllocError>
    ensures { IfOk result (λ us. trees_of us ≡ trees_of ts.now) }
{
    copy_terms_within(alloc, ts, MAX_DEPTH)
}

/// A copy of the branches of a match.
pub fn copy_branches(alloc: Global, bs: &Branches) -> Result<Branches, AllocError>
    ensures { IfOk result (λ cs. arms_of cs ≡ arms_of bs.now) }
{
    copy_branches_within(alloc, bs, MAX_DEPTH)
}

#[cycle(copy)]
fn copy_within(alloc: Global, t: &Term, depth_left: usize) -> Result<Term, AllocError>
    ensures { IfOk result (λ u. tree_of u ≡ tree_of t.now) }
{
    let depth_left = deeper(depth_left)?;
    match t {
        Term::Var(i) => Ok(Term::Var(*i)),
        Term::Sort(s) => Ok(Term::Sort(s.clone()?)),
        Term::Prod(x, a, b) => {
            let x = x.clone()?;
            let a = Box::new(alloc, copy_within(alloc, a, depth_left)?)?;
            let b = Box::new(alloc, copy_within(alloc, b, depth_left)?)?;
            Ok(Term::Prod(x, a, b))
        }
        Term::Lam(x, a, b) => {
            let x = x.clone()?;
            let a = Box::new(alloc, copy_within(alloc, a, depth_left)?)?;
            let b = Box::new(alloc, copy_within(alloc, b, depth_left)?)?;
            Ok(Term::Lam(x, a, b))
        }
        Term::App(f, a) => {
            let f = Box::new(alloc, copy_within(alloc, f, depth_left)?)?;
            let a = Box::new(alloc, copy_within(alloc, a, depth_left)?)?;
            Ok(Term::App(f, a))
        }
        Term::Const(n) => Ok(Term::Const(*n)),
        Term::Ind(n) => Ok(Term::Ind(*n)),
        Term::Con(n, k) => Ok(Term::Con(*n, *k)),
        Term::Match(n, r, c, bs) => {
            let r = Box::new(alloc, copy_within(alloc, r, depth_left)?)?;
            let c = Box::new(alloc, copy_within(alloc, c, depth_left)?)?;
            let bs = copy_branches_within(alloc, bs, depth_left)?;
            Ok(Term::Match(*n, r, c, bs))
        }
        Term::Meta(n, s) => Ok(Term::Meta(*n, copy_terms_within(alloc, s, depth_left)?)),
    }
}

#[cycle(copy)]
fn copy_terms_within(alloc: Global, ts: &Terms, depth_left: usize) -> Result<Terms, AllocError>
    ensures { IfOk result (λ us. trees_of us ≡ trees_of ts.now) }
{
    let depth_left = deeper(depth_left)?;
    match ts {
        Terms::End => Ok(Terms::End),
        Terms::Item(t, ts) => {
            let t = Box::new(alloc, copy_within(alloc, t, depth_left)?)?;
            let ts = Box::new(alloc, copy_terms_within(alloc, ts, depth_left)?)?;
            Ok(Terms::Item(t, ts))
        }
    }
}

#[cycle(copy)]
fn copy_branches_within(
    alloc: Global,
    bs: &Branches,
    depth_left: usize,
) -> Result<Branches, AllocError>
    ensures { IfOk result (λ cs. arms_of cs ≡ arms_of bs.now) }
{
    let depth_left = deeper(depth_left)?;
    match bs {
        Branches::End => Ok(Branches::End),
        Branches::Item(b, bs) => {
            let branch = b;
            let names = branch.names.clone()?;
            let body = copy_within(alloc, &branch.body, depth_left)?;
            let b = Box::new(alloc, Branch { names, body })?;
            let bs = Box::new(alloc, copy_branches_within(alloc, bs, depth_left)?)?;
            Ok(Branches::Item(b, bs))
        }
    }
}
