// Lifting.
ghost use Rattle.std.specs.Prelude.{◌≡◌, IfOk};
ghost use Rattle.mt_term.specs.Passing.{lift_past, lift_past_all, lift_past_arms};
ghost use Rattle.mt_term.specs.Lifting.{lift};
ghost use Rattle.mt_term.specs.TreeOf.{tree_of, trees_of, arms_of};

use crate::depth::{MAX_DEPTH, deeper, past};
use crate::terms::{Branch, Branches, Term, Terms};
use std::alloc::{AllocError, Global};

/// The term with its variables from `from` on raised by `by`. An index past the largest number
/// counts as want of memory.
#[tactic(auto, using(crate::proofs::Passed::lift_passed))]
pub fn lift(alloc: Global, t: &Term, by: usize, from: usize) -> Result<Term, AllocError>
    ensures { IfOk result (λ u. tree_of u ≡ lift by from (tree_of t.now)) }
{
    lift_within(alloc, t, by, from, MAX_DEPTH)
}

#[cycle(lift)]
pub(crate) fn lift_within(
    alloc: Global,
    t: &Term,
    by: usize,
    from: usize,
    depth_left: usize,
) -> Result<Term, AllocError>
    ensures { IfOk result (λ u. tree_of u ≡ lift_past by from (tree_of t.now)) }
{
    let depth_left = deeper(depth_left)?;
    match t {
        Term::Var(i) => Ok(Term::Var(if *i < from { *i } else { past(*i, by)? })),
        Term::Sort(s) => Ok(Term::Sort(s.clone()?)),
        Term::Prod(x, a, b) => {
            let x = x.clone()?;
            let a = Box::new(alloc, lift_within(alloc, a, by, from, depth_left)?)?;
            let b = Box::new(
                alloc,
                lift_within(alloc, b, by, past(from, 1)?, depth_left)?,
            )?;
            Ok(Term::Prod(x, a, b))
        }
        Term::Lam(x, a, b) => {
            let x = x.clone()?;
            let a = Box::new(alloc, lift_within(alloc, a, by, from, depth_left)?)?;
            let b = Box::new(
                alloc,
                lift_within(alloc, b, by, past(from, 1)?, depth_left)?,
            )?;
            Ok(Term::Lam(x, a, b))
        }
        Term::App(f, a) => {
            let f = Box::new(alloc, lift_within(alloc, f, by, from, depth_left)?)?;
            let a = Box::new(alloc, lift_within(alloc, a, by, from, depth_left)?)?;
            Ok(Term::App(f, a))
        }
        Term::Const(n) => Ok(Term::Const(*n)),
        Term::Ind(n) => Ok(Term::Ind(*n)),
        Term::Con(n, k) => Ok(Term::Con(*n, *k)),
        Term::Match(n, r, c, bs) => {
            let r = Box::new(alloc, lift_within(alloc, r, by, from, depth_left)?)?;
            let c = Box::new(alloc, lift_within(alloc, c, by, from, depth_left)?)?;
            let bs = lift_branches(alloc, bs, by, from, depth_left)?;
            Ok(Term::Match(*n, r, c, bs))
        }
        Term::Meta(n, s) => Ok(Term::Meta(*n, lift_terms(alloc, s, by, from, depth_left)?)),
    }
}

#[cycle(lift)]
fn lift_terms(
    alloc: Global,
    ts: &Terms,
    by: usize,
    from: usize,
    depth_left: usize,
) -> Result<Terms, AllocError>
    ensures { IfOk result (λ us. trees_of us ≡ lift_past_all by from (trees_of ts.now)) }
{
    let depth_left = deeper(depth_left)?;
    match ts {
        Terms::End => Ok(Terms::End),
        Terms::Item(t, ts) => {
            let t = Box::new(alloc, lift_within(alloc, t, by, from, depth_left)?)?;
            let ts = Box::new(alloc, lift_terms(alloc, ts, by, from, depth_left)?)?;
            Ok(Terms::Item(t, ts))
        }
    }
}

#[cycle(lift)]
fn lift_branches(
    alloc: Global,
    bs: &Branches,
    by: usize,
    from: usize,
    depth_left: usize,
) -> Result<Branches, AllocError>
    ensures { IfOk result (λ cs. arms_of cs ≡ lift_past_arms by from (arms_of bs.now)) }
{
    let depth_left = deeper(depth_left)?;
    match bs {
        Branches::End => Ok(Branches::End),
        Branches::Item(b, bs) => {
            let branch = b;
            let names = branch.names.clone()?;
            let inner = past(from, branch.names.len())?;
            let body = lift_within(alloc, &branch.body, by, inner, depth_left)?;
            let b = Box::new(alloc, Branch { names, body })?;
            let bs = Box::new(alloc, lift_branches(alloc, bs, by, from, depth_left)?)?;
            Ok(Branches::Item(b, bs))
        }
    }
}
