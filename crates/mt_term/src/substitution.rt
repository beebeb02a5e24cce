// Substitution.
ghost use Rattle.std.specs.Prelude.{◌≡◌, zero, IfOk};
ghost use Rattle.mt_term.specs.Passing.{sub_past, sub_past_all, sub_past_arms};
ghost use Rattle.mt_term.specs.Replaced.{replacement};
ghost use Rattle.mt_term.specs.Substitution.{fill, sub, under};
ghost use Rattle.mt_term.specs.Lifting.{substitute};
ghost use Rattle.mt_term.specs.Trees.{Var};
ghost use Rattle.mt_term.specs.TreeOf.{tree_of, trees_of, arms_of};

use crate::depth::{MAX_DEPTH, deeper, past};
use crate::replacement::{Replacement, term_for_variable};
use crate::terms::{Branch, Branches, Term, Terms};
use std::alloc::{AllocError, Global};

/// The term with `u` for variable `at`, lifted by all that it passes, and the variables past `at`
/// going down by one. An index past the largest number counts as want of memory.
#[tactic(auto, using(crate::proofs::Passed::substitute_passed))]
pub fn substitute(alloc: Global, t: &Term, at: usize, u: &Term) -> Result<Term, AllocError>
    ensures { IfOk result (λ v. tree_of v ≡ substitute at (tree_of u.now) (tree_of t.now)) }
{
    substitute_within(alloc, t, at, Replacement::One(u), MAX_DEPTH)
}

/// The term with the terms of `s`, the oldest first, for its free variables, each lifted by all
/// that it passes. Prop stands for a variable past them. An index past the largest number counts as
/// want of memory.
#[tactic(auto, using(crate::proofs::Passed::under_passed))]
pub fn under(alloc: Global, t: &Term, s: &Terms) -> Result<Term, AllocError>
    ensures { IfOk result (λ v. tree_of v ≡ under (trees_of s.now) (tree_of t.now)) }
{
    substitute_within(alloc, t, 0, Replacement::Under(s), MAX_DEPTH)
}

/// A branch's body with the terms of `s`, the oldest first, for its newest variables, the others
/// going down by as many. An index past the largest number counts as want of memory.
#[tactic(auto, using(crate::proofs::Passed::filled_passed))]
pub fn fill(alloc: Global, t: &Term, s: &Terms) -> Result<Term, AllocError>
    ensures { IfOk result (λ v. tree_of v ≡ sub (fill (trees_of s.now) Var) (tree_of t.now)) }
{
    substitute_within(alloc, t, 0, Replacement::Filled(s), MAX_DEPTH)
}

#[cycle(substitute)]
fn substitute_within(
    alloc: Global,
    t: &Term,
    binders: usize,
    by: Replacement<'_>,
    depth_left: usize,
) -> Result<Term, AllocError>
    ensures { IfOk result (λ v. tree_of v ≡ sub_past binders (replacement by.entry) (tree_of t.now)) }
{
    let depth_left = deeper(depth_left)?;
    match t {
        Term::Var(i) => {
            if *i < binders {
                Ok(Term::Var(*i))
            } else {
                term_for_variable(alloc, by, *i, binders, depth_left)
            }
        }
        Term::Sort(s) => Ok(Term::Sort(s.clone()?)),
        Term::Prod(x, a, b) => {
            let x = x.clone()?;
            let a = Box::new(alloc, substitute_within(alloc, a, binders, by, depth_left)?)?;
            let b = Box::new(
                alloc,
                substitute_within(alloc, b, past(binders, 1)?, by, depth_left)?,
            )?;
            Ok(Term::Prod(x, a, b))
        }
        Term::Lam(x, a, b) => {
            let x = x.clone()?;
            let a = Box::new(alloc, substitute_within(alloc, a, binders, by, depth_left)?)?;
            let b = Box::new(
                alloc,
                substitute_within(alloc, b, past(binders, 1)?, by, depth_left)?,
            )?;
            Ok(Term::Lam(x, a, b))
        }
        Term::App(f, a) => {
            let f = Box::new(alloc, substitute_within(alloc, f, binders, by, depth_left)?)?;
            let a = Box::new(alloc, substitute_within(alloc, a, binders, by, depth_left)?)?;
            Ok(Term::App(f, a))
        }
        Term::Const(n) => Ok(Term::Const(*n)),
        Term::Ind(n) => Ok(Term::Ind(*n)),
        Term::Con(n, k) => Ok(Term::Con(*n, *k)),
        Term::Match(n, r, c, bs) => {
            let r = Box::new(alloc, substitute_within(alloc, r, binders, by, depth_left)?)?;
            let c = Box::new(alloc, substitute_within(alloc, c, binders, by, depth_left)?)?;
            let bs = substitute_branches(alloc, bs, binders, by, depth_left)?;
            Ok(Term::Match(*n, r, c, bs))
        }
        Term::Meta(n, s) => Ok(Term::Meta(
            *n,
            substitute_terms(alloc, s, binders, by, depth_left)?,
        )),
    }
}

#[cycle(substitute)]
fn substitute_terms(
    alloc: Global,
    ts: &Terms,
    binders: usize,
    by: Replacement<'_>,
    depth_left: usize,
) -> Result<Terms, AllocError>
    ensures { IfOk result (λ us. trees_of us ≡ sub_past_all binders (replacement by.entry) (trees_of ts.now)) }
{
    let depth_left = deeper(depth_left)?;
    match ts {
        Terms::End => Ok(Terms::End),
        Terms::Item(t, ts) => {
            let t = Box::new(alloc, substitute_within(alloc, t, binders, by, depth_left)?)?;
            let ts = Box::new(alloc, substitute_terms(alloc, ts, binders, by, depth_left)?)?;
            Ok(Terms::Item(t, ts))
        }
    }
}

#[cycle(substitute)]
fn substitute_branches(
    alloc: Global,
    bs: &Branches,
    binders: usize,
    by: Replacement<'_>,
    depth_left: usize,
) -> Result<Branches, AllocError>
    ensures { IfOk result (λ cs. arms_of cs ≡ sub_past_arms binders (replacement by.entry) (arms_of bs.now)) }
{
    let depth_left = deeper(depth_left)?;
    match bs {
        Branches::End => Ok(Branches::End),
        Branches::Item(b, bs) => {
            let branch = b;
            let names = branch.names.clone()?;
            let inner = past(binders, branch.names.len())?;
            let body = substitute_within(alloc, &branch.body, inner, by, depth_left)?;
            let b = Box::new(alloc, Branch { names, body })?;
            let bs = Box::new(
                alloc,
                substitute_branches(alloc, bs, binders, by, depth_left)?,
            )?;
            Ok(Branches::Item(b, bs))
        }
    }
}
