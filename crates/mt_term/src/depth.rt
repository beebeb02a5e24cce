// How deep a term may be, so that what goes down one never overruns the machine's stack.
ghost use Rattle.std.specs.Prelude.{◌≡◌, ◌+◌, ◌≤◌, ◌<◌, IfOk, MatchBool};
ghost use Rattle.mt_term.specs.Depth.{depth, depth_all, depth_arms};
ghost use Rattle.mt_term.specs.TreeOf.{tree_of, trees_of, arms_of};

use crate::terms::{Branches, Term, Terms};
use std::alloc::AllocError;

/// How deep a term made by this crate may be. On a stack of 8 MiB a substitution goes down three
/// times as deep, and a drop and a comparison fifteen times.
pub const MAX_DEPTH: usize = 2000;

/// The depth that is left one step further down. Where there is none, memory is wanting.
pub fn deeper(depth_left: usize) -> Result<usize, AllocError>
    ensures { IfOk result (λ left. left + 1 ≡ depth_left) }
{
    if depth_left == 0 {
        return Err(AllocError);
    }
    Ok(depth_left - 1)
}

/// An index past further binders. Where no number is so large, memory is wanting.
pub(crate) fn past(index: usize, binders: usize) -> Result<usize, AllocError>
    ensures { IfOk result (λ further. further ≡ index + binders) }
{
    index.checked_add(binders).ok_or(AllocError)
}

/// Whether a term is no deeper than so many steps. One that is put together by hand may be deeper
/// than `MAX_DEPTH`.
#[cycle(depth)]
pub fn is_within(t: &Term, depth_left: usize) -> bool
    ensures { MatchBool result (depth (tree_of t.now) ≤ depth_left) (depth_left < depth (tree_of t.now)) }
{
    if depth_left == 0 {
        return false;
    }
    let depth_left = depth_left - 1;
    match t {
        Term::Var(_) | Term::Sort(_) | Term::Const(_) | Term::Ind(_) | Term::Con(_, _) => true,
        Term::Prod(_, a, b) => is_within(a, depth_left) && is_within(b, depth_left),
        Term::Lam(_, a, b) => is_within(a, depth_left) && is_within(b, depth_left),
        Term::App(f, a) => is_within(f, depth_left) && is_within(a, depth_left),
        Term::Match(_, r, c, bs) => {
            is_within(r, depth_left)
                && is_within(c, depth_left)
                && are_branches_within(bs, depth_left)
        }
        Term::Meta(_, ts) => are_terms_within(ts, depth_left),
    }
}

#[cycle(depth)]
fn are_terms_within(ts: &Terms, depth_left: usize) -> bool
    ensures { MatchBool result (depth_all (trees_of ts.now) ≤ depth_left)
        (depth_left < depth_all (trees_of ts.now)) }
{
    if depth_left == 0 {
        return false;
    }
    match ts {
        Terms::End => true,
        Terms::Item(t, ts) => is_within(t, depth_left - 1) && are_terms_within(ts, depth_left - 1),
    }
}

#[cycle(depth)]
fn are_branches_within(bs: &Branches, depth_left: usize) -> bool
    ensures { MatchBool result (depth_arms (arms_of bs.now) ≤ depth_left)
        (depth_left < depth_arms (arms_of bs.now)) }
{
    if depth_left == 0 {
        return false;
    }
    match bs {
        Branches::End => true,
        Branches::Item(b, bs) => {
            let branch = b;
            is_within(&branch.body, depth_left - 1) && are_branches_within(bs, depth_left - 1)
        }
    }
}
