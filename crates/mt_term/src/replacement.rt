// What a substitution puts in for a variable.
ghost use Rattle.std.specs.Prelude.{◌≡◌, ◌-◌, ◌≤◌, ℕ, IfOk};
ghost use Rattle.mt_term.specs.Passing.{lift_past};
ghost use Rattle.mt_term.specs.Replaced.{at_place, replacement};
ghost use Rattle.mt_term.specs.Substitution.{fill};
ghost use Rattle.mt_term.specs.Trees.{Tree};
ghost use Rattle.mt_term.specs.TreeOf.{tree_of, trees_of};

use crate::depth::{MAX_DEPTH, deeper, past};
use crate::lifting::lift_within;
use crate::terms::{Term, Terms};
use crate::universes::Sort;
use std::alloc::{AllocError, Global};

// One term for variable 0, with the others going down by one; or terms, the oldest first, for as
// many variables, and for those past them Prop or what is left of them.
#[derive(Clone, Copy)]
pub(crate) enum Replacement<'a> {
    One(&'a Term),
    Under(&'a Terms),
    Filled(&'a Terms),
}

// The term that stands for a variable, or how far past them all it is.
#[derive(Clone, Copy)]
enum Place<'a> {
    Found(&'a Term),
    Past(usize),
}

// The newest term stands for variable 0.
fn find(ts: &Terms, i: usize, depth_left: usize) -> Result<Place<'_>, AllocError>
    ensures { IfOk result (λ p. (σ : ℕ → Tree) → fill (trees_of ts.now) σ i ≡ at_place σ p) }
{
    let depth_left = deeper(depth_left)?;
    match ts {
        Terms::End => Ok(Place::Past(i)),
        Terms::Item(t, ts) => match find(ts, i, depth_left)? {
            Place::Found(u) => Ok(Place::Found(u)),
            Place::Past(0) => Ok(Place::Found(t)),
            Place::Past(further) => Ok(Place::Past(further - 1)),
        },
    }
}

// What stands for a free variable, lifted by the binders passed.
pub(crate) fn term_for_variable(
    alloc: Global,
    by: Replacement<'_>,
    i: usize,
    binders: usize,
    depth_left: usize,
) -> Result<Term, AllocError>
    requires { binders ≤ i }
    ensures { IfOk result (λ u. tree_of u ≡ lift_past binders 0 (replacement by.entry (i - binders))) }
{
    let free = i - binders;
    match by {
        Replacement::One(u) => {
            if free == 0 {
                lift_within(alloc, u, binders, 0, depth_left)
            } else {
                Ok(Term::Var(i - 1))
            }
        }
        Replacement::Under(ts) => match find(ts, free, MAX_DEPTH)? {
            Place::Found(u) => lift_within(alloc, u, binders, 0, depth_left),
            Place::Past(_) => Ok(Term::Sort(Sort::Prop)),
        },
        Replacement::Filled(ts) => match find(ts, free, MAX_DEPTH)? {
            Place::Found(u) => lift_within(alloc, u, binders, 0, depth_left),
            Place::Past(further) => Ok(Term::Var(past(further, binders)?)),
        },
    }
}
