// What a substitution puts in for a variable.
ghost use Rattle.std.specs.Prelude.{◌≡◌, ◌-◌, ◌≤◌, ◌<◌, ℕ, List, length, IfOk};
ghost use Rattle.mt_term.specs.Passing.{lift_past};
ghost use Rattle.mt_term.specs.Substitution.{fill};
ghost use Rattle.mt_term.specs.Trees.{Tree};
ghost use Rattle.mt_pool.specs.Region.{trees_at, AllBelow, Kept, Denotes};
ghost use Rattle.mt_pool.specs.Replaced.{at_place, replacement_in, PlaceBelow, ReplacementBelow};

use crate::copies::past;
use crate::nodes::{Node, TermId};
use crate::pools::Pool;
use mt_term::{OutOfMemory, Sort};
use std::alloc::Global;

// One term for variable 0, with the others going down by one; or terms, the oldest first, for as
// many variables, and for those past them Prop or what is left of them.
#[derive(Clone, Copy)]
pub(crate) enum Replacement<'a> {
    One(TermId),
    Under(&'a [TermId]),
    Filled(&'a [TermId]),
}

// The term that stands for a variable, or how far past them all it is.
#[derive(Clone, Copy)]
enum Place {
    Found(TermId),
    Past(usize),
}

// The newest term stands for variable 0.
fn find(ids: &[TermId], i: usize) -> Place
    ensures tree { (p : List Tree) → (σ : ℕ → Tree) → fill (trees_at p ids.now) σ i ≡ at_place p σ result }
    ensures below { (n : ℕ) → AllBelow n ids.now → PlaceBelow n result }
{
    if i < ids.len() {
        Place::Found(ids[ids.len() - 1 - i])
    } else {
        Place::Past(i - ids.len())
    }
}

impl Pool {
    // What stands for a free variable, lifted by the binders passed.
    #[tactic(auto, using(crate::proofs::Region::kept))]
    pub(crate) fn term_for_variable(
        &mut self,
        alloc: Global,
        by: Replacement<'_>,
        i: usize,
        binders: usize,
        depth_left: usize,
    ) -> Result<TermId, OutOfMemory>
        requires past { binders ≤ i }
        requires held { ReplacementBelow (length self.old) by }
        ensures kept { Kept self.old self.new }
        ensures tree { IfOk result (λ u. Denotes self.new u (lift_past binders 0 (replacement_in self.old by.entry (i - binders)))) }
    {
        let free = i - binders;
        match by {
            Replacement::One(u) => {
                if free == 0 {
                    self.lift_within(alloc, u, binders, 0, depth_left)
                } else {
                    self.put(Node::Var(i - 1))
                }
            }
            Replacement::Under(ids) => match find(ids, free) {
                Place::Found(u) => self.lift_within(alloc, u, binders, 0, depth_left),
                Place::Past(_) => self.put(Node::Sort(Sort::Prop)),
            },
            Replacement::Filled(ids) => match find(ids, free) {
                Place::Found(u) => self.lift_within(alloc, u, binders, 0, depth_left),
                Place::Past(further) => self.put(Node::Var(past(further, binders)?)),
            },
        }
    }
}
