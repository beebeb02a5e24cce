// Graphs of universes.
ghost use Rattle.std.specs.Prelude.{◌≡◌, ◌<◌, ◌≤◌, ◌↔◌, slice_index, IsTrue, IfOk, OnOk, OnErr, IfErr, length};
ghost use Rattle.std.specs.List.{All};
ghost use Rattle.mt_term.specs.UniverseOrder.{AreLongest};
ghost use Rattle.mt_term.specs.Universes.{Constraints, Satisfiable, IsAtMost};
ghost use Rattle.mt_universe.specs.Graphs.{no_names, number_of, declared, as_at, IsGraph};
ghost use Rattle.mt_universe.specs.Kept.{IsKept};
ghost use Rattle.mt_universe.specs.Tables.{entry};
ghost use Rattle.mt_universe.specs.Refusals.{IsRefusedBy};

use crate::numbers::{add_constraint, copy_names, named_in, number_of, numbers};
use crate::order::at_most;
use crate::paths::{NAMES, clear_tables, extend_heights, extend_paths, length_of, make_tables};
use crate::stops::GraphStop;
use mt_term::{Name, UnivExpr};
use std::alloc::{AllocError, Global};
use std::clone::Clone;
use std::marker::Model;

/// Universe names with constraints that some valuation meets, seen as the names, by number, and the
/// constraints, oldest first.
#[derive(Drop)]
pub struct Graph {
    names: Vec<Name>,
    below: Vec<(usize, usize)>,
    // The lengths of the longest paths and the heights of names, made with the first name.
    paths: Vec<u16>,
    heights: Vec<u16>,
}

impl Model for Graph {
    ghost use Rattle.mt_universe.specs.Graphs.{Universes};
    ghost use Rattle.mt_universe.specs.Kept.{IsKept};

    ghost Value = { Universes };

    ghost view = { λ g. record { names = g.names.items; below = g.below.items } };

    ghost invariant = { λ g.
        IsKept (record { names = g.names.items; below = g.below.items }) g.paths.items g.heights.items };
}

impl Graph {
    /// A graph without names.
    pub fn new(alloc: Global) -> Graph
        ensures { result ≡ no_names }
    {
        Graph {
            names: Vec::new(alloc),
            below: Vec::new(alloc),
            paths: Vec::new(alloc),
            heights: Vec::new(alloc),
        }
    }

    /// The number of a name.
    pub fn number(&self, name: &Name) -> Option<usize>
        ensures { result ≡ number_of self.now.names name.now }
    {
        number_of(&self.names, name)
    }

    /// How many constraints there are.
    pub fn count(&self) -> usize
        ensures count { result ≡ length self.now.below }
        ensures graph { IsGraph self.now }
    {
        self.below.len()
    }

    /// The names, by number.
    pub fn names(&self) -> &[Name]
        ensures { result.now ≡ self.now.names }
    {
        &self.names
    }

    /// The constraints, oldest first.
    pub fn below(&self) -> &[(usize, usize)]
        ensures { result.now ≡ self.now.below }
    {
        &self.below
    }

    /// Whether every valuation that meets the constraints makes `u` at most `w`.
    pub fn leq(&self, u: &UnivExpr, w: &UnivExpr) -> bool
        ensures { IsTrue result ↔ IsAtMost self.now.below u.now w.now }
    {
        at_most(&self.paths, &self.heights, u, w)
    }

    /// Adds the constraint that `a` is below `b`; each new name gets the next number. `TooMany`
    /// comes exactly where a 257th name would be needed, and then `Cycle` exactly where no
    /// valuation would meet the constraints.
    pub fn declare(&mut self, a: Name, b: Name) -> Result<(), GraphStop>
        ensures added { OnOk result (self.new ≡ declared self.old a b) }
        ensures graph { OnOk result (IsGraph (declared self.old a b)) }
        ensures err { OnErr result (self.new ≡ self.old) }
        ensures cause { IfErr result (λ e. IsRefusedBy e (declared self.old a b)) }
    {
        let (low, high) = numbers(&self.names, &a, &b);
        if NAMES <= low || NAMES <= high {
            return Err(GraphStop::TooMany);
        }
        ready(&self.names, &mut self.paths, &mut self.heights)?;
        if 0 < length_of(&self.paths, high, low) {
            return Err(GraphStop::Cycle);
        }
        add_constraint(&mut self.names, &mut self.below, a, b, (low, high))?;
        extend_heights(&mut self.heights, &self.paths, low, high);
        extend_paths(&mut self.paths, low, high);
        Ok(())
    }

    /// Goes back to the first `count` constraints and their names.
    pub fn back_to(&mut self, count: usize)
        requires { count ≤ length self.old.below }
        ensures { self.new ≡ as_at self.old count }
    {
        if count == self.below.len() {
            return;
        }
        self.below.truncate(count);
        let kept = named_in(&self.below);
        self.names.truncate(kept);
        rebuild(&self.below, &mut self.paths, &mut self.heights);
    }
}

impl Clone for Graph {
    fn clone(&self) -> Result<Graph, AllocError>
        ensures { IfOk result (λ g. g ≡ self.now) }
    {
        Ok(Graph {
            names: copy_names(*self.names.allocator(), &self.names)?,
            below: self.below.clone()?,
            paths: self.paths.clone()?,
            heights: self.heights.clone()?,
        })
    }
}

/// Makes the tables for a first name.
fn ready(names: &[Name], paths: &mut Vec<u16>, heights: &mut Vec<u16>) -> Result<(), AllocError>
    ensures kept { (below : Constraints) → IsKept (record { names = names.now; below = below })
        paths.old.items heights.old.items → IsKept (record { names = names.now; below = below })
        paths.new.items heights.new.items }
    ensures made { OnOk result ((below : Constraints) → IsKept (record { names = names.now; below = below })
        paths.old.items heights.old.items
        → (length paths.new.items ≡ 65536) × (length heights.new.items ≡ 256)) }
{
    if names.is_empty() {
        let alloc = *paths.allocator();
        make_tables(alloc, paths, heights)?;
    }
    Ok(())
}

/// The tables of constraints that some valuation meets.
fn rebuild(below: &[(usize, usize)], paths: &mut [u16], heights: &mut [u16])
    requires paths { length paths.old ≡ 65536 }
    requires heights { length heights.old ≡ 256 }
    requires within { All (λ c. (c.0 < 256) × (c.1 < 256)) below.now }
    requires satisfiable { Satisfiable below.now }
    ensures { AreLongest below.now (entry paths.new) (slice_index heights.new) }
{
    clear_tables(paths, heights);
    for (low, high) in below {
        extend_heights(heights, paths, *low, *high);
        extend_paths(paths, *low, *high);
    }
}
