// Environments.
ghost use Rattle.std.specs.Prelude.{◌≡◌, ◌<◌, ◌≤◌, Some, [], ◌∷◌, ◌++◌, List, length, IfOk, take, slice_get, IsSome, OnOk, OnErr, IfErr};
ghost use Rattle.mt_term.specs.Naming.{named};
ghost use Rattle.mt_term.specs.Trees.{Tree};
ghost use Rattle.mt_universe.specs.Graphs.{declared};
ghost use Rattle.mt_universe.specs.Refusals.{IsRefusedBy};
ghost use Rattle.mt_env.specs.Environments.{HeldEnvironment, declarations_in, no_entries, back_at, type_named, type_held, constructor_type, names_held, IsAdded};
ghost use Rattle.mt_env.specs.Names.{said, Distinct};
ghost use Rattle.mt_env.specs.Refusals.{IsRefusedBy as IsRefusal};
ghost use Rattle.mt_pool.specs.Region.{Kept};
ghost use Rattle.mt_term.specs.EntryOf.{declaration_of};

use crate::adding::enter_all;
use crate::holding::hold;
use crate::refs::Ref;
use crate::stops::EnvStop;
use crate::table::Table;
use mt_pool::{Held, Pool, TermId};
use mt_term::{Entry, Name, OutOfMemory};
use mt_universe::{Graph, GraphStop};
use std::alloc::{AllocFailed, Global};
use std::clone::Clone;
use std::marker::Model;

/// Entries and a graph of universes, seen as the entries, oldest first, and the names and
/// constraints of the graph.
#[derive(Drop)]
pub struct Env {
    pub(crate) entries: Vec<Held>,
    // Where the names of each entry begin in the table.
    pub(crate) starts: Vec<usize>,
    pub(crate) table: Table,
    pub(crate) graph: Graph,
}

impl Model for Env {
    ghost use Rattle.mt_env.specs.Environments.{HeldEnvironment, IsKept};

    ghost Value = { HeldEnvironment };

    ghost view = { λ e. record { entries = e.entries.items; graph = e.graph } };

    ghost invariant = { λ e. IsKept e.entries.items e.starts.items e.table };
}

/// How many entries and constraints there were.
#[derive(Clone, Copy, Debug, PartialEq, Eq)]
pub struct EnvMark {
    pub entries: usize,
    pub constraints: usize,
}

impl Env {
    /// The empty environment.
    pub fn new(alloc: Global) -> Env
        ensures { result ≡ no_entries }
    {
        Env {
            entries: Vec::new(alloc),
            starts: Vec::new(alloc),
            table: Table::new(alloc),
            graph: Graph::new(alloc),
        }
    }

    /// An equal environment.
    pub fn copy(&self, alloc: Global) -> Result<Env, OutOfMemory>
        ensures { IfOk result (λ e. e ≡ self.now) }
    {
        Ok(Env {
            entries: copied_entries(alloc, &self.entries)?,
            starts: self.starts.clone()?,
            table: self.table.clone()?,
            graph: self.graph.clone()?,
        })
    }

    /// How many entries there are.
    pub fn len(&self) -> usize
        ensures { result ≡ length self.now.entries }
    {
        self.entries.len()
    }

    /// The entry of a number.
    pub fn entry(&self, n: usize) -> &Held
        requires { n < length self.now.entries }
        ensures { slice_get self.now.entries n ≡ Some result.now }
    {
        &self.entries[n]
    }

    /// What a name stands for.
    pub fn find(&self, name: &Name) -> Option<Ref>
        ensures { (p : List Tree) → said result ≡ named (declarations_in p self.now.entries) name.now }
    {
        self.table.find(name.as_bytes())
    }

    /// The graph of universes.
    pub fn graph(&self) -> &Graph
        ensures { result.now ≡ self.now.graph }
    {
        &self.graph
    }

    /// The present end.
    pub fn mark(&self) -> EnvMark
        ensures entries { result.entries ≡ length self.now.entries }
        ensures constraints { result.constraints ≡ length self.now.graph.below }
    {
        EnvMark {
            entries: self.entries.len(),
            constraints: self.graph.count(),
        }
    }

    /// The type of what a reference names.
    pub fn type_of(&self, r: Ref) -> TermId
        requires { IsSome (type_named self.now.entries r) }
        ensures { type_named self.now.entries r ≡ Some result }
    {
        match r {
            Ref::Const(n) | Ref::Ind(n) => type_of_held(&self.entries[n]),
            Ref::Con(n, k) => type_of_constructor(&self.entries[n], k),
        }
    }

    /// Adds an entry, which gets the next number. `Taken` comes exactly where one of its names is
    /// in use or stands twice in it.
    pub fn add(&mut self, alloc: Global, pool: &mut Pool, entry: &Entry) -> Result<usize, EnvStop>
        ensures kept { Kept pool.old pool.new }
        ensures number { IfOk result (λ n. n ≡ length self.old.entries) }
        ensures added { OnOk result (IsAdded self.old self.new pool.new (declaration_of entry.now)) }
        ensures distinct { OnOk result (Distinct (names_held self.new.entries)) }
        ensures err { OnErr result (self.new ≡ self.old) }
        ensures cause { IfErr result (λ e. IsRefusal e self.old.entries (declaration_of entry.now)) }
    {
        let number = self.entries.len();
        let start = self.table.len();
        let held = hold(alloc, pool, entry)?;
        enter_all(alloc, &mut self.table, number, entry)?;
        match list(&mut self.entries, &mut self.starts, held, start) {
            Ok(()) => Ok(number),
            Err(stop) => {
                self.table.truncate(start);
                Err(EnvStop::from(stop))
            }
        }
    }

    /// Adds the constraint that universe `a` is below universe `b`, as the graph does.
    pub fn constrain(&mut self, a: Name, b: Name) -> Result<(), GraphStop>
        ensures ok { OnOk result (self.new ≡ record self.old { graph = declared self.old.graph a b }) }
        ensures err { OnErr result (self.new ≡ self.old) }
        ensures cause { IfErr result (λ e. IsRefusedBy e (declared self.old.graph a b)) }
    {
        self.graph.declare(a, b)
    }

    // How many names the first entries have.
    fn start_of(&self, entries: usize) -> usize
        ensures { result ≡ length (names_held (take entries self.now.entries)) }
    {
        if entries < self.starts.len() {
            self.starts[entries]
        } else {
            self.table.len()
        }
    }

    /// Goes back to the entries and constraints of a mark.
    pub fn back_to(&mut self, mark: &EnvMark)
        requires entries { mark.now.entries ≤ length self.old.entries }
        requires constraints { mark.now.constraints ≤ length self.old.graph.below }
        ensures { self.new ≡ back_at self.old mark.now.entries mark.now.constraints }
    {
        let start = self.start_of(mark.entries);
        self.table.truncate(start);
        self.starts.truncate(mark.entries);
        self.entries.truncate(mark.entries);
        self.graph.back_to(mark.constraints);
    }
}

fn copied_entries(alloc: Global, entries: &[Held]) -> Result<Vec<Held>, OutOfMemory>
    ensures { IfOk result (λ copied. copied.items ≡ entries.now) }
{
    let mut copied = Vec::new(alloc);
    for entry in entries {
        copied.push(entry.clone()?)?;
    }
    Ok(copied)
}

fn push_held(entries: &mut Vec<Held>, held: Held) -> Result<(), OutOfMemory>
    ensures ok { OnOk result (entries.new.items ≡ entries.old.items ++ held ∷ []) }
    ensures err { OnErr result (entries.new.items ≡ entries.old.items) }
{
    entries.push(held)?;
    Ok(())
}

// Lists an entry and where its names begin.
fn list(
    entries: &mut Vec<Held>,
    starts: &mut Vec<usize>,
    held: Held,
    start: usize,
) -> Result<(), OutOfMemory>
    ensures entries { OnOk result (entries.new.items ≡ entries.old.items ++ held ∷ []) }
    ensures starts { OnOk result (starts.new.items ≡ starts.old.items ++ start ∷ []) }
    ensures err { OnErr result
        ((entries.new.items ≡ entries.old.items) × (starts.new.items ≡ starts.old.items)) }
{
    let before = starts.len();
    starts.push(start)?;
    match push_held(entries, held) {
        Ok(()) => Ok(()),
        Err(stop) => {
            starts.truncate(before);
            Err(stop)
        }
    }
}

fn type_of_held(held: &Held) -> TermId
    ensures { result ≡ type_held held.now }
{
    match held {
        Held::Axiom { ty, .. }
        | Held::Definition { ty, .. }
        | Held::Inductive { ty, .. }
        | Held::Recursive { ty, .. } => *ty,
    }
}

fn type_of_constructor(held: &Held, k: usize) -> TermId
    requires { IsSome (constructor_type (Some held.now) k) }
    ensures { constructor_type (Some held.now) k ≡ Some result }
{
    match held {
        Held::Inductive { cons, .. } => cons.as_slice()[k].ty,
        Held::Axiom { ty, .. } | Held::Definition { ty, .. } | Held::Recursive { ty, .. } => *ty,
    }
}
