// Entries of environments, as the program holds them.
ghost use Rattle.std.specs.Prelude.{◌≡◌, [], ◌∷◌, ◌++◌, length, take, slice_get, OnOk, OnErr};
ghost use Rattle.mt_term.specs.EntryOf.{declaration_of, seen_declaration};

use crate::constructors::Cons;
use crate::names::Name;
use crate::terms::Term;
use std::alloc::{AllocError, AllocFailed, Global};
use std::marker::Model;

/// An entry of an environment. `place` is 0 for a corecursive function, and `made` marks a
/// generated principle.
#[derive(Drop)]
pub enum Entry {
    Axiom {
        name: Name,
        ty: Term,
    },
    Definition {
        name: Name,
        ty: Term,
        body: Term,
    },
    Inductive {
        name: Name,
        co: bool,
        params: usize,
        ty: Term,
        cons: Cons,
        large: bool,
    },
    Recursive {
        name: Name,
        co: bool,
        binders: usize,
        place: usize,
        ty: Term,
        body: Term,
        made: bool,
    },
}

/// Entries, oldest first.
#[derive(Drop)]
pub struct Entries {
    items: Vec<Entry>,
}

impl Model for Entries {
    ghost use Rattle.std.specs.Prelude.{List, map};
    ghost use Rattle.std.specs.Coded.{coded_list};
    ghost use Rattle.mt_term.specs.Declarations.{Declaration};
    ghost use Rattle.mt_term.specs.EntryOf.{declaration_of};
    ghost use Rattle.mt_term.specs.DeclarationCode.{declaration_code};

    ghost Value = { List Declaration };

    ghost coded = { coded_list declaration_code };

    ghost view = { λ e. map declaration_of e.items.items };
}

impl Entries {
    /// No entry.
    pub fn new(alloc: Global) -> Entries
        ensures { result ≡ [] }
    {
        Entries {
            items: Vec::new(alloc),
        }
    }

    /// Appends an entry.
    pub fn push(&mut self, entry: Entry) -> Result<(), AllocError>
        ensures ok { OnOk result (self.new ≡ self.old ++ declaration_of entry ∷ []) }
        ensures err { OnErr result (self.new ≡ self.old) }
    {
        self.items.push(entry)?;
        Ok(())
    }

    /// How many entries there are.
    pub fn len(&self) -> usize
        ensures { result ≡ length self.now }
    {
        self.items.len()
    }

    /// Goes back to the first entries.
    pub fn truncate(&mut self, count: usize)
        ensures { self.new ≡ take count self.old }
    {
        self.items.truncate(count);
    }

    /// The entry of a number.
    pub fn get(&self, at: usize) -> Option<&Entry>
        ensures { seen_declaration result ≡ slice_get self.now at }
    {
        self.items.get(at)
    }
}
