// Hints and notes of accepted commands, as the program holds them.
ghost use Rattle.std.specs.Prelude.{◌≡◌, [], ◌∷◌, ◌++◌, length, slice_get, OnOk, OnErr};
ghost use Rattle.mt_term.specs.NoteOf.{note_of, seen_note};

use crate::equations::PlainEqs;
use crate::hypotheses::Hyps;
use crate::names::Name;
use crate::terms::Term;
use std::alloc::{AllocError, AllocFailed, Global};
use std::marker::Model;

/// A hint: its precedence, its variables, its equations and the two sides of its conclusion.
#[derive(Drop)]
pub struct PlainHint {
    pub precedence: u32,
    pub vars: Hyps,
    pub eqs: PlainEqs,
    pub left: Term,
    pub right: Term,
}

/// An accepted command: an entry's number, a constraint's place, a hint, or a coercion's name.
#[derive(Drop)]
pub enum Note {
    Entry(usize),
    Constraint(usize),
    Hint(PlainHint),
    Coercion(Name),
}

/// Notes of the accepted commands, in order.
#[derive(Drop)]
pub struct Notes {
    items: Vec<Note>,
}

impl Model for Notes {
    ghost use Rattle.std.specs.Prelude.{List, map};
    ghost use Rattle.std.specs.Coded.{coded_list};
    ghost use Rattle.mt_term.specs.States.{Note};
    ghost use Rattle.mt_term.specs.NoteOf.{note_of};
    ghost use Rattle.mt_term.specs.StateCode.{note_code};

    ghost Value = { List Note };

    ghost coded = { coded_list note_code };

    ghost view = { λ l. map note_of l.items.items };
}

impl Notes {
    /// No note.
    pub fn new(alloc: Global) -> Notes
        ensures { result ≡ [] }
    {
        Notes {
            items: Vec::new(alloc),
        }
    }

    /// Appends a note.
    pub fn push(&mut self, item: Note) -> Result<(), AllocError>
        ensures ok { OnOk result (self.new ≡ self.old ++ note_of item ∷ []) }
        ensures err { OnErr result (self.new ≡ self.old) }
    {
        self.items.push(item)?;
        Ok(())
    }

    /// How many there are.
    pub fn len(&self) -> usize
        ensures { result ≡ length self.now }
    {
        self.items.len()
    }

    /// The note at a place.
    pub fn get(&self, at: usize) -> Option<&Note>
        ensures { seen_note result ≡ slice_get self.now at }
    {
        self.items.get(at)
    }
}
