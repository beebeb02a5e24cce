// Terms as they are written.
ghost use Rattle.std.specs.Prelude.{◌≡◌, [], ◌∷◌, ◌++◌, length, slice_get, OnOk, OnErr};
ghost use Rattle.mt_term.specs.Seen.{seen};

use mt_term::{Name, Names};
use std::alloc::{AllocError, Global};
use std::marker::Model;

/// A term as it is written. It starts at its first token; parentheses round it are not part of it.
#[derive(Drop)]
#[cycle(raw)]
pub struct Raw {
    pub start: usize,
    pub shape: RawShape,
}

/// The form of a term as it is written. `Con` is a constructor by its numbers, which no text gives.
#[derive(Drop)]
#[cycle(raw)]
pub enum RawShape {
    Name(Name),
    Con(usize, usize),
    Hole,
    Vector,
    Sort(RawSort),
    Lam(Name, Option<Box<Raw>>, Box<Raw>),
    Prod(Name, Box<Raw>, Box<Raw>),
    App(Box<Raw>, Raws),
    Match(Box<Raw>, Option<Box<Raw>>, RawArms),
    Cast(Box<Raw>, Box<Raw>),
}

/// The arguments of an application, in order.
#[derive(Drop)]
#[cycle(raw)]
pub enum Raws {
    End,
    Item(Box<Raw>, Box<Raws>),
}

/// An arm of a match.
#[derive(Drop)]
#[cycle(raw)]
pub struct Arm {
    pub name: Name,
    pub binders: Names,
    pub body: Raw,
}

/// The arms of a match, in order.
#[derive(Drop)]
#[cycle(raw)]
pub enum RawArms {
    End,
    Item(Box<Arm>, Box<RawArms>),
}

/// A sort as it is written.
#[derive(Drop)]
pub enum RawSort {
    Prop,
    Typ(Parts),
}

/// A part of a sort: a number, or a universe name and its offset.
#[derive(Drop)]
pub enum Part {
    Number(u32),
    Name(Name, u32),
}

/// The parts of a sort, in order.
#[derive(Drop)]
pub struct Parts {
    items: Vec<Part>,
}

impl Model for Parts {
    ghost use Rattle.std.specs.Prelude.{List};
    ghost use Rattle.mt_term_parser.specs.declared.raw.Part.{Part};

    ghost Value = { List Part };

    ghost view = { λ p. p.items.items };
}

impl Parts {
    /// No parts.
    pub fn new(alloc: Global) -> Parts
        ensures { result ≡ [] }
    {
        Parts {
            items: Vec::new(alloc),
        }
    }

    /// Appends a part.
    pub fn push(&mut self, part: Part) -> Result<(), AllocError>
        ensures ok { OnOk result (self.new ≡ self.old ++ part ∷ []) }
        ensures err { OnErr result (self.new ≡ self.old) }
    {
        self.items.push(part)?;
        Ok(())
    }

    /// How many parts there are.
    pub fn len(&self) -> usize
        ensures { result ≡ length self.now }
    {
        self.items.len()
    }

    /// The part at a place.
    pub fn get(&self, at: usize) -> Option<&Part>
        ensures { seen result ≡ slice_get self.now at }
    {
        self.items.get(at)
    }
}
