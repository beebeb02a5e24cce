// Entries held in a pool.
ghost use Rattle.std.specs.Prelude.{◌≡◌, [], ◌∷◌, ◌++◌, length, slice_get, IfOk, OnOk, OnErr};
ghost use Rattle.mt_term.specs.Seen.{seen};

use crate::nodes::TermId;
use mt_term::{Name, OutOfMemory};
use std::alloc::{AllocFailed, Global};
use std::clone::Clone;
use std::marker::Model;

/// A constructor of an inductive type: its name and the id of its closed type.
#[derive(Drop)]
pub struct HeldConstructor {
    pub name: Name,
    pub ty: TermId,
}

/// Constructors, in order.
#[derive(Drop)]
pub struct HeldCons {
    items: Vec<HeldConstructor>,
}

impl Model for HeldCons {
    ghost use Rattle.std.specs.Prelude.{List};
    ghost use Rattle.mt_pool.specs.declared.held.HeldConstructor.{HeldConstructor};

    ghost Value = { List HeldConstructor };

    ghost view = { λ c. c.items.items };
}

impl HeldCons {
    /// No constructor.
    pub fn new(alloc: Global) -> HeldCons
        ensures { result ≡ [] }
    {
        HeldCons {
            items: Vec::new(alloc),
        }
    }

    /// Appends a constructor.
    pub fn push(&mut self, constructor: HeldConstructor) -> Result<(), OutOfMemory>
        ensures ok { OnOk result (self.new ≡ self.old ++ constructor ∷ []) }
        ensures err { OnErr result (self.new ≡ self.old) }
    {
        self.items.push(constructor)?;
        Ok(())
    }

    /// How many constructors there are.
    pub fn len(&self) -> usize
        ensures { result ≡ length self.now }
    {
        self.items.len()
    }

    /// The constructor of a number.
    pub fn get(&self, at: usize) -> Option<&HeldConstructor>
        ensures { seen result ≡ slice_get self.now at }
    {
        self.items.get(at)
    }

    /// The constructors as a slice.
    pub fn as_slice(&self) -> &[HeldConstructor]
        ensures { result.now ≡ self.now }
    {
        &self.items
    }
}

impl Clone for HeldConstructor {
    fn clone(&self) -> Result<HeldConstructor, OutOfMemory>
        ensures { IfOk result (λ c. c ≡ self.now) }
    {
        Ok(HeldConstructor {
            name: self.name.clone()?,
            ty: self.ty,
        })
    }
}

impl Clone for HeldCons {
    fn clone(&self) -> Result<HeldCons, OutOfMemory>
        ensures { IfOk result (λ c. c ≡ self.now) }
    {
        let mut items = Vec::new(*self.items.allocator());
        for constructor in &self.items {
            items.push(constructor.clone()?)?;
        }
        Ok(HeldCons { items })
    }
}

/// An entry of an environment, with ids in place of its terms. `place` is 0 for a corecursive
/// function, and `made` marks a generated principle.
#[derive(Drop)]
pub enum Held {
    Axiom {
        name: Name,
        ty: TermId,
    },
    Definition {
        name: Name,
        ty: TermId,
        body: TermId,
    },
    Inductive {
        name: Name,
        co: bool,
        params: usize,
        ty: TermId,
        cons: HeldCons,
        large: bool,
    },
    Recursive {
        name: Name,
        co: bool,
        binders: usize,
        place: usize,
        ty: TermId,
        body: TermId,
        made: bool,
    },
}

impl Clone for Held {
    fn clone(&self) -> Result<Held, OutOfMemory>
        ensures { IfOk result (λ h. h ≡ self.now) }
    {
        match self {
            Held::Axiom { name, ty } => Ok(Held::Axiom {
                name: name.clone()?,
                ty: *ty,
            }),
            Held::Definition { name, ty, body } => Ok(Held::Definition {
                name: name.clone()?,
                ty: *ty,
                body: *body,
            }),
            Held::Inductive {
                name,
                co,
                params,
                ty,
                cons,
                large,
            } => Ok(Held::Inductive {
                name: name.clone()?,
                co: *co,
                params: *params,
                ty: *ty,
                cons: cons.clone()?,
                large: *large,
            }),
            Held::Recursive {
                name,
                co,
                binders,
                place,
                ty,
                body,
                made,
            } => Ok(Held::Recursive {
                name: name.clone()?,
                co: *co,
                binders: *binders,
                place: *place,
                ty: *ty,
                body: *body,
                made: *made,
            }),
        }
    }
}
