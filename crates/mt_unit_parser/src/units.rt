// Units as they are written.
ghost use Rattle.std.specs.Prelude.{◌≡◌, [], ◌∷◌, ◌++◌, length, slice_get, OnOk, OnErr};
ghost use Rattle.mt_term.specs.Seen.{seen};

use mt_tactical::Tactical;
use mt_term::Name;
use mt_term_parser::Raw;
use mt_text::UnitSpan;
use mt_tiny::Tiny;
use std::alloc::{AllocError, Global};
use std::marker::Model;

/// A unit, or the end of the text.
#[derive(Drop)]
pub enum Parsed {
    Unit(Unit),
    End,
}

/// A unit and where it stands.
#[derive(Drop)]
pub struct Unit {
    pub span: UnitSpan,
    pub kind: UnitKind,
}

/// What a unit says. `Step` is a single step of a proof, and `Block` is a closed tactical in
/// braces.
#[derive(Drop)]
pub enum UnitKind {
    Constraint(Name, Name),
    Axiom(Name, Raw),
    Definition(Name, Option<Raw>, Raw),
    Inductive {
        co: bool,
        groups: Groups,
        types: RawTypes,
    },
    Recursive {
        co: bool,
        functions: RawFunctions,
    },
    Hint {
        precedence: u32,
        vars: Groups,
        eqs: RawEqs,
        left: Raw,
        right: Raw,
    },
    Coercion(Name),
    Theorem(Name, Raw),
    Qed,
    Step(Tiny<Action>),
    Block(Tactical<Action>),
}

/// A binder and its type.
#[derive(Drop)]
pub struct Group {
    pub name: Name,
    pub ty: Raw,
}

/// A constructor, the place of its name, and its type.
#[derive(Drop)]
pub struct RawCon {
    pub at: usize,
    pub name: Name,
    pub ty: Raw,
}

/// An inductive type.
#[derive(Drop)]
pub struct RawType {
    pub name: Name,
    pub arity: Raw,
    pub cons: RawCons,
}

/// A recursive or corecursive function. `on` is the argument that a recursion goes down.
#[derive(Drop)]
pub struct RawFunction {
    pub name: Name,
    pub groups: Groups,
    pub on: Option<Name>,
    pub ty: Raw,
    pub body: Raw,
}

/// An equation of a hint: a variable and its term.
#[derive(Drop)]
pub struct RawEq {
    pub name: Name,
    pub term: Raw,
}

/// An action and the place of its first token.
#[derive(Drop)]
pub struct Action {
    pub start: usize,
    pub shape: ActionShape,
}

/// The form of an action. `Apply` is written `apply` or `@`, and `Intro` is written `intro` or `#`.
#[derive(Drop)]
pub enum ActionShape {
    Intro(Name),
    Exact(Raw),
    Refine(Raw),
    Apply(Raw),
    Cut(Raw),
    Lapply(Raw),
    Change(Raw),
    Whd,
    Normalize,
    Assumption,
    Constructor(u32),
    Generalize(Raw),
    Clear(Name),
    Cases(Raw),
    Elim(Raw),
}

/// Binders and their types, in order.
#[derive(Drop)]
pub struct Groups {
    items: Vec<Group>,
}

impl Model for Groups {
    ghost use Rattle.std.specs.Prelude.{List};
    ghost use Rattle.std.specs.Coded.{codes};
    ghost use Rattle.mt_term_parser.specs.contracts.raw.Raw as raw;
    ghost use Rattle.mt_unit_parser.specs.declared.units.Group.{Group};

    ghost Value = { List Group };

    ghost coded = { Prim.hlevel (codes, raw.the_row.coded) };

    ghost view = { λ l. l.items.items };
}

impl Groups {
    /// The empty list.
    pub fn new(alloc: Global) -> Groups
        ensures { result ≡ [] }
    {
        Groups {
            items: Vec::new(alloc),
        }
    }

    /// Appends an item.
    pub fn push(&mut self, group: Group) -> Result<(), AllocError>
        ensures ok { OnOk result (self.new ≡ self.old ++ group ∷ []) }
        ensures err { OnErr result (self.new ≡ self.old) }
    {
        self.items.push(group)?;
        Ok(())
    }

    /// How many items there are.
    pub fn len(&self) -> usize
        ensures { result ≡ length self.now }
    {
        self.items.len()
    }

    /// The item at a place.
    pub fn get(&self, at: usize) -> Option<&Group>
        ensures { seen result ≡ slice_get self.now at }
    {
        self.items.get(at)
    }
}

/// Constructors, in order.
#[derive(Drop)]
pub struct RawCons {
    items: Vec<RawCon>,
}

impl Model for RawCons {
    ghost use Rattle.std.specs.Prelude.{List};
    ghost use Rattle.std.specs.Coded.{codes};
    ghost use Rattle.mt_term_parser.specs.contracts.raw.Raw as raw;
    ghost use Rattle.mt_unit_parser.specs.declared.units.RawCon.{RawCon};

    ghost Value = { List RawCon };

    ghost coded = { Prim.hlevel (codes, raw.the_row.coded) };

    ghost view = { λ l. l.items.items };
}

impl RawCons {
    /// The empty list.
    pub fn new(alloc: Global) -> RawCons
        ensures { result ≡ [] }
    {
        RawCons {
            items: Vec::new(alloc),
        }
    }

    /// Appends an item.
    pub fn push(&mut self, con: RawCon) -> Result<(), AllocError>
        ensures ok { OnOk result (self.new ≡ self.old ++ con ∷ []) }
        ensures err { OnErr result (self.new ≡ self.old) }
    {
        self.items.push(con)?;
        Ok(())
    }

    /// How many items there are.
    pub fn len(&self) -> usize
        ensures { result ≡ length self.now }
    {
        self.items.len()
    }

    /// The item at a place.
    pub fn get(&self, at: usize) -> Option<&RawCon>
        ensures { seen result ≡ slice_get self.now at }
    {
        self.items.get(at)
    }
}

/// Inductive types, in order.
#[derive(Drop)]
pub struct RawTypes {
    items: Vec<RawType>,
}

impl Model for RawTypes {
    ghost use Rattle.std.specs.Prelude.{List};
    ghost use Rattle.std.specs.Coded.{codes};
    ghost use Rattle.mt_term_parser.specs.contracts.raw.Raw as raw;
    ghost use Rattle.mt_unit_parser.specs.declared.units.RawType.{RawType};

    ghost Value = { List RawType };

    ghost coded = { Prim.hlevel (codes, raw.the_row.coded) };

    ghost view = { λ l. l.items.items };
}

impl RawTypes {
    /// The empty list.
    pub fn new(alloc: Global) -> RawTypes
        ensures { result ≡ [] }
    {
        RawTypes {
            items: Vec::new(alloc),
        }
    }

    /// Appends an item.
    pub fn push(&mut self, ty: RawType) -> Result<(), AllocError>
        ensures ok { OnOk result (self.new ≡ self.old ++ ty ∷ []) }
        ensures err { OnErr result (self.new ≡ self.old) }
    {
        self.items.push(ty)?;
        Ok(())
    }

    /// How many items there are.
    pub fn len(&self) -> usize
        ensures { result ≡ length self.now }
    {
        self.items.len()
    }

    /// The item at a place.
    pub fn get(&self, at: usize) -> Option<&RawType>
        ensures { seen result ≡ slice_get self.now at }
    {
        self.items.get(at)
    }
}

/// Functions, in order.
#[derive(Drop)]
pub struct RawFunctions {
    items: Vec<RawFunction>,
}

impl Model for RawFunctions {
    ghost use Rattle.std.specs.Prelude.{List};
    ghost use Rattle.std.specs.Coded.{codes};
    ghost use Rattle.mt_term_parser.specs.contracts.raw.Raw as raw;
    ghost use Rattle.mt_unit_parser.specs.declared.units.RawFunction.{RawFunction};

    ghost Value = { List RawFunction };

    ghost coded = { Prim.hlevel (codes, raw.the_row.coded) };

    ghost view = { λ l. l.items.items };
}

impl RawFunctions {
    /// The empty list.
    pub fn new(alloc: Global) -> RawFunctions
        ensures { result ≡ [] }
    {
        RawFunctions {
            items: Vec::new(alloc),
        }
    }

    /// Appends an item.
    pub fn push(&mut self, function: RawFunction) -> Result<(), AllocError>
        ensures ok { OnOk result (self.new ≡ self.old ++ function ∷ []) }
        ensures err { OnErr result (self.new ≡ self.old) }
    {
        self.items.push(function)?;
        Ok(())
    }

    /// How many items there are.
    pub fn len(&self) -> usize
        ensures { result ≡ length self.now }
    {
        self.items.len()
    }

    /// The item at a place.
    pub fn get(&self, at: usize) -> Option<&RawFunction>
        ensures { seen result ≡ slice_get self.now at }
    {
        self.items.get(at)
    }
}

/// Equations, in order.
#[derive(Drop)]
pub struct RawEqs {
    items: Vec<RawEq>,
}

impl Model for RawEqs {
    ghost use Rattle.std.specs.Prelude.{List};
    ghost use Rattle.std.specs.Coded.{codes};
    ghost use Rattle.mt_term_parser.specs.contracts.raw.Raw as raw;
    ghost use Rattle.mt_unit_parser.specs.declared.units.RawEq.{RawEq};

    ghost Value = { List RawEq };

    ghost coded = { Prim.hlevel (codes, raw.the_row.coded) };

    ghost view = { λ l. l.items.items };
}

impl RawEqs {
    /// The empty list.
    pub fn new(alloc: Global) -> RawEqs
        ensures { result ≡ [] }
    {
        RawEqs {
            items: Vec::new(alloc),
        }
    }

    /// Appends an item.
    pub fn push(&mut self, eq: RawEq) -> Result<(), AllocError>
        ensures ok { OnOk result (self.new ≡ self.old ++ eq ∷ []) }
        ensures err { OnErr result (self.new ≡ self.old) }
    {
        self.items.push(eq)?;
        Ok(())
    }

    /// How many items there are.
    pub fn len(&self) -> usize
        ensures { result ≡ length self.now }
    {
        self.items.len()
    }

    /// The item at a place.
    pub fn get(&self, at: usize) -> Option<&RawEq>
        ensures { seen result ≡ slice_get self.now at }
    {
        self.items.get(at)
    }
}
