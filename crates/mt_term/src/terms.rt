// Terms as the program holds them.
use crate::names::{Name, Names};
use crate::universes::Sort;

/// A branch of a match: its body stands under as many variables as there are names.
#[derive(Drop)]
#[cycle(term)]
pub struct Branch {
    pub names: Names,
    pub body: Term,
}

/// A term. `Var(0)` is the innermost variable. A match names its inductive type, then the motive,
/// then the matched term. A metavariable has one term per hypothesis, oldest first.
#[derive(Drop)]
#[cycle(term)]
pub enum Term {
    Var(usize),
    Sort(Sort),
    Prod(Name, Box<Term>, Box<Term>),
    Lam(Name, Box<Term>, Box<Term>),
    App(Box<Term>, Box<Term>),
    Const(usize),
    Ind(usize),
    Con(usize, usize),
    Match(usize, Box<Term>, Box<Term>, Branches),
    Meta(usize, Terms),
}

/// The terms of a metavariable, oldest hypothesis first.
#[derive(Drop)]
#[cycle(term)]
pub enum Terms {
    End,
    Item(Box<Term>, Box<Terms>),
}

/// The branches of a match, in the order of the constructors.
#[derive(Drop)]
#[cycle(term)]
pub enum Branches {
    End,
    Item(Box<Branch>, Box<Branches>),
}
