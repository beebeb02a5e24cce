// Nodes of the pool.
use mt_term::{Name, Names, Sort};

/// The place of a term in a pool.
#[derive(Clone, Copy, Debug, PartialEq, Eq)]
pub struct TermId {
    pub at: usize,
}

/// The ids of a metavariable's terms, oldest hypothesis first.
#[derive(Drop)]
pub enum TermIds {
    End,
    Item(TermId, Box<TermIds>),
}

/// The branches of a match, each with its names, oldest first, and its body's id.
#[derive(Drop)]
pub enum BranchIds {
    End,
    Item(Names, TermId, Box<BranchIds>),
}

/// A term with ids in place of its parts.
#[derive(Drop)]
pub enum Node {
    Var(usize),
    Sort(Sort),
    Prod(Name, TermId, TermId),
    Lam(Name, TermId, TermId),
    App(TermId, TermId),
    Const(usize),
    Ind(usize),
    Con(usize, usize),
    Match(usize, TermId, TermId, BranchIds),
    Meta(usize, TermIds),
}

// A node, and beside it the depth of its tree.
#[derive(Drop)]
pub(crate) struct NodeAtDepth {
    pub(crate) node: Node,
    pub(crate) depth: usize,
}
