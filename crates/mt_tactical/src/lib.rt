//! Closed tacticals: structured proof steps as trees, with the places of their signs.
#![tactic(auto)]

mod blocks;
mod stops;

pub use blocks::{MAX_DEPTH, run_block};
use mt_tiny::Goals;
pub use stops::BlockStop;

/// The items of a closed tactical in the order written. An empty item leaves nothing.
#[derive(Drop)]
#[cycle(tactical)]
pub enum Tactical<T> {
    End,
    Item(Box<TacItem<T>>, Box<Tactical<T>>),
}

/// An item of a closed tactical, with the places of its action or signs. `dot` tells whether the
/// first sign after `focus` is `.`.
#[derive(Drop)]
#[cycle(tactical)]
pub enum TacItem<T> {
    Action(usize, T),
    Skip(usize),
    Semicolon(usize),
    Dot(usize),
    Branches {
        branches: TacBranches<T>,
        close: usize,
    },
    Focus {
        at: usize,
        numbers: Goals,
        dot: bool,
        sign: usize,
        body: Tactical<T>,
        unfocus: usize,
    },
}

/// The branches between `[` and `]`, in order.
#[derive(Drop)]
#[cycle(tactical)]
pub enum TacBranches<T> {
    End,
    Item(Box<TacBranch<T>>, Box<TacBranches<T>>),
}

/// A branch, with the place of its `[` or `|`.
#[derive(Drop)]
#[cycle(tactical)]
pub struct TacBranch<T> {
    pub at: usize,
    pub pick: Pick,
    pub body: Tactical<T>,
}

/// Which goals a branch takes: the next, those of the positions, or all that are left.
#[derive(Drop)]
pub enum Pick {
    Next,
    Positions(usize, Goals),
    Rest(usize),
}
