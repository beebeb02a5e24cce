// What a name stands for.

/// A constant, an inductive type or a constructor, with its numbers.
#[derive(Clone, Copy, Debug, PartialEq, Eq)]
pub enum Ref {
    Const(usize),
    Ind(usize),
    Con(usize, usize),
}
