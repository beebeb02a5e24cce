// The rows of the tables: questions about two terms, the answers and the costs.
//
// The costs come from the written rules; where a comment says "by hand", it says how. A term is
// written after its parts, as `reading` reads it; the comment before it has it in the usual order.
// `x` and `y` are the variables 0 and 1. `head`, `tail`, `pred`, `is_zero`, `first` and `added` are
// the matches that `reading` makes; `odd_pred` is `pred` with `plus O O` in place of `O`.

use mt_term::Mode;

/// What a term may have.
#[derive(Clone, Copy, Debug)]
pub enum Form {
    WeakHead,
    Normal,
    /// The type that is inferred for it.
    Type,
    /// Its instance.
    Instance,
}

/// What is asked of two terms.
#[derive(Clone, Copy, Debug)]
pub enum Asked {
    /// Whether the second is this form of the first.
    Has(Form),
    /// Whether they are convertible, or the first is a type at most the second.
    Compared(Mode),
    /// Whether the first has the second as its type; this is asked of the kernel too.
    Checked,
}

/// A question about two terms, its answer and its cost.
pub struct Row {
    pub asked: Asked,
    pub t: &'static str,
    pub u: &'static str,
    pub yes: bool,
    pub cost: u64,
}
