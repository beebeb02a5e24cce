// What a unit asks for.
use mt_term::{Name, Term};

/// What a unit asks for that declares no entry: a constraint, a proof that begins, a goal with its
/// statement and the term that closes it, nothing, or the end of a proof with its name, its
/// statement and its term.
#[derive(Drop)]
pub enum Task {
    Order(Name, Name),
    Begin(Name, Term),
    Close(usize, Term, Term),
    Rest,
    Finish(Name, Term, Term),
}
