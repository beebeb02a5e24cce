// Numbers of names.
ghost use Rattle.std.specs.Prelude.{◌≡◌, ◌<◌, ◌≤◌, [], ◌∷◌, ◌++◌, length, IfOk, OnOk, OnErr};
ghost use Rattle.mt_universe.specs.Graphs.{number_of, number_or_next, named, named_in};
ghost use Rattle.std.specs.List.{All};

use mt_term::Name;
use std::alloc::{AllocError, AllocFailed, Global};
use std::clone::Clone;

/// The number of a name.
pub fn number_of(names: &[Name], name: &Name) -> Option<usize>
    ensures { result ≡ number_of names.now name.now }
{
    names
        .iter()
        .position(|known| name.as_bytes() == known.as_bytes())
}

/// The number of a name, or the next number.
#[tactic(auto, using(crate::proofs::GraphLaws::next_is_length))]
pub fn number_or_next(names: &[Name], name: &Name) -> usize
    ensures { result ≡ number_or_next names.now name.now }
{
    match number_of(names, name) {
        Some(n) => n,
        None => names.len(),
    }
}

/// The numbers of two names where those without one get the next ones.
#[tactic(auto, using(crate::proofs::GraphLaws::second_known, crate::proofs::GraphLaws::second_beside, crate::proofs::GraphLaws::second_same, crate::proofs::GraphLaws::second_new, crate::proofs::GraphLaws::number_or_next_at_most))]
pub fn numbers(names: &[Name], a: &Name, b: &Name) -> (usize, usize)
    requires { length names.now ≤ 256 }
    ensures first { result.0 ≡ number_or_next names.now a.now }
    ensures second { result.1 ≡ number_or_next (named names.now a.now) b.now }
{
    let low = number_or_next(names, a);
    let high = number_or_next(names, b);
    if high < names.len() {
        (low, high)
    } else if b.as_bytes() == a.as_bytes() {
        (low, low)
    } else if low < names.len() {
        (low, high)
    } else {
        (low, high + 1)
    }
}

/// Gives a name its number, if it has none.
fn give_number(names: &mut Vec<Name>, name: Name, number: usize) -> Result<(), AllocError>
    requires { number ≡ number_or_next names.old.items name }
    ensures ok { OnOk result (names.new.items ≡ named names.old.items name) }
    ensures err { OnErr result (names.new.items ≡ names.old.items) }
{
    if names.len() <= number {
        names.push(name)?;
    }
    Ok(())
}

/// Gives two names their numbers, if they have none.
pub fn give_numbers(
    names: &mut Vec<Name>,
    a: Name,
    b: Name,
    low: usize,
    high: usize,
) -> Result<(), AllocError>
    requires low { low ≡ number_or_next names.old.items a }
    requires high { high ≡ number_or_next (named names.old.items a) b }
    ensures ok { OnOk result (names.new.items ≡ named (named names.old.items a) b) }
    ensures err { OnErr result (names.new.items ≡ names.old.items) }
{
    let before = names.len();
    give_number(names, a, low)?;
    match give_number(names, b, high) {
        Ok(()) => Ok(()),
        Err(e) => {
            names.truncate(before);
            Err(e)
        }
    }
}

/// Adds a constraint on two names, which get their numbers.
pub fn add_constraint(
    names: &mut Vec<Name>,
    below: &mut Vec<(usize, usize)>,
    a: Name,
    b: Name,
    constraint: (usize, usize),
) -> Result<(), AllocError>
    requires low { constraint.0 ≡ number_or_next names.old.items a }
    requires high { constraint.1 ≡ number_or_next (named names.old.items a) b }
    ensures names { OnOk result (names.new.items ≡ named (named names.old.items a) b) }
    ensures below { OnOk result (below.new.items ≡ below.old.items ++ constraint ∷ []) }
    ensures err { OnErr result
        ((names.new.items ≡ names.old.items) × (below.new.items ≡ below.old.items)) }
{
    let before = below.len();
    below.push(constraint)?;
    match give_numbers(names, a, b, constraint.0, constraint.1) {
        Ok(()) => Ok(()),
        Err(e) => {
            below.truncate(before);
            Err(e)
        }
    }
}

/// How many names stand in the constraints.
pub fn named_in(below: &[(usize, usize)]) -> usize
    requires { All (λ c. (c.0 < 256) × (c.1 < 256)) below.now }
    ensures { result ≡ named_in below.now }
{
    let mut most = 0;
    for (low, high) in below {
        most = most.max(*low + 1).max(*high + 1);
    }
    most
}

/// A copy of names.
pub fn copy_names(alloc: Global, names: &[Name]) -> Result<Vec<Name>, AllocError>
    ensures { IfOk result (λ copied. copied.items ≡ names.now) }
{
    let mut copied = Vec::new(alloc);
    for name in names {
        copied.push(name.clone()?)?;
    }
    Ok(copied)
}
