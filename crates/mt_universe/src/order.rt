// The order of universe expressions, by paths and heights.
ghost use Rattle.std.specs.Prelude.{◌≡◌, slice_index};
ghost use Rattle.std.specs.List.{list_all};
ghost use Rattle.mt_term.specs.Universes.{value};
ghost use Rattle.mt_term.specs.UniverseOrder.{covers, is_covered, at_most_by};
ghost use Rattle.mt_universe.specs.Tables.{entry};

use crate::paths::length_of;
use mt_term::{Atom, UnivExpr};

/// Whether a path shows that an atom is at most another.
fn covers(paths: &[u16], a: &Atom, b: &Atom) -> bool
    ensures { result ≡ covers (entry paths.now) a.now b.now }
{
    let length = length_of(paths, a.name, b.name);
    let offset = a.offset;
    0 < length && u64::from(offset) < u64::from(length) + u64::from(b.offset)
}

/// Whether an atom is at most one of the atoms.
fn is_covered(paths: &[u16], atoms: &[Atom], a: &Atom) -> bool
    ensures { result ≡ is_covered (entry paths.now) atoms.now a.now }
{
    atoms.iter().any(|b| covers(paths, a, b))
}

/// Whether each atom is at most one of the others.
fn all_covered(paths: &[u16], atoms: &[Atom], bounds: &[Atom]) -> bool
    ensures { result ≡ list_all (is_covered (entry paths.now) bounds.now) atoms.now }
{
    atoms.iter().all(|a| is_covered(paths, bounds, a))
}

/// The value of an expression where each name has its height.
fn least_value(heights: &[u16], u: &UnivExpr) -> u64
    ensures { result ≡ value (slice_index heights.now) u.now }
{
    let mut most = u64::from(u.base);
    for a in u.atoms.as_slice() {
        most = most.max(u64::from(height_of(heights, a.name)) + u64::from(a.offset));
    }
    most
}

/// The height of a name; 0 for one without constraints.
fn height_of(heights: &[u16], a: usize) -> u16
    ensures { result ≡ slice_index heights.now a }
{
    match heights.get(a) {
        Some(n) => *n,
        None => 0,
    }
}

/// Whether `u` is at most `w`, by the longest paths and the heights.
pub fn at_most(paths: &[u16], heights: &[u16], u: &UnivExpr, w: &UnivExpr) -> bool
    ensures { result ≡ at_most_by (entry paths.now) (slice_index heights.now) u.now w.now }
{
    u64::from(u.base) <= least_value(heights, w)
        && all_covered(paths, u.atoms.as_slice(), w.atoms.as_slice())
}
