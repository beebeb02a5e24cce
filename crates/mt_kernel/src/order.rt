// The order of universe expressions under constraints, by the longest paths.
ghost use Rattle.std.specs.Prelude.{◌≡◌, ◌+◌, ◌-◌, ◌<◌, ◌≤◌, ℕ, true, false, is_some, length, slice_index, slice_index_or, sum, IfOk, IfSome};
ghost use Rattle.std.specs.List.{list_all};
ghost use Rattle.mt_kernel.specs.Rows.{HasPlaces, Holds, IsBounded, IsSettled, IsShort, IsTooLong, rise};
ghost use Rattle.mt_term.specs.Universes.{MeetsAll, Valuation, value};
ghost use Rattle.mt_term.specs.UniverseOrder.{acyclic, at_most, covers, height, is_covered, path};

use mt_term::{Atom, OutOfMemory, Pairs, UnivExpr};
use std::alloc::Global;

/// What constraints do to a row.
#[derive(Clone, Copy)]
enum Round {
    /// They hold.
    Settled,
    /// Some name got a longer path.
    Longer,
    /// Some path has more names than there are.
    Endless,
}

/// Lengthens a row by the constraint that `low` is below `high`, where it does not hold yet.
fn lengthen(row: &mut Vec<u64>, low: usize, high: usize) -> Round
    requires low { low < length row.old.items }
    requires high { high < length row.old.items }
    requires short { IsShort row.old.items }
    ensures size { length row.new.items ≡ length row.old.items }
    ensures short { IsShort row.new.items }
    ensures bound { (v : Valuation) (o : ℕ) → v low < v high → IsBounded v o row.old.items → IsBounded v o row.new.items }
    ensures grown { (b : ℕ) → slice_index row.old.items b ≤ slice_index row.new.items b }
    ensures rises { sum row.old.items + rise result ≤ sum row.new.items }
    ensures still { result ≡ Round.Settled → row.new.items ≡ row.old.items }
    ensures holds { result ≡ Round.Settled → Holds row.old.items (low, high) }
    ensures endless { result ≡ Round.Endless → IsTooLong row.new.items }
{
    let under = row[low];
    if under == 0 || under < row[high] {
        return Round::Settled;
    }
    if (row.len() as u64) < under {
        return Round::Endless;
    }
    row[high] = under + 1;
    Round::Longer
}

/// Lengthens a row by constraint `i`, where it does not hold yet.
fn lengthen_by(below: &Pairs, i: usize, row: &mut Vec<u64>) -> Round
    requires places { HasPlaces below.now (length row.old.items) }
    requires short { IsShort row.old.items }
    ensures size { length row.new.items ≡ length row.old.items }
    ensures short { IsShort row.new.items }
    ensures bound { (v : Valuation) (o : ℕ) → MeetsAll below.now v → IsBounded v o row.old.items → IsBounded v o row.new.items }
    ensures grown { (b : ℕ) → slice_index row.old.items b ≤ slice_index row.new.items b }
    ensures rises { sum row.old.items + rise result ≤ sum row.new.items }
    ensures still { result ≡ Round.Settled → row.new.items ≡ row.old.items }
    ensures holds { result ≡ Round.Settled → i < length below.now → Holds row.old.items (slice_index_or below.now i (0, 0)) }
    ensures endless { result ≡ Round.Endless → IsTooLong row.new.items }
{
    match below.get(i) {
        Some((low, high)) => lengthen(row, *low, *high),
        None => Round::Settled,
    }
}

/// Lengthens a row by each constraint in turn, up to one that shows a path without end.
fn lengthen_by_all(below: &Pairs, row: &mut Vec<u64>) -> Round
    requires places { HasPlaces below.now (length row.old.items) }
    requires short { IsShort row.old.items }
    ensures size { length row.new.items ≡ length row.old.items }
    ensures short { IsShort row.new.items }
    ensures bound { (v : Valuation) (o : ℕ) → MeetsAll below.now v → IsBounded v o row.old.items → IsBounded v o row.new.items }
    ensures grown { (b : ℕ) → slice_index row.old.items b ≤ slice_index row.new.items b }
    ensures rises { result ≡ Round.Longer → sum row.old.items < sum row.new.items }
    ensures settled { result ≡ Round.Settled → IsSettled below.now row.new.items }
    ensures endless { result ≡ Round.Endless → IsTooLong row.new.items }
{
    let mut longer = false;
    for i in 0..below.len() {
        match lengthen_by(below, i, row) {
            Round::Settled => {}
            Round::Longer => longer = true,
            Round::Endless => return Round::Endless,
        }
    }
    if longer {
        Round::Longer
    } else {
        Round::Settled
    }
}

/// Lengthens a row until no constraint does; or until some path has more names than there are,
/// which is so only where no valuation meets the constraints. Whether the row is settled.
fn settle(below: &Pairs, row: &mut Vec<u64>) -> bool
    requires places { HasPlaces below.now (length row.old.items) }
    requires short { IsShort row.old.items }
    ensures size { length row.new.items ≡ length row.old.items }
    ensures short { IsShort row.new.items }
    ensures bound { (v : Valuation) (o : ℕ) → MeetsAll below.now v → IsBounded v o row.old.items → IsBounded v o row.new.items }
    ensures grown { (b : ℕ) → slice_index row.old.items b ≤ slice_index row.new.items b }
    ensures settled { result ≡ true → IsSettled below.now row.new.items }
    ensures endless { result ≡ false → IsTooLong row.new.items }
{
    'rounds: loop {
        match lengthen_by_all(below, row) {
            Round::Settled => return true,
            Round::Longer => {}
            Round::Endless => return false,
        }
    }
}

/// How many places a row needs for the names of the constraints.
fn places(below: &Pairs) -> Result<usize, OutOfMemory>
    ensures { IfOk result (λ n. HasPlaces below.now n) }
{
    let mut most = 0;
    for i in 0..below.len() {
        if let Some((low, high)) = below.get(i) {
            let places = (*low).max(*high).checked_add(1).ok_or(OutOfMemory)?;
            most = most.max(places);
        }
    }
    Ok(most)
}

/// A row of one number.
fn row_of(alloc: Global, places: usize, number: u64) -> Result<Vec<u64>, OutOfMemory>
    ensures places { IfOk result (λ row. length row.items ≡ places) }
    ensures numbers { IfOk result (λ row. (b : ℕ) → b < places → slice_index row.items b ≡ number) }
{
    let mut row = Vec::new(alloc);
    for _ in 0..places {
        row.push(number)?;
    }
    Ok(row)
}

/// How many places a row needs for the names of the constraints and one more.
fn places_with(below: &Pairs, a: usize) -> Result<usize, OutOfMemory>
    ensures { IfOk result (λ n. HasPlaces below.now n × (a < n)) }
{
    let own = a.checked_add(1).ok_or(OutOfMemory)?;
    Ok(places(below)?.max(own))
}

/// How many names stand on the longest path from a name to each other; 0 where there is none.
fn paths_from(alloc: Global, below: &Pairs, a: usize) -> Result<Vec<u64>, OutOfMemory>
    requires { acyclic below.now ≡ true }
    ensures short { IfOk result (λ row. IsShort row.items) }
    ensures paths { IfOk result (λ row. (b : ℕ) → slice_index row.items b ≡ path below.now a b) }
{
    let most = places_with(below, a)?;
    let mut row = row_of(alloc, most, 0)?;
    row[a] = 1;
    if settle(below, &mut row) {
        Ok(row)
    } else {
        unreachable!()
    }
}

/// The height of each name, and 1 more, for the names of the constraints; none where no valuation
/// meets them.
fn heights(alloc: Global, below: &Pairs) -> Result<Option<Vec<u64>>, OutOfMemory>
    ensures acyclic { IfOk result (λ r. is_some r ≡ acyclic below.now) }
    ensures short { IfOk result (λ r. IfSome r (λ row. IsShort row.items)) }
    ensures heights { IfOk result (λ r. IfSome r (λ row. (b : ℕ) → slice_index row.items b - 1 ≡ height below.now b)) }
{
    let most = places(below)?;
    let mut row = row_of(alloc, most, 1)?;
    if settle(below, &mut row) {
        Ok(Some(row))
    } else {
        Ok(None)
    }
}

fn height_of(row: &[u64], a: usize) -> u64
    ensures { result ≡ slice_index row.now a - 1 }
{
    match row.get(a) {
        Some(n) => n.saturating_sub(1),
        None => 0,
    }
}

/// The value of an expression where each name has its height.
fn least_value(row: &[u64], u: &UnivExpr) -> u64
    requires { IsShort row.now }
    ensures { result ≡ value (λ b. slice_index row.now b - 1) u.now }
{
    let mut most = u64::from(u.base);
    for a in u.atoms.as_slice() {
        most = most.max(height_of(row, a.name) + u64::from(a.offset));
    }
    most
}

/// Whether a path shows that an atom is at most another; the row is that of the first one's name.
fn covers(row: &[u64], a: &Atom, b: &Atom) -> bool
    requires { IsShort row.now }
    ensures { result ≡ covers (λ x y. slice_index row.now y) a.now b.now }
{
    match row.get(b.name) {
        Some(n) => 0 < *n && u64::from(a.offset) < *n + u64::from(b.offset),
        None => false,
    }
}

/// Whether an atom is at most one of the atoms.
fn is_covered(row: &[u64], atoms: &[Atom], a: &Atom) -> bool
    requires { IsShort row.now }
    ensures { result ≡ is_covered (λ x y. slice_index row.now y) atoms.now a.now }
{
    atoms.iter().any(|b| covers(row, a, b))
}

/// Whether an atom is at most one of the atoms, by the paths from its name.
fn has_cover(alloc: Global, below: &Pairs, bounds: &[Atom], a: &Atom) -> Result<bool, OutOfMemory>
    requires { acyclic below.now ≡ true }
    ensures { IfOk result (λ b. b ≡ is_covered (path below.now) bounds.now a.now) }
{
    let row = paths_from(alloc, below, a.name)?;
    Ok(is_covered(&row, bounds, a))
}

/// Whether each atom is at most one of the others.
fn all_covered(
    alloc: Global,
    below: &Pairs,
    atoms: &[Atom],
    bounds: &[Atom],
) -> Result<bool, OutOfMemory>
    requires { acyclic below.now ≡ true }
    ensures { IfOk result (λ all. all ≡ list_all (is_covered (path below.now) bounds.now) atoms.now) }
{
    for a in atoms {
        if !has_cover(alloc, below, bounds, a)? {
            return Ok(false);
        }
    }
    Ok(true)
}

/// Whether each valuation that meets the constraints makes `u` at most `w`; all do where none meets
/// them.
pub fn at_most(
    alloc: Global,
    below: &Pairs,
    u: &UnivExpr,
    w: &UnivExpr,
) -> Result<bool, OutOfMemory>
    ensures { IfOk result (λ b. b ≡ at_most below.now u.now w.now) }
{
    match heights(alloc, below)? {
        None => Ok(true),
        Some(heights) => is_at_most(alloc, below, &heights, u, w),
    }
}

/// The same by the heights of the names.
fn is_at_most(
    alloc: Global,
    below: &Pairs,
    heights: &[u64],
    u: &UnivExpr,
    w: &UnivExpr,
) -> Result<bool, OutOfMemory>
    requires acyclic { acyclic below.now ≡ true }
    requires short { IsShort heights.now }
    requires heights { (b : ℕ) → slice_index heights.now b - 1 ≡ height below.now b }
    ensures { IfOk result (λ b. b ≡ at_most below.now u.now w.now) }
{
    if least_value(heights, w) < u64::from(u.base) {
        return Ok(false);
    }
    all_covered(alloc, below, u.atoms.as_slice(), w.atoms.as_slice())
}
