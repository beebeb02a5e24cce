// Lengths of the longest paths and heights of names, kept in tables.
ghost use Rattle.std.specs.Prelude.{◌≡◌, ◌≢◌, ℕ, ◌+◌, ◌<◌, ◌≤◌, max, ◌==◌, length, slice_index, OnOk, OnErr};
ghost use Rattle.mt_term.specs.UniverseOrder.{joined, more_paths, more_heights};
ghost use Rattle.mt_universe.specs.Tables.{alone, entry, AreFresh};

use std::alloc::{AllocError, Global};

/// How many names the tables have room for.
pub const NAMES: usize = 256;

/// How many lengths a table of paths has.
pub const LENGTHS: usize = 65536;

/// How many names stand on two paths, one after the other; 0 where one of them is none.
fn join(m: u16, n: u16) -> u16
    requires { m + n < 65536 }
    ensures { result ≡ joined m n }
{
    if m == 0 || n == 0 { 0 } else { m + n }
}

/// How many names stand on the longest path from `a` to `b`; 0 where there is none.
#[tactic(auto, using(crate::proofs::TableLaws::entry_in, crate::proofs::TableLaws::entry_past_row, crate::proofs::TableLaws::entry_past_column))]
pub fn length_of(paths: &[u16], a: usize, b: usize) -> u16
    ensures { result ≡ entry paths.now a b }
{
    let alone = u16::from(a == b);
    if a < NAMES && b < NAMES {
        match paths.get(NAMES * a + b) {
            Some(n) => *n,
            None => alone,
        }
    } else {
        alone
    }
}

/// The table without constraints: each name is on its own path alone.
pub fn clear(paths: &mut [u16])
    requires { length paths.old ≡ LENGTHS }
    ensures { (a b : ℕ) → entry paths.new a b ≡ alone a b }
{
    for i in 0..LENGTHS {
        paths[i] = u16::from(i / NAMES == i % NAMES);
    }
}

/// The paths from a name, where one on which `into` names stand comes to a name below `high`.
fn extend_row(paths: &mut [u16], row: usize, into: u16, high: usize)
    requires size { length paths.old ≡ LENGTHS }
    requires row_in { row < NAMES }
    requires high_in { high < NAMES }
    requires apart { 0 < into → row ≢ high }
    requires short { (b : ℕ) → into + entry paths.old high b < 65536 }
    ensures row { (b : ℕ) → entry paths.new row b
        ≡ max (entry paths.old row b) (joined into (entry paths.old high b)) }
    ensures others { (a b : ℕ) → a ≢ row → entry paths.new a b ≡ entry paths.old a b }
{
    if into == 0 {
        return;
    }
    for b in 0..NAMES {
        let through = join(into, length_of(paths, high, b));
        let i = NAMES * row + b;
        paths[i] = paths[i].max(through);
    }
}

/// The paths with the constraint that `low` is below `high`, from where none leads back.
pub fn extend_paths(paths: &mut [u16], low: usize, high: usize)
    requires size { length paths.old ≡ LENGTHS }
    requires low_in { low < NAMES }
    requires high_in { high < NAMES }
    requires short { (a b : ℕ) → entry paths.old a b ≤ 257 }
    requires back { entry paths.old high low ≡ 0 }
    ensures { (a b : ℕ) → entry paths.new a b ≡ more_paths (entry paths.old) low high a b }
{
    for a in 0..NAMES {
        let into = length_of(paths, a, low);
        extend_row(paths, a, into, high);
    }
}

/// The heights with the constraint that `low` is below `high`, by the paths before it.
pub fn extend_heights(heights: &mut [u16], paths: &[u16], low: usize, high: usize)
    requires size { length heights.old ≡ NAMES }
    requires low_in { low < NAMES }
    requires high_in { high < NAMES }
    requires short { (a b : ℕ) → entry paths.now a b ≤ 257 }
    requires small { (b : ℕ) → slice_index heights.old b ≤ 256 }
    ensures { (b : ℕ) → slice_index heights.new b
        ≡ more_heights (entry paths.now) (slice_index heights.old) low high b }
{
    let under = heights[low] + 1;
    for b in 0..NAMES {
        let reached = join(under, length_of(paths, high, b));
        heights[b] = heights[b].max(reached.saturating_sub(1));
    }
}

/// The heights without constraints.
fn clear_heights(heights: &mut [u16])
    ensures { (b : ℕ) → slice_index heights.new b ≡ 0 }
{
    for height in heights.iter_mut() {
        *height = 0;
    }
}

/// Tables without constraints.
pub fn make_tables(
    alloc: Global,
    paths: &mut Vec<u16>,
    heights: &mut Vec<u16>,
) -> Result<(), AllocError>
    ensures ok { OnOk result (AreFresh paths.new.items heights.new.items) }
    ensures err { OnErr result
        ((paths.new.items ≡ paths.old.items) × (heights.new.items ≡ heights.old.items)) }
{
    let mut lengths = vec![in alloc; 0u16; LENGTHS]?;
    let mut zeros = vec![in alloc; 0u16; NAMES]?;
    clear_tables(&mut lengths, &mut zeros);
    *paths = lengths;
    *heights = zeros;
    Ok(())
}

/// The tables back to no constraints.
pub fn clear_tables(paths: &mut [u16], heights: &mut [u16])
    requires paths { length paths.old ≡ LENGTHS }
    requires heights { length heights.old ≡ NAMES }
    ensures { AreFresh paths.new heights.new }
{
    clear(paths);
    clear_heights(heights);
}
