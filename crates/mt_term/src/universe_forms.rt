// Normal forms of universe expressions, their maximum, and the expression of the values one higher.
ghost use Rattle.std.specs.Prelude.{◌≡◌, ◌||◌, if◌then◌else◌, ◌^◌, ◌<◌, ◌≤◌, ◌++◌, true, false, length, take, drop, slice_index_or, MatchOption, SomeIff, IfOk, OnOk, OnErr};
ghost use Rattle.std.specs.List.{list_all};
ghost use Rattle.mt_term.specs.UniverseForms.{with_atom, with_atoms, is_below_an_atom, normal_form, maximum, fits_atom, raised_atoms, raised_base, raised};

use crate::universes::{Atom, Atoms, UnivExpr};
use std::alloc::{AllocError, AllocFailed, Global};

/// The place of the first atom whose name is not below a name.
fn place_of(atoms: &[Atom], atom: &Atom) -> usize
    ensures within { result ≤ length atoms.now }
    ensures before { with_atom atom.now atoms.now
        ≡ take result atoms.now ++ with_atom atom.now (drop result atoms.now) }
    ensures at { result < length atoms.now
        → atom.now.name ≤ (slice_index_or atoms.now result atom.now).name }
{
    for (i, other) in atoms.iter().enumerate() {
        if atom.name <= other.name {
            return i;
        }
    }
    atoms.len()
}

/// Adds an atom to atoms by name.
fn add_atom(atoms: &mut Vec<Atom>, atom: Atom) -> Result<(), AllocError>
    ensures ok { OnOk result (atoms.new.items ≡ with_atom atom atoms.old.items) }
    ensures err { OnErr result (atoms.new.items ≡ atoms.old.items) }
{
    let place = place_of(atoms, &atom);
    if place < atoms.len() && atoms[place].name == atom.name {
        let offset = atom.offset.max(atoms[place].offset);
        atoms[place] = Atom {
            name: atom.name,
            offset,
        };
    } else {
        atoms.insert(place, atom)?;
    }
    Ok(())
}

/// Adds atoms to atoms by name.
fn add_atoms(atoms: &mut Vec<Atom>, more: &[Atom]) -> Result<(), AllocError>
    ensures { OnOk result (atoms.new.items ≡ with_atoms more.now atoms.old.items) }
{
    let mut left = more.len();
    while 0 < left {
        left -= 1;
        add_atom(atoms, more[left])?;
    }
    Ok(())
}

/// Whether some offset is at least a number.
fn is_below_an_atom(base: u32, atoms: &[Atom]) -> bool
    ensures { result ≡ is_below_an_atom base atoms.now }
{
    atoms.iter().any(|a| base <= a.offset)
}

/// A base beside atoms: 0 where some offset is at least the base.
fn base_beside(base: u32, atoms: &[Atom], more: &[Atom]) -> u32
    ensures { result ≡ (if is_below_an_atom base atoms.now || is_below_an_atom base more.now then 0 else base) }
{
    if is_below_an_atom(base, atoms) || is_below_an_atom(base, more) {
        0
    } else {
        base
    }
}

/// The normal form of a base and atoms: one atom for each name, by the names' numbers, and base 0
/// where some offset is at least the base.
pub fn normal_form(alloc: Global, u: &UnivExpr) -> Result<UnivExpr, AllocError>
    ensures { IfOk result (λ n. n ≡ normal_form u.now) }
{
    let mut atoms = Vec::new(alloc);
    add_atoms(&mut atoms, u.atoms.as_slice())?;
    let base = if is_below_an_atom(u.base, u.atoms.as_slice()) {
        0
    } else {
        u.base
    };
    Ok(UnivExpr {
        base,
        atoms: Atoms::from_vec(atoms),
    })
}

/// The maximum of two expressions, in normal form.
pub fn maximum(alloc: Global, u: &UnivExpr, w: &UnivExpr) -> Result<UnivExpr, AllocError>
    ensures { IfOk result (λ n. n ≡ maximum u.now w.now) }
{
    let mut atoms = Vec::new(alloc);
    add_atoms(&mut atoms, w.atoms.as_slice())?;
    add_atoms(&mut atoms, u.atoms.as_slice())?;
    Ok(UnivExpr {
        base: base_beside(u.base.max(w.base), u.atoms.as_slice(), w.atoms.as_slice()),
        atoms: Atoms::from_vec(atoms),
    })
}

/// The atoms with each offset one higher, where all fit.
fn raised_atoms(alloc: Global, atoms: &[Atom]) -> Result<Option<Vec<Atom>>, AllocError>
    ensures { IfOk result (λ r. MatchOption r
        (list_all fits_atom (raised_atoms atoms.now) ≡ false)
        (λ v. (v.items ≡ raised_atoms atoms.now)
        × (list_all fits_atom (raised_atoms atoms.now) ≡ true))) }
{
    let mut higher = Vec::new(alloc);
    for atom in atoms {
        match atom.offset.checked_add(1) {
            Some(offset) => higher.push(Atom {
                name: atom.name,
                offset,
            })?,
            None => return Ok(None),
        }
    }
    Ok(Some(higher))
}

/// The base one higher, where it fits; 0 beside atoms stays.
fn raised_base(base: u32, atoms: &[Atom]) -> Option<u32>
    ensures { SomeIff result (raised_base base atoms.now < 2 ^ 32) (raised_base base atoms.now) }
{
    if base == 0 && !atoms.is_empty() {
        Some(0)
    } else {
        base.checked_add(1)
    }
}

/// The expression of the values one higher; none where a number would pass 4,294,967,295.
pub fn successor(alloc: Global, u: &UnivExpr) -> Result<Option<UnivExpr>, AllocError>
    ensures { IfOk result (λ r. r ≡ raised u.now) }
{
    let atoms = match raised_atoms(alloc, u.atoms.as_slice())? {
        Some(atoms) => atoms,
        None => return Ok(None),
    };
    match raised_base(u.base, u.atoms.as_slice()) {
        Some(base) => Ok(Some(UnivExpr {
            base,
            atoms: Atoms::from_vec(atoms),
        })),
        None => Ok(None),
    }
}
