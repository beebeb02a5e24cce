// The text of sorts.
ghost use Rattle.std.specs.Prelude.{◌≡◌, ◌++◌, OnOk};
ghost use Rattle.mt_printer.specs.TermText.{atom_text, atoms_text, offset_text, sort_text, universe_name, universe_text};

use crate::bytes::{put, put_number};
use mt_term::{Atom, Names, OutOfMemory, Sort};
use std::alloc::Global;

// The name of a universe; no bytes where there is none.
pub(crate) fn universe_name(names: &Names, n: usize) -> &[u8]
    ensures { result.now ≡ universe_name names.now n }
{
    match names.get(n) {
        Some(name) => name.as_bytes(),
        None => b"",
    }
}

fn put_offset(alloc: Global, out: &mut Vec<u8>, offset: u32) -> Result<(), OutOfMemory>
    ensures { OnOk result (out.new.items ≡ out.old.items ++ offset_text offset) }
{
    if offset == 0 {
        return Ok(());
    }
    put(out, b"+")?;
    put_number(alloc, out, u64::from(offset))
}

fn put_atom(alloc: Global, out: &mut Vec<u8>, names: &Names, atom: &Atom) -> Result<(), OutOfMemory>
    ensures { OnOk result (out.new.items ≡ out.old.items ++ atom_text names.now atom.now) }
{
    put(out, universe_name(names, atom.name))?;
    put_offset(alloc, out, atom.offset)
}

// Further atoms.
fn put_atoms(
    alloc: Global,
    out: &mut Vec<u8>,
    names: &Names,
    atoms: &[Atom],
) -> Result<(), OutOfMemory>
    ensures { OnOk result (out.new.items ≡ out.old.items ++ atoms_text names.now atoms.now) }
{
    for atom in atoms {
        put(out, b",")?;
        put_atom(alloc, out, names, atom)?;
    }
    Ok(())
}

fn put_universe(
    alloc: Global,
    out: &mut Vec<u8>,
    names: &Names,
    base: u32,
    atoms: &[Atom],
) -> Result<(), OutOfMemory>
    ensures { OnOk result (out.new.items ≡ out.old.items ++ universe_text names.now base atoms.now) }
{
    match atoms {
        [first, rest @ ..] if base == 0 => {
            put_atom(alloc, out, names, first)?;
            put_atoms(alloc, out, names, rest)
        }
        _ => {
            put_number(alloc, out, u64::from(base))?;
            put_atoms(alloc, out, names, atoms)
        }
    }
}

pub(crate) fn put_sort(
    alloc: Global,
    out: &mut Vec<u8>,
    names: &Names,
    sort: &Sort,
) -> Result<(), OutOfMemory>
    ensures { OnOk result (out.new.items ≡ out.old.items ++ sort_text names.now sort.now) }
{
    match sort {
        Sort::Prop => put(out, b"Prop"),
        Sort::Typ(u) => {
            put(out, b"Type[")?;
            put_universe(alloc, out, names, u.base, u.atoms.as_slice())?;
            put(out, b"]")
        }
    }
}
