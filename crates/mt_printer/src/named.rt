// The entries and constructors that stand in a term.
ghost use Rattle.std.specs.Prelude.{◌≡◌, ◌++◌, ◌∷◌, [], OnOk};
ghost use Rattle.mt_printer.specs.Chosen.{is_one_of};
ghost use Rattle.mt_printer.specs.NamedIn.{name_in, named_all, named_arms, named_each, named_in, names_in};
ghost use Rattle.mt_printer.specs.ScopeOf.{hypotheses_of, trees_behind};
ghost use Rattle.mt_printer.specs.Telescopes.{types_in};
ghost use Rattle.mt_term.specs.TreeOf.{arms_of, tree_of, trees_of};

use crate::walks::{constructor_name, entry_name};
use mt_term::{Branches, Entries, Hyp, OutOfMemory, Term, Terms, deeper};
use std::alloc::AllocFailed;

// What has a name in an environment: an entry, or a constructor of one.
#[derive(Clone, Copy)]
pub(crate) enum Named {
    Entry(usize),
    Constructor(usize, usize),
}

// The name itself; no bytes where there is none.
fn name_in(entries: &Entries, named: Named) -> &[u8]
    ensures { result.now ≡ name_in entries.now named }
{
    match named {
        Named::Entry(n) => entry_name(entries, n),
        Named::Constructor(e, k) => constructor_name(entries, e, k),
    }
}

// Whether a name is that of one of these.
pub(crate) fn is_name_of_one(entries: &Entries, found: &[Named], name: &[u8]) -> bool
    ensures { result ≡ is_one_of (names_in entries.now found.now) name.now }
{
    for named in found {
        if name_in(entries, *named) == name {
            return true;
        }
    }
    false
}

fn add(found: &mut Vec<Named>, named: Named) -> Result<(), OutOfMemory>
    ensures { OnOk result (found.new.items ≡ found.old.items ++ named ∷ []) }
{
    found.push(named)?;
    Ok(())
}

// Adds the entries and constructors that stand in a term, as often as they stand there.
#[cycle(named)]
fn add_named(found: &mut Vec<Named>, t: &Term, depth_left: usize) -> Result<(), OutOfMemory>
    ensures { OnOk result (found.new.items ≡ found.old.items ++ named_in (tree_of t.now)) }
{
    let depth_left = deeper(depth_left)?;
    match t {
        Term::Var(_) | Term::Sort(_) => Ok(()),
        Term::Prod(_, a, b) | Term::Lam(_, a, b) | Term::App(a, b) => {
            add_named(found, a, depth_left)?;
            add_named(found, b, depth_left)
        }
        Term::Const(n) | Term::Ind(n) => add(found, Named::Entry(*n)),
        Term::Con(e, k) => add(found, Named::Constructor(*e, *k)),
        Term::Match(_, r, c, bs) => {
            add_named(found, r, depth_left)?;
            add_named(found, c, depth_left)?;
            add_named_of_branches(found, bs, depth_left)
        }
        Term::Meta(_, ts) => add_named_of_terms(found, ts, depth_left),
    }
}

#[cycle(named)]
fn add_named_of_terms(
    found: &mut Vec<Named>,
    ts: &Terms,
    depth_left: usize,
) -> Result<(), OutOfMemory>
    ensures { OnOk result (found.new.items ≡ found.old.items ++ named_all (trees_of ts.now)) }
{
    let depth_left = deeper(depth_left)?;
    match ts {
        Terms::End => Ok(()),
        Terms::Item(t, ts) => {
            add_named(found, t, depth_left)?;
            add_named_of_terms(found, ts, depth_left)
        }
    }
}

#[cycle(named)]
fn add_named_of_branches(
    found: &mut Vec<Named>,
    bs: &Branches,
    depth_left: usize,
) -> Result<(), OutOfMemory>
    ensures { OnOk result (found.new.items ≡ found.old.items ++ named_arms (arms_of bs.now)) }
{
    let depth_left = deeper(depth_left)?;
    match bs {
        Branches::End => Ok(()),
        Branches::Item(b, bs) => {
            let branch = b;
            add_named(found, &branch.body, depth_left)?;
            add_named_of_branches(found, bs, depth_left)
        }
    }
}

// The same of some terms.
pub(crate) fn add_named_of_parts(
    found: &mut Vec<Named>,
    parts: &[&Term],
    depth_left: usize,
) -> Result<(), OutOfMemory>
    ensures { OnOk result (found.new.items ≡ found.old.items ++ named_each (trees_behind parts.now)) }
{
    for part in parts {
        add_named(found, part, depth_left)?;
    }
    Ok(())
}

// The same of the types of some hypotheses.
pub(crate) fn add_named_of_types(
    found: &mut Vec<Named>,
    hyps: &[Hyp],
    depth_left: usize,
) -> Result<(), OutOfMemory>
    ensures { OnOk result (found.new.items ≡ found.old.items ++ named_each (types_in (hypotheses_of hyps.now))) }
{
    for hyp in hyps {
        add_named(found, &hyp.ty, depth_left)?;
    }
    Ok(())
}
