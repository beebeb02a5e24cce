// Which name a binder is shown by.
ghost use Rattle.std.specs.Prelude.{◌≡◌, ◌++◌, IfOk};
ghost use Rattle.mt_printer.specs.Chosen.{base_name, candidate, chosen, fit_name, is_one_of, shown_binder};
ghost use Rattle.mt_printer.specs.NamedIn.{avoided_by};
ghost use Rattle.mt_printer.specs.ScopeOf.{hypotheses_of, trees_behind};
ghost use Rattle.mt_printer.specs.Telescopes.{types_in};
ghost use Rattle.mt_term.specs.TreeOf.{tree_of};

use crate::bytes::{put, put_number};
use crate::named::{Named, add_named_of_parts, add_named_of_types, is_name_of_one};
use crate::scopes::Scope;
use crate::walks::uses;
use mt_term::{Entries, Hyp, Name, OutOfMemory, Term};
use std::alloc::Global;

// The base name of number 0, and with `_k` at any other.
fn candidate(alloc: Global, base: &[u8], k: u64) -> Result<Name, OutOfMemory>
    ensures { IfOk result (λ name. name ≡ candidate base.now k) }
{
    let mut bytes = Vec::new(alloc);
    put(&mut bytes, base)?;
    if k > 0 {
        put(&mut bytes, b"_")?;
        put_number(alloc, &mut bytes, k)?;
    }
    Ok(Name::from_vec(bytes))
}

// A name itself, or `x` for `_`.
fn base_name(name: &Name) -> &[u8]
    ensures { result.now ≡ base_name name.now }
{
    if name.as_bytes() == b"_".as_slice() {
        b"x"
    } else {
        name.as_bytes()
    }
}

// Whether a name is in scope, or that of what was found under a binder.
fn is_avoided(entries: &Entries, scope: &Scope, found: &[Named], name: &[u8]) -> bool
    ensures { result ≡ is_one_of (avoided_by entries.now scope.now found.now) name.now }
{
    scope.shows(name) || is_name_of_one(entries, found, name)
}

// The first candidate that is not avoided: one of them is, of one more than there are names.
fn fit_name(
    alloc: Global,
    entries: &Entries,
    scope: &Scope,
    base: &[u8],
    found: &[Named],
) -> Result<Name, OutOfMemory>
    ensures { IfOk result (λ answer. answer ≡ fit_name (avoided_by entries.now scope.now found.now) base.now) }
{
    let names = (scope.len() + found.len()) as u64;
    for k in 0..names + 1 {
        let answer = candidate(alloc, base, k)?;
        if !is_avoided(entries, scope, found, answer.as_bytes()) {
            return Ok(answer);
        }
    }
    unreachable!()
}

// The name chosen for a binder, over further hypotheses and parts.
pub(crate) fn choose(
    alloc: Global,
    entries: &Entries,
    scope: &Scope,
    name: &Name,
    hyps: &[Hyp],
    parts: &[&Term],
    depth_left: usize,
) -> Result<Name, OutOfMemory>
    ensures { IfOk result (λ answer. answer ≡ chosen entries.now scope.now name.now (types_in (hypotheses_of hyps.now) ++ trees_behind parts.now)) }
{
    let mut found = Vec::new(alloc);
    add_named_of_types(&mut found, hyps, depth_left)?;
    add_named_of_parts(&mut found, parts, depth_left)?;
    fit_name(alloc, entries, scope, base_name(name), &found)
}

// The name that a binder shows, if its variable is used: it is variable `i` of the part.
pub(crate) fn shown_binder(
    alloc: Global,
    entries: &Entries,
    scope: &Scope,
    name: &Name,
    i: usize,
    part: &Term,
    depth_left: usize,
) -> Result<Option<Name>, OutOfMemory>
    ensures { IfOk result (λ answer. answer ≡ shown_binder entries.now scope.now name.now i (tree_of part.now)) }
{
    if !uses(part, i, depth_left)? {
        return Ok(None);
    }
    let answer = choose(alloc, entries, scope, name, &[], &[part], depth_left)?;
    Ok(Some(answer))
}
