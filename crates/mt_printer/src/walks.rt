// Whether the variable of a binder is used under it, and the names of entries and constructors.
ghost use Rattle.std.specs.Prelude.{◌≡◌, ◌+◌, IfOk};
ghost use Rattle.mt_printer.specs.Chosen.{uses, uses_all, uses_arms, entry_name, constructor_name};
ghost use Rattle.mt_term.specs.Naming.{name_of};
ghost use Rattle.mt_term.specs.EntryOf.{declaration_of};
ghost use Rattle.mt_term.specs.TreeOf.{tree_of, trees_of, arms_of};

use mt_term::{Branches, Entries, Entry, Name, OutOfMemory, Term, Terms, deeper};

// An index past further binders. Where no number is so large, memory is wanting.
fn past(index: usize, binders: usize) -> Result<usize, OutOfMemory>
    ensures { IfOk result (λ further. further ≡ index + binders) }
{
    index.checked_add(binders).ok_or(OutOfMemory)
}

// Whether variable `i` stands in a term.
#[cycle(uses)]
pub(crate) fn uses(t: &Term, i: usize, depth_left: usize) -> Result<bool, OutOfMemory>
    ensures { IfOk result (λ answer. answer ≡ uses i (tree_of t.now)) }
{
    let depth_left = deeper(depth_left)?;
    match t {
        Term::Var(j) => Ok(i == *j),
        Term::Sort(_) | Term::Const(_) | Term::Ind(_) | Term::Con(_, _) => Ok(false),
        Term::Prod(_, a, b) => {
            let first = uses(a, i, depth_left)?;
            Ok(first || uses(b, past(i, 1)?, depth_left)?)
        }
        Term::Lam(_, a, b) => {
            let first = uses(a, i, depth_left)?;
            Ok(first || uses(b, past(i, 1)?, depth_left)?)
        }
        Term::App(f, a) => {
            let first = uses(f, i, depth_left)?;
            Ok(first || uses(a, i, depth_left)?)
        }
        Term::Match(_, r, c, bs) => {
            let first = uses(r, i, depth_left)?;
            let head = first || uses(c, i, depth_left)?;
            Ok(head || uses_branches(bs, i, depth_left)?)
        }
        Term::Meta(_, ts) => uses_terms(ts, i, depth_left),
    }
}

#[cycle(uses)]
fn uses_terms(ts: &Terms, i: usize, depth_left: usize) -> Result<bool, OutOfMemory>
    ensures { IfOk result (λ answer. answer ≡ uses_all i (trees_of ts.now)) }
{
    let depth_left = deeper(depth_left)?;
    match ts {
        Terms::End => Ok(false),
        Terms::Item(t, ts) => {
            let first = uses(t, i, depth_left)?;
            Ok(first || uses_terms(ts, i, depth_left)?)
        }
    }
}

#[cycle(uses)]
fn uses_branches(bs: &Branches, i: usize, depth_left: usize) -> Result<bool, OutOfMemory>
    ensures { IfOk result (λ answer. answer ≡ uses_arms i (arms_of bs.now)) }
{
    let depth_left = deeper(depth_left)?;
    match bs {
        Branches::End => Ok(false),
        Branches::Item(b, bs) => {
            let branch = b;
            let inner = past(i, branch.names.len())?;
            let first = uses(&branch.body, inner, depth_left)?;
            Ok(first || uses_branches(bs, i, depth_left)?)
        }
    }
}

/// The name of an entry.
fn name_of(entry: &Entry) -> &Name
    ensures { result.now ≡ name_of (declaration_of entry.now) }
{
    match entry {
        Entry::Axiom { name, .. } => name,
        Entry::Definition { name, .. } => name,
        Entry::Inductive { name, .. } => name,
        Entry::Recursive { name, .. } => name,
    }
}

// The name of entry `n`; no bytes where there is none.
pub(crate) fn entry_name(entries: &Entries, n: usize) -> &[u8]
    ensures { result.now ≡ entry_name entries.now n }
{
    match entries.get(n) {
        Some(entry) => name_of(entry).as_bytes(),
        None => b"",
    }
}

// The name of constructor `k` of entry `e`; no bytes where there is none.
pub(crate) fn constructor_name(entries: &Entries, e: usize, k: usize) -> &[u8]
    ensures { result.now ≡ constructor_name entries.now e k }
{
    match entries.get(e) {
        Some(Entry::Inductive { cons, .. }) => match cons.get(k) {
            Some(constructor) => constructor.name.as_bytes(),
            None => b"",
        },
        _ => b"",
    }
}
