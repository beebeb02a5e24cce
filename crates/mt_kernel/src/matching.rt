// What a match and a recursive function become by a step, without its charge.
ghost use Rattle.std.specs.Prelude.{◌≡◌, IfOk, is_some};
ghost use Rattle.mt_kernel.specs.Arguments.{args_of, seen_branch, tree_in};
ghost use Rattle.mt_term.specs.ConstructorOf.{seen_constructor};
ghost use Rattle.mt_term.specs.Declarations.{constructor_at};
ghost use Rattle.mt_term.specs.EntryOf.{seen_declaration};
ghost use Rattle.mt_term.specs.Seen.{seen_tree};
ghost use Rattle.mt_term.specs.Spines.{as_con, as_const};
ghost use Rattle.mt_term.specs.Substitution.{all_but, count, products};
ghost use Rattle.mt_term.specs.Trees.{End};
ghost use Rattle.mt_term.specs.TreeOf.{arms_of, tree_of, trees_of};
ghost use Rattle.mt_rules.specs.WeakHead.{branch_at, branch_under, corecursive_body, if_full, matched, params_of, recursive_step, taken, takes, unrolled};

use crate::arguments::{Args, all_but, apply, apply_with, count};
use mt_term::{
    Branch, Branches, Constructor, Entries, Entry, OutOfMemory, Term, Terms, copy, copy_branches,
    deeper, fill,
};
use std::alloc::Global;

/// How many products stand at the front of a type.
pub fn products(ty: &Term, depth_left: usize) -> Result<usize, OutOfMemory>
    ensures { IfOk result (λ n. n ≡ products (tree_of ty.now)) }
{
    let depth_left = deeper(depth_left)?;
    match ty {
        Term::Prod(_, _, codomain) => products(codomain, depth_left)?
            .checked_add(1)
            .ok_or(OutOfMemory),
        _ => Ok(0),
    }
}

/// How many terms there are.
pub fn length(terms: &Terms, depth_left: usize) -> Result<usize, OutOfMemory>
    ensures { IfOk result (λ n. n ≡ count (trees_of terms.now)) }
{
    let depth_left = deeper(depth_left)?;
    match terms {
        Terms::End => Ok(0),
        Terms::Item(_, rest) => length(rest, depth_left)?.checked_add(1).ok_or(OutOfMemory),
    }
}

/// Constructor `k` of entry `e`.
pub fn constructor_at(entries: &Entries, e: usize, k: usize) -> Option<&Constructor>
    ensures { seen_constructor result ≡ constructor_at entries.now e k }
{
    match entries.get(e) {
        Some(Entry::Inductive { cons, .. }) => cons.get(k),
        None
        | Some(Entry::Axiom { .. })
        | Some(Entry::Definition { .. })
        | Some(Entry::Recursive { .. }) => None,
    }
}

/// Whether these are all the arguments of a constructor.
fn takes(
    constructor: Option<&Constructor>,
    args: &Args<'_>,
    depth_left: usize,
) -> Result<bool, OutOfMemory>
    ensures { IfOk result (λ b. b ≡ takes (seen_constructor constructor.entry) (count (args_of args.now))) }
{
    match constructor {
        None => Ok(false),
        Some(c) => Ok(count(args)? == products(&c.ty, depth_left)?),
    }
}

/// Whether the term on the arguments is a constructor with all its arguments.
fn is_full(
    entries: &Entries,
    t: &Term,
    args: &Args<'_>,
    depth_left: usize,
) -> Result<bool, OutOfMemory>
    ensures { IfOk result (λ b. b ≡ is_some (if_full entries.now (as_con (tree_of t.now) (args_of args.now)))) }
{
    let depth_left = deeper(depth_left)?;
    match t {
        Term::App(f, a) => is_full(entries, &*f, &Args::More(&*a, &*args), depth_left),
        Term::Con(e, k) => takes(constructor_at(entries, *e, *k), args, depth_left),
        _ => Ok(false),
    }
}

/// What a recursive function of this place and body becomes on the arguments, where the one at the
/// place has the weak head `head`.
pub fn recursive_step(
    alloc: Global,
    entries: &Entries,
    place: usize,
    body: &Term,
    args: &Args<'_>,
    head: &Term,
    depth_left: usize,
) -> Result<Option<Term>, OutOfMemory>
    ensures { IfOk result (λ o. tree_in o ≡ recursive_step entries.now place (tree_of body.now) (args_of args.now) (tree_of head.now)) }
{
    if !is_full(entries, head, &Args::End, depth_left)? {
        return Ok(None);
    }
    let body = copy(alloc, body)?;
    Ok(Some(apply_with(alloc, body, args, place, head)?))
}

/// The number of an inductive type's parameters.
fn params_of(entry: Option<&Entry>) -> usize
    ensures { result ≡ params_of (seen_declaration entry.entry) }
{
    match entry {
        Some(Entry::Inductive { params, .. }) => *params,
        None
        | Some(Entry::Axiom { .. })
        | Some(Entry::Definition { .. })
        | Some(Entry::Recursive { .. }) => 0,
    }
}

/// The branch of a number.
fn branch_at(
    branches: &Branches,
    k: usize,
    depth_left: usize,
) -> Result<Option<&Branch>, OutOfMemory>
    ensures { IfOk result (λ o. seen_branch o ≡ branch_at (arms_of branches.now) k) }
{
    let depth_left = deeper(depth_left)?;
    match branches {
        Branches::End => Ok(None),
        Branches::Item(b, rest) => {
            if k == 0 {
                Ok(Some(b))
            } else {
                branch_at(rest, k - 1, depth_left)
            }
        }
    }
}

/// A branch's body under the arguments past the parameters, where they are as many as its names.
fn branch_under(
    alloc: Global,
    branch: Option<&Branch>,
    params: usize,
    args: &Args<'_>,
    depth_left: usize,
) -> Result<Option<Term>, OutOfMemory>
    ensures { IfOk result (λ o. tree_in o ≡ branch_under (seen_branch branch.entry) (all_but params (args_of args.now))) }
{
    match branch {
        None => Ok(None),
        Some(b) => {
            let rest = all_but(alloc, args, params)?;
            if b.names.len() != length(&rest, depth_left)? {
                return Ok(None);
            }
            Ok(Some(fill(alloc, &b.body, &rest)?))
        }
    }
}

/// The body of the branch for the constructor that the term on the arguments is.
fn take_branch(
    alloc: Global,
    entries: &Entries,
    number: usize,
    t: &Term,
    args: &Args<'_>,
    branches: &Branches,
    depth_left: usize,
) -> Result<Option<Term>, OutOfMemory>
    ensures { IfOk result (λ o. tree_in o ≡ taken entries.now number (if_full entries.now (as_con (tree_of t.now) (args_of args.now))) (arms_of branches.now)) }
{
    let depth_left = deeper(depth_left)?;
    match t {
        Term::App(f, a) => {
            let args = Args::More(&*a, &*args);
            take_branch(alloc, entries, number, &*f, &args, branches, depth_left)
        }
        Term::Con(e, k) => {
            if !takes(constructor_at(entries, *e, *k), args, depth_left)? || *e != number {
                return Ok(None);
            }
            let branch = branch_at(branches, *k, depth_left)?;
            branch_under(
                alloc,
                branch,
                params_of(entries.get(number)),
                args,
                depth_left,
            )
        }
        _ => Ok(None),
    }
}

/// The body on the arguments, of a corecursive function on arguments.
fn unroll(
    alloc: Global,
    entries: &Entries,
    t: &Term,
    args: &Args<'_>,
    depth_left: usize,
) -> Result<Option<Term>, OutOfMemory>
    ensures { IfOk result (λ o. tree_in o ≡ unrolled entries.now (as_const (tree_of t.now) (args_of args.now))) }
{
    let depth_left = deeper(depth_left)?;
    match t {
        Term::App(f, a) => unroll(alloc, entries, &*f, &Args::More(&*a, &*args), depth_left),
        Term::Const(c) => match corecursive_body(entries.get(*c)) {
            None => Ok(None),
            Some(body) => {
                let body = copy(alloc, body)?;
                Ok(Some(apply(alloc, body, args)?))
            }
        },
        _ => Ok(None),
    }
}

/// The body of a corecursive function.
fn corecursive_body(entry: Option<&Entry>) -> Option<&Term>
    ensures { seen_tree result ≡ corecursive_body (seen_declaration entry.entry) }
{
    match entry {
        Some(Entry::Recursive { co, body, .. }) => { if *co { Some(body) } else { None } }
        None
        | Some(Entry::Axiom { .. })
        | Some(Entry::Definition { .. })
        | Some(Entry::Inductive { .. }) => None,
    }
}

/// What a match becomes, where the weak head of its matched term is `head`.
pub fn contract_match(
    alloc: Global,
    entries: &Entries,
    number: usize,
    returns: &Term,
    branches: &Branches,
    head: &Term,
    depth_left: usize,
) -> Result<Option<Term>, OutOfMemory>
    ensures { IfOk result (λ o. tree_in o ≡ matched entries.now number (tree_of returns.now) (arms_of branches.now) (tree_of head.now)) }
{
    if let Some(t) = take_branch(
        alloc,
        entries,
        number,
        head,
        &Args::End,
        branches,
        depth_left,
    )? {
        return Ok(Some(t));
    }
    match unroll(alloc, entries, head, &Args::End, depth_left)? {
        None => Ok(None),
        Some(c) => {
            let returns = Box::new(alloc, copy(alloc, returns)?)?;
            let c = Box::new(alloc, c)?;
            let branches = copy_branches(alloc, branches)?;
            Ok(Some(Term::Match(number, returns, c, branches)))
        }
    }
}
