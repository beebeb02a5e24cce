// Inductive types on their parameters and indices.
ghost use Rattle.std.specs.Prelude.{◌≡◌, IfOk};
ghost use Rattle.mt_kernel.specs.Arguments.{args_of, tree_in};
ghost use Rattle.mt_kernel.specs.Families.{family_in, trees_in};
ghost use Rattle.mt_term.specs.EntryOf.{seen_declaration};
ghost use Rattle.mt_rules.specs.Inference.{as_family, family_of, family_on, only};
ghost use Rattle.mt_term.specs.Spines.{as_ind, at_args, first_of};
ghost use Rattle.mt_term.specs.Substitution.{apps};
ghost use Rattle.mt_term.specs.TreeOf.{tree_of, trees_of};

use crate::arguments::{Args, all_but, count};
use crate::matching::products;
use mt_term::{Cons, Entries, Entry, OutOfMemory, Term, Terms, copy, deeper, substitute};
use std::alloc::Global;

/// An inductive type on its parameters and indices: its number, these, its type at the parameters,
/// its constructors, and whether it is large.
#[derive(Drop)]
pub struct Family<'a> {
    pub number: usize,
    pub params: Terms,
    pub indices: Terms,
    pub arity: Term,
    pub constructors: &'a Cons,
    pub large: bool,
}

/// A type as the inductive type `number` on its parameters and indices.
pub fn family_numbered<'a>(
    alloc: Global,
    entries: &'a Entries,
    number: usize,
    t: &Term,
    depth_left: usize,
) -> Result<Option<Family<'a>>, OutOfMemory>
    ensures { IfOk result (λ o. family_in o ≡ only number (as_family entries.now (tree_of t.now))) }
{
    match family_on(alloc, entries, t, &Args::End, depth_left)? {
        None => Ok(None),
        Some(family) => {
            if family.number != number {
                return Ok(None);
            }
            Ok(Some(family))
        }
    }
}

/// A type on the arguments as an inductive type on its parameters and indices.
fn family_on<'a>(
    alloc: Global,
    entries: &'a Entries,
    t: &Term,
    args: &Args<'_>,
    depth_left: usize,
) -> Result<Option<Family<'a>>, OutOfMemory>
    ensures { IfOk result (λ o. family_in o ≡ family_on entries.now (as_ind (tree_of t.now) (args_of args.now))) }
{
    let depth_left = deeper(depth_left)?;
    match t {
        Term::App(f, a) => family_on(alloc, entries, &*f, &Args::More(&*a, &*args), depth_left),
        Term::Ind(e) => family_of(alloc, *e, args, entries.get(*e), depth_left),
        _ => Ok(None),
    }
}

/// The inductive type of an entry on the arguments, where they are all its parameters and indices.
fn family_of<'a>(
    alloc: Global,
    number: usize,
    args: &Args<'_>,
    entry: Option<&'a Entry>,
    depth_left: usize,
) -> Result<Option<Family<'a>>, OutOfMemory>
    ensures { IfOk result (λ o. family_in o ≡ family_of number (args_of args.now) (seen_declaration entry.entry)) }
{
    match entry {
        Some(
            Entry::Inductive {
                params,
                ty,
                cons,
                large,
                ..
            },
        ) => {
            if count(args)? != products(ty, depth_left)? {
                return Ok(None);
            }
            let Some(first) = first_of(alloc, args, *params)? else {
                return Ok(None);
            };
            let Some(arity) = at_args(alloc, copy(alloc, ty)?, &first, depth_left)? else {
                return Ok(None);
            };
            Ok(Some(Family {
                number,
                params: first,
                indices: all_but(alloc, args, *params)?,
                arity,
                constructors: cons,
                large: *large,
            }))
        }
        None
        | Some(Entry::Axiom { .. })
        | Some(Entry::Definition { .. })
        | Some(Entry::Recursive { .. }) => Ok(None),
    }
}

/// The first arguments, where there are so many.
fn first_of(alloc: Global, args: &Args, n: usize) -> Result<Option<Terms>, OutOfMemory>
    ensures { IfOk result (λ o. trees_in o ≡ first_of n (args_of args.now)) }
{
    if n == 0 {
        return Ok(Some(Terms::End));
    }
    match args {
        Args::End => Ok(None),
        Args::More(a, rest) => match first_of(alloc, rest, n - 1)? {
            None => Ok(None),
            Some(rest) => {
                let a = Box::new(alloc, copy(alloc, a)?)?;
                let rest = Box::new(alloc, rest)?;
                Ok(Some(Terms::Item(a, rest)))
            }
        },
    }
}

/// A type of products at the terms, where it has so many.
pub fn at_args(
    alloc: Global,
    ty: Term,
    terms: &Terms,
    depth_left: usize,
) -> Result<Option<Term>, OutOfMemory>
    ensures { IfOk result (λ o. tree_in o ≡ at_args (tree_of ty) (trees_of terms.now)) }
{
    let depth_left = deeper(depth_left)?;
    match terms {
        Terms::End => Ok(Some(ty)),
        Terms::Item(u, rest) => match ty {
            Term::Prod(_, _, codomain) => {
                let ty = substitute(alloc, &codomain, 0, u)?;
                at_args(alloc, ty, rest, depth_left)
            }
            _ => Ok(None),
        },
    }
}

/// The term on the terms.
pub fn apply_all(
    alloc: Global,
    t: Term,
    terms: &Terms,
    depth_left: usize,
) -> Result<Term, OutOfMemory>
    ensures { IfOk result (λ u. tree_of u ≡ apps (tree_of t) (trees_of terms.now)) }
{
    let depth_left = deeper(depth_left)?;
    match terms {
        Terms::End => Ok(t),
        Terms::Item(a, rest) => {
            let f = Box::new(alloc, t)?;
            let a = Box::new(alloc, copy(alloc, a)?)?;
            apply_all(alloc, Term::App(f, a), rest, depth_left)
        }
    }
}
