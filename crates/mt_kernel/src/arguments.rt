// Terms on arguments.
ghost use Rattle.std.specs.Prelude.{◌≡◌, IfOk};
ghost use Rattle.mt_kernel.specs.Arguments.{args_of, tree_in};
ghost use Rattle.mt_term.specs.Seen.{seen_tree};
ghost use Rattle.mt_term.specs.Spines.{item_at, on_args, put_at};
ghost use Rattle.mt_term.specs.Substitution.{all_but, apps, count};
ghost use Rattle.mt_term.specs.Lifting.{lift};
ghost use Rattle.mt_term.specs.Trees.{App, Var};
ghost use Rattle.mt_term.specs.TreeOf.{tree_of, trees_of};
ghost use Rattle.mt_rules.specs.WeakHead.{beta};

use mt_term::{OutOfMemory, Term, Terms, copy, lift, substitute};
use std::alloc::Global;

/// The arguments of a term, the first of which is the innermost. Who goes down a term under a bound
/// makes them, so they are no more than the bound.
#[derive(Clone, Copy)]
pub enum Args<'a> {
    End,
    More(&'a Term, &'a Args<'a>),
}

/// The term on the arguments.
pub fn apply(alloc: Global, t: Term, args: &Args) -> Result<Term, OutOfMemory>
    ensures { IfOk result (λ u. tree_of u ≡ apps (tree_of t) (args_of args.now)) }
{
    match args {
        Args::End => Ok(t),
        Args::More(a, rest) => {
            let f = Box::new(alloc, t)?;
            let a = Box::new(alloc, copy(alloc, a)?)?;
            apply(alloc, Term::App(f, a), rest)
        }
    }
}

/// The body of an abstraction at its first argument, on the others.
pub fn beta(alloc: Global, body: &Term, args: &Args) -> Result<Option<Term>, OutOfMemory>
    ensures { IfOk result (λ o. tree_in o ≡ beta (tree_of body.now) (args_of args.now)) }
{
    match args {
        Args::End => Ok(None),
        Args::More(a, rest) => {
            let head = substitute(alloc, body, 0, a)?;
            Ok(Some(apply(alloc, head, rest)?))
        }
    }
}

/// An optional term on the arguments.
pub fn on_args(alloc: Global, t: Option<Term>, args: &Args) -> Result<Option<Term>, OutOfMemory>
    ensures { IfOk result (λ o. tree_in o ≡ on_args (tree_in t) (args_of args.now)) }
{
    match t {
        None => Ok(None),
        Some(t) => Ok(Some(apply(alloc, t, args)?)),
    }
}

/// The term on the arguments, with another in the place of one.
pub fn apply_with(
    alloc: Global,
    t: Term,
    args: &Args,
    place: usize,
    other: &Term,
) -> Result<Term, OutOfMemory>
    ensures { IfOk result (λ u. tree_of u ≡ apps (tree_of t) (put_at place (tree_of other.now) (args_of args.now))) }
{
    match args {
        Args::End => Ok(t),
        Args::More(a, rest) => {
            let f = Box::new(alloc, t)?;
            if place == 0 {
                let a = Box::new(alloc, copy(alloc, other)?)?;
                return apply(alloc, Term::App(f, a), rest);
            }
            let a = Box::new(alloc, copy(alloc, a)?)?;
            apply_with(alloc, Term::App(f, a), rest, place - 1, other)
        }
    }
}

/// The argument at a place.
pub fn item_at<'a>(args: &Args<'a>, place: usize) -> Option<&'a Term>
    ensures { seen_tree result ≡ item_at (args_of args.now) place }
{
    match args {
        Args::End => None,
        Args::More(a, rest) => {
            if place == 0 {
                Some(a)
            } else {
                item_at(rest, place - 1)
            }
        }
    }
}

/// How many arguments there are.
pub fn count(args: &Args) -> Result<usize, OutOfMemory>
    ensures { IfOk result (λ n. n ≡ count (args_of args.now)) }
{
    match args {
        Args::End => Ok(0),
        Args::More(_, rest) => count(rest)?.checked_add(1).ok_or(OutOfMemory),
    }
}

/// The arguments past the first so many.
#[tactic(auto, using(crate::proofs::Lists::all_but_more))]
pub fn all_but(alloc: Global, args: &Args, first: usize) -> Result<Terms, OutOfMemory>
    ensures { IfOk result (λ ts. trees_of ts ≡ all_but first (args_of args.now)) }
{
    match args {
        Args::End => Ok(Terms::End),
        Args::More(a, rest) => {
            if first == 0 {
                let a = Box::new(alloc, copy(alloc, a)?)?;
                let rest = Box::new(alloc, all_but(alloc, rest, 0)?)?;
                return Ok(Terms::Item(a, rest));
            }
            all_but(alloc, rest, first - 1)
        }
    }
}

/// The term under one more binder, on that binder's variable.
pub fn on_newest(alloc: Global, t: &Term) -> Result<Term, OutOfMemory>
    ensures { IfOk result (λ u. tree_of u ≡ App (lift 1 0 (tree_of t.now)) (Var 0)) }
{
    let f = Box::new(alloc, lift(alloc, t, 1, 0)?)?;
    let a = Box::new(alloc, Term::Var(0))?;
    Ok(Term::App(f, a))
}
