// Terms on arguments.
ghost use Rattle.std.specs.Prelude.{◌≡◌, ◌<◌, ℕ, List, length, IfOk};
ghost use Rattle.mt_layers.specs.Environments.{found_in, FoundBelow};
ghost use Rattle.mt_pool.specs.Region.{tree_at, Kept, Denotes};
ghost use Rattle.mt_reduce.specs.Arguments.{args_in, ArgsBelow};
ghost use Rattle.mt_term.specs.Spines.{item_at, on_args, put_at};
ghost use Rattle.mt_term.specs.Substitution.{all_but, apps, count};
ghost use Rattle.mt_term.specs.Trees.{Tree};
ghost use Rattle.mt_rules.specs.WeakHead.{beta};

use mt_pool::{Node, Pool, TermId};
use mt_term::OutOfMemory;
use std::alloc::Global;

/// The arguments of a term, the first of which is the innermost.
#[derive(Clone, Copy)]
pub enum Args<'a> {
    End,
    More(TermId, &'a Args<'a>),
}

/// How many arguments there are.
pub fn count(args: &Args) -> Result<usize, OutOfMemory>
    ensures { IfOk result (λ n. (p : List Tree) → n ≡ count (args_in p args.now)) }
{
    match args {
        Args::End => Ok(0),
        Args::More(_, rest) => count(rest)?.checked_add(1).ok_or(OutOfMemory),
    }
}

/// The argument at a place, from 0.
pub fn argument(args: &Args, place: usize) -> Option<TermId>
    ensures tree { (p : List Tree) → found_in p result ≡ item_at (args_in p args.now) place }
    ensures held { (n : ℕ) → ArgsBelow n args.now → FoundBelow n result }
{
    match args {
        Args::End => None,
        Args::More(a, rest) => {
            if place == 0 {
                Some(*a)
            } else {
                argument(rest, place - 1)
            }
        }
    }
}

/// The arguments past so many.
pub fn all_but<'a>(args: &'a Args<'a>, past: usize) -> &'a Args<'a>
    ensures tree { (p : List Tree) → args_in p result.now ≡ all_but past (args_in p args.now) }
    ensures held { (n : ℕ) → ArgsBelow n args.now → ArgsBelow n result.now }
{
    if past == 0 {
        return args;
    }
    match args {
        Args::End => args,
        Args::More(_, rest) => all_but(rest, past - 1),
    }
}

/// The term on the arguments.
#[tactic(auto, using(crate::proofs::Held::reduce_rules))]
pub fn apply(pool: &mut Pool, t: TermId, args: &Args) -> Result<TermId, OutOfMemory>
    requires term { t.at < length pool.old }
    requires others { ArgsBelow (length pool.old) args.now }
    ensures kept { Kept pool.old pool.new }
    ensures tree { IfOk result (λ u. Denotes pool.new u (apps (tree_at pool.old t) (args_in pool.old args.now))) }
{
    match args {
        Args::End => Ok(t),
        Args::More(a, rest) => {
            let f = pool.put(Node::App(t, *a))?;
            apply(pool, f, rest)
        }
    }
}

/// The term on the arguments, with another at a place.
#[tactic(auto, using(crate::proofs::Held::reduce_rules))]
pub fn apply_with(
    pool: &mut Pool,
    t: TermId,
    args: &Args,
    place: usize,
    d: TermId,
) -> Result<TermId, OutOfMemory>
    requires term { t.at < length pool.old }
    requires other { d.at < length pool.old }
    requires others { ArgsBelow (length pool.old) args.now }
    ensures kept { Kept pool.old pool.new }
    ensures tree { IfOk result (λ u. Denotes pool.new u (apps (tree_at pool.old t) (put_at place (tree_at pool.old d) (args_in pool.old args.now)))) }
{
    match args {
        Args::End => Ok(t),
        Args::More(a, rest) => {
            if place == 0 {
                let f = pool.put(Node::App(t, d))?;
                apply(pool, f, rest)
            } else {
                let f = pool.put(Node::App(t, *a))?;
                apply_with(pool, f, rest, place - 1, d)
            }
        }
    }
}

/// The body of an abstraction at its first argument, on the others.
#[tactic(auto, using(crate::proofs::Held::reduce_rules))]
pub fn beta(
    pool: &mut Pool,
    alloc: Global,
    body: TermId,
    args: &Args,
) -> Result<Option<TermId>, OutOfMemory>
    requires term { body.at < length pool.old }
    requires others { ArgsBelow (length pool.old) args.now }
    ensures kept { Kept pool.old pool.new }
    ensures held { IfOk result (λ o. FoundBelow (length pool.new) o) }
    ensures tree { IfOk result (λ o. found_in pool.new o ≡ beta (tree_at pool.old body) (args_in pool.old args.now)) }
{
    match args {
        Args::End => Ok(None),
        Args::More(a, rest) => {
            let head = pool.substitute(alloc, body, 0, *a)?;
            let t = apply(pool, head, rest)?;
            Ok(Some(t))
        }
    }
}

/// An optional term on the arguments.
#[tactic(auto, using(crate::proofs::Held::reduce_rules))]
pub fn on_args(
    pool: &mut Pool,
    t: Option<TermId>,
    args: &Args,
) -> Result<Option<TermId>, OutOfMemory>
    requires term { FoundBelow (length pool.old) t }
    requires others { ArgsBelow (length pool.old) args.now }
    ensures kept { Kept pool.old pool.new }
    ensures held { IfOk result (λ o. FoundBelow (length pool.new) o) }
    ensures tree { IfOk result (λ o. found_in pool.new o ≡ on_args (found_in pool.old t) (args_in pool.old args.now)) }
{
    match t {
        None => Ok(None),
        Some(t) => {
            let u = apply(pool, t, args)?;
            Ok(Some(u))
        }
    }
}
