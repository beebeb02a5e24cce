// Terms on arguments, and lists of terms.
ghost use Rattle.std.specs.Prelude.{◌≡◌, ◌<◌, ℕ, List, length, nat_eq, IfOk};
ghost use Rattle.mt_infer.specs.Arguments.{args_in, trees_in, ArgsBelow, IdsBelow};
ghost use Rattle.mt_infer.specs.Fitting.{instance, on_newest};
ghost use Rattle.mt_pool.specs.Region.{ids_of, tree_at, trees_at, AllBelow, Kept, Denotes};
ghost use Rattle.mt_term.specs.Spines.{first_of};
ghost use Rattle.mt_term.specs.Substitution.{all_but, apps, count, products};
ghost use Rattle.mt_term.specs.Trees.{Tree};

use mt_pool::{Node, Pool, TermId, TermIds};
use mt_term::{OutOfMemory, deeper};
use std::alloc::{AllocFailed, Global};

/// The arguments of a term, the first of which is the innermost. Who goes down a term under a bound
/// makes them, so they are no more than the bound.
#[derive(Clone, Copy)]
pub enum Args<'a> {
    End,
    More(TermId, &'a Args<'a>),
}

/// How many arguments there are.
pub fn count(args: &Args) -> Result<usize, OutOfMemory>
    ensures { IfOk result (λ n. (p : List Tree) → n ≡ count (args_in p args.now)) }
{
    match args {
        Args::End => Ok(0),
        Args::More(_, rest) => count(rest)?.checked_add(1).ok_or(OutOfMemory),
    }
}

/// The first arguments, where there are so many.
pub fn first_of(alloc: Global, args: &Args, n: usize) -> Result<Option<TermIds>, OutOfMemory>
    ensures trees { IfOk result (λ o. (p : List Tree) → trees_in p o ≡ first_of n (args_in p args.now)) }
    ensures held { IfOk result (λ o. (m : ℕ) → ArgsBelow m args.now → IdsBelow m o) }
{
    if n == 0 {
        return Ok(Some(TermIds::End));
    }
    match args {
        Args::End => Ok(None),
        Args::More(a, rest) => match first_of(alloc, rest, n - 1)? {
            None => Ok(None),
            Some(rest) => Ok(Some(TermIds::Item(*a, Box::new(alloc, rest)?))),
        },
    }
}

/// The arguments past so many.
pub fn all_but<'a>(args: &'a Args<'a>, past: usize) -> &'a Args<'a>
    ensures tree { (p : List Tree) → args_in p result.now ≡ all_but past (args_in p args.now) }
    ensures held { (n : ℕ) → ArgsBelow n args.now → ArgsBelow n result.now }
{
    if past == 0 {
        return args;
    }
    match args {
        Args::End => args,
        Args::More(_, rest) => all_but(rest, past - 1),
    }
}

/// The arguments as a list of their own.
pub fn ids_of_arguments(alloc: Global, args: &Args) -> Result<TermIds, OutOfMemory>
    ensures trees { IfOk result (λ s. (p : List Tree) → trees_at p (ids_of s) ≡ args_in p args.now) }
    ensures held { IfOk result (λ s. (m : ℕ) → ArgsBelow m args.now → AllBelow m (ids_of s)) }
{
    match args {
        Args::End => Ok(TermIds::End),
        Args::More(a, rest) => {
            let rest = ids_of_arguments(alloc, rest)?;
            Ok(TermIds::Item(*a, Box::new(alloc, rest)?))
        }
    }
}

/// How many terms there are. More than `depth_left` count as want of memory.
pub fn length(terms: &TermIds, depth_left: usize) -> Result<usize, OutOfMemory>
    ensures { IfOk result (λ n. (p : List Tree) → n ≡ count (trees_at p (ids_of terms.now))) }
{
    let depth_left = deeper(depth_left)?;
    match terms {
        TermIds::End => Ok(0),
        TermIds::Item(_, rest) => length(rest, depth_left)?.checked_add(1).ok_or(OutOfMemory),
    }
}

/// The term on the terms. More than `depth_left` of them count as want of memory.
#[tactic(auto, using(crate::proofs::Held::infer_held))]
pub fn apply_all(
    pool: &mut Pool,
    t: TermId,
    terms: &TermIds,
    depth_left: usize,
) -> Result<TermId, OutOfMemory>
    requires term { t.at < length pool.old }
    requires others { AllBelow (length pool.old) (ids_of terms.now) }
    ensures kept { Kept pool.old pool.new }
    ensures tree { IfOk result (λ u. Denotes pool.new u (apps (tree_at pool.old t) (trees_at pool.old (ids_of terms.now)))) }
{
    let depth_left = deeper(depth_left)?;
    match terms {
        TermIds::End => Ok(t),
        TermIds::Item(a, rest) => {
            let f = pool.put(Node::App(t, *a))?;
            apply_all(pool, f, rest, depth_left)
        }
    }
}

/// The term under one more binder, on that binder's variable.
#[tactic(auto, using(crate::proofs::Held::infer_held), unfolding(crate::specs::Fitting::on_newest))]
pub fn on_newest(pool: &mut Pool, alloc: Global, t: TermId) -> Result<TermId, OutOfMemory>
    requires { t.at < length pool.old }
    ensures kept { Kept pool.old pool.new }
    ensures tree { IfOk result (λ u. Denotes pool.new u (on_newest (tree_at pool.old t))) }
{
    let f = pool.lift(alloc, t, 1, 0)?;
    let a = pool.put(Node::Var(0))?;
    pool.put(Node::App(f, a))
}

/// The body of a binder at a term.
#[tactic(auto, using(crate::proofs::Held::infer_held), unfolding(crate::specs::Fitting::instance))]
pub fn instance(
    pool: &mut Pool,
    alloc: Global,
    body: TermId,
    a: TermId,
) -> Result<TermId, OutOfMemory>
    requires body { body.at < length pool.old }
    requires term { a.at < length pool.old }
    ensures kept { Kept pool.old pool.new }
    ensures tree { IfOk result (λ u. Denotes pool.new u (instance (tree_at pool.old body) (tree_at pool.old a))) }
{
    pool.substitute(alloc, body, 0, a)
}

/// Whether so many products stand at the front of a type. Recurses at most `depth_left` levels.
pub fn has_products(
    pool: &Pool,
    t: TermId,
    n: usize,
    depth_left: usize,
) -> Result<bool, OutOfMemory>
    requires { t.at < length pool.now }
    ensures { IfOk result (λ b. b ≡ nat_eq n (products (tree_at pool.now t))) }
{
    let depth_left = deeper(depth_left)?;
    match pool.node(t) {
        Node::Prod(_, _, b) => {
            if n == 0 {
                return Ok(false);
            }
            has_products(pool, *b, n - 1, depth_left)
        }
        Node::Var(_)
        | Node::Sort(_)
        | Node::Lam(..)
        | Node::App(..)
        | Node::Const(_)
        | Node::Ind(_)
        | Node::Con(..)
        | Node::Match(..)
        | Node::Meta(..) => Ok(n == 0),
    }
}
