// What matches become.
ghost use Rattle.std.specs.Prelude.{◌≡◌, ◌<◌, ℕ, List, length, nat_eq, slice_get, is_some, IfOk};
ghost use Rattle.mt_layers.specs.Environments.{environment_in, found_in, EnvBelow, FoundBelow};
ghost use Rattle.mt_pool.specs.Region.{arms_at, branches_of, tree_at, ArmsBelow, Kept, Denotes};
ghost use Rattle.mt_reduce.specs.Arguments.{args_in, ArgsBelow};
ghost use Rattle.mt_term.specs.Declarations.{constructor_at};
ghost use Rattle.mt_term.specs.Spines.{as_con, as_const};
ghost use Rattle.mt_term.specs.Substitution.{fill, sub, products};
ghost use Rattle.mt_term.specs.Trees.{Tree, End, Var};
ghost use Rattle.mt_rules.specs.WeakHead.{branch_at, branch_under, if_full, matched, params_of, taken, takes, unrolled};

use crate::arguments::{Args, all_but, apply, count};
use mt_env::Env;
use mt_layers::{constructor_type, entry};
use mt_pool::{BranchIds, Held, Node, Pool, TermId};
use mt_term::{OutOfMemory, deeper};
use std::alloc::Global;

/// Whether so many products stand at the front of a type.
fn has_products(pool: &Pool, t: TermId, n: usize) -> bool
    requires { t.at < length pool.now }
    ensures { result ≡ nat_eq n (products (tree_at pool.now t)) }
{
    match pool.node(t) {
        Node::Prod(_, _, b) => 0 < n && has_products(pool, *b, n - 1),
        Node::Var(_)
        | Node::Sort(_)
        | Node::Lam(..)
        | Node::App(..)
        | Node::Const(_)
        | Node::Ind(_)
        | Node::Con(..)
        | Node::Match(..)
        | Node::Meta(..) => n == 0,
    }
}

/// Whether so many are all the arguments of a constructor.
#[tactic(auto, using(crate::proofs::Held::takes_rules))]
fn takes(pool: &Pool, env: &Env, e: usize, k: usize, n: usize) -> bool
    requires { EnvBelow (length pool.now) env.now }
    ensures { result ≡ takes (constructor_at (environment_in pool.now env.now).entries e k) n }
{
    match constructor_type(env, e, k) {
        Some(t) => has_products(pool, t, n),
        None => false,
    }
}

/// The number of parameters of an inductive type.
fn params(env: &Env, e: usize) -> usize
    ensures { (p : List Tree) → result ≡ params_of (slice_get (environment_in p env.now).entries e) }
{
    match entry(env, e) {
        Some(Held::Inductive { params, .. }) => *params,
        None
        | Some(Held::Axiom { .. })
        | Some(Held::Definition { .. })
        | Some(Held::Recursive { .. }) => 0,
    }
}

/// Whether the term on the arguments is a constructor on all its arguments. Recurses at most
/// `depth_left` levels.
#[tactic(auto, using(crate::proofs::Held::reduce_rules))]
pub fn is_full(
    pool: &Pool,
    env: &Env,
    d: TermId,
    args: &Args,
    depth_left: usize,
) -> Result<bool, OutOfMemory>
    requires term { d.at < length pool.now }
    requires env { EnvBelow (length pool.now) env.now }
    ensures { let es = (environment_in pool.now env.now).entries in
        IfOk result (λ b. b ≡ is_some (if_full es (as_con (tree_at pool.now d) (args_in pool.now args.now)))) }
{
    let depth_left = deeper(depth_left)?;
    match pool.node(d) {
        Node::App(f, a) => is_full(pool, env, *f, &Args::More(*a, &*args), depth_left),
        Node::Con(e, k) => Ok(takes(pool, env, *e, *k, count(args)?)),
        Node::Var(_)
        | Node::Sort(_)
        | Node::Prod(..)
        | Node::Lam(..)
        | Node::Const(_)
        | Node::Ind(_)
        | Node::Match(..)
        | Node::Meta(..) => Ok(false),
    }
}

/// A body with the arguments, the oldest first, for its newest variables.
#[tactic(auto, using(crate::proofs::Held::reduce_rules))]
fn fill_in(pool: &mut Pool, alloc: Global, body: TermId, args: &Args) -> Result<TermId, OutOfMemory>
    requires term { body.at < length pool.old }
    requires others { ArgsBelow (length pool.old) args.now }
    ensures kept { Kept pool.old pool.new }
    ensures tree { IfOk result (λ u. Denotes pool.new u (sub (fill (args_in pool.old args.now) Var) (tree_at pool.old body))) }
{
    match args {
        Args::End => Ok(body),
        Args::More(a, rest) => {
            let next = pool.substitute(alloc, body, count(rest)?, *a)?;
            fill_in(pool, alloc, next, rest)
        }
    }
}

/// The body of a branch under as many arguments as it has names.
#[tactic(auto, using(crate::proofs::Held::reduce_rules))]
fn branch_under(
    pool: &mut Pool,
    alloc: Global,
    bs: &BranchIds,
    k: usize,
    args: &Args,
) -> Result<Option<TermId>, OutOfMemory>
    requires arms { ArmsBelow (length pool.old) (branches_of bs.now) }
    requires others { ArgsBelow (length pool.old) args.now }
    ensures kept { Kept pool.old pool.new }
    ensures held { IfOk result (λ o. FoundBelow (length pool.new) o) }
    ensures tree { IfOk result (λ o. found_in pool.new o ≡ branch_under (branch_at (arms_at pool.old (branches_of bs.now)) k) (args_in pool.old args.now)) }
{
    match bs {
        BranchIds::End => Ok(None),
        BranchIds::Item(names, body, rest) => {
            if k > 0 {
                return branch_under(pool, alloc, rest, k - 1, args);
            }
            if names.len() == count(args)? {
                let u = fill_in(pool, alloc, *body, args)?;
                Ok(Some(u))
            } else {
                Ok(None)
            }
        }
    }
}

/// The branch for the constructor that the term on the arguments is. Recurses at most `depth_left`
/// levels.
#[tactic(auto, using(crate::proofs::Held::reduce_rules))]
fn take_branch(
    pool: &mut Pool,
    alloc: Global,
    env: &Env,
    e: usize,
    d: TermId,
    args: &Args,
    bs: &BranchIds,
    depth_left: usize,
) -> Result<Option<TermId>, OutOfMemory>
    requires term { d.at < length pool.old }
    requires others { ArgsBelow (length pool.old) args.now }
    requires arms { ArmsBelow (length pool.old) (branches_of bs.now) }
    requires env { EnvBelow (length pool.old) env.now }
    ensures kept { Kept pool.old pool.new }
    ensures held { IfOk result (λ o. FoundBelow (length pool.new) o) }
    ensures tree { let es = (environment_in pool.old env.now).entries in
        IfOk result (λ o. found_in pool.new o ≡ taken es e (if_full es (as_con (tree_at pool.old d) (args_in pool.old args.now))) (arms_at pool.old (branches_of bs.now))) }
{
    let depth_left = deeper(depth_left)?;
    match pool.node(d) {
        Node::App(f, a) => {
            let f = *f;
            let a = *a;
            take_branch(
                pool,
                alloc,
                env,
                e,
                f,
                &Args::More(a, &*args),
                bs,
                depth_left,
            )
        }
        Node::Con(number, k) => {
            let number = *number;
            let k = *k;
            if number == e && takes(pool, env, number, k, count(args)?) {
                branch_under(pool, alloc, bs, k, all_but(args, params(env, e)))
            } else {
                Ok(None)
            }
        }
        Node::Var(_)
        | Node::Sort(_)
        | Node::Prod(..)
        | Node::Lam(..)
        | Node::Const(_)
        | Node::Ind(_)
        | Node::Match(..)
        | Node::Meta(..) => Ok(None),
    }
}

/// The body of a corecursive function on arguments, where the term on the arguments is that
/// function on them. Recurses at most `depth_left` levels.
#[tactic(auto, using(crate::proofs::Held::reduce_rules))]
fn unroll(
    pool: &mut Pool,
    env: &Env,
    d: TermId,
    args: &Args,
    depth_left: usize,
) -> Result<Option<TermId>, OutOfMemory>
    requires term { d.at < length pool.old }
    requires others { ArgsBelow (length pool.old) args.now }
    requires env { EnvBelow (length pool.old) env.now }
    ensures kept { Kept pool.old pool.new }
    ensures held { IfOk result (λ o. FoundBelow (length pool.new) o) }
    ensures tree { let es = (environment_in pool.old env.now).entries in
        IfOk result (λ o. found_in pool.new o ≡ unrolled es (as_const (tree_at pool.old d) (args_in pool.old args.now))) }
{
    let depth_left = deeper(depth_left)?;
    match pool.node(d) {
        Node::App(f, a) => {
            let f = *f;
            let a = *a;
            unroll(pool, env, f, &Args::More(a, &*args), depth_left)
        }
        Node::Const(c) => match entry(env, *c) {
            Some(Held::Recursive { co: true, body, .. }) => {
                let u = apply(pool, *body, args)?;
                Ok(Some(u))
            }
            None
            | Some(Held::Axiom { .. })
            | Some(Held::Definition { .. })
            | Some(Held::Inductive { .. })
            | Some(Held::Recursive { co: false, .. }) => Ok(None),
        },
        Node::Var(_)
        | Node::Sort(_)
        | Node::Prod(..)
        | Node::Lam(..)
        | Node::Ind(_)
        | Node::Con(..)
        | Node::Match(..)
        | Node::Meta(..) => Ok(None),
    }
}

/// What a match becomes, where the weak head of its matched term is `d`. Recurses at most
/// `depth_left` levels.
#[tactic(auto, using(crate::proofs::Held::reduce_rules))]
pub fn contract_match(
    pool: &mut Pool,
    alloc: Global,
    env: &Env,
    e: usize,
    r: TermId,
    bs: BranchIds,
    d: TermId,
    depth_left: usize,
) -> Result<Option<TermId>, OutOfMemory>
    requires term { d.at < length pool.old }
    requires function { r.at < length pool.old }
    requires arms { ArmsBelow (length pool.old) (branches_of bs) }
    requires env { EnvBelow (length pool.old) env.now }
    ensures kept { Kept pool.old pool.new }
    ensures held { IfOk result (λ o. FoundBelow (length pool.new) o) }
    ensures tree { let es = (environment_in pool.old env.now).entries in
        IfOk result (λ o. found_in pool.new o ≡ matched es e (tree_at pool.old r) (arms_at pool.old (branches_of bs)) (tree_at pool.old d)) }
{
    if let Some(t) = take_branch(pool, alloc, env, e, d, &Args::End, &bs, depth_left)? {
        return Ok(Some(t));
    }
    match unroll(pool, env, d, &Args::End, depth_left)? {
        None => Ok(None),
        Some(c) => {
            let t = pool.put(Node::Match(e, r, c, bs))?;
            Ok(Some(t))
        }
    }
}
