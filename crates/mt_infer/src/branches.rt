// The branches of a match against the constructors, and the types of their bodies.
ghost use Rattle.std.specs.Prelude.{◌≡◌, ◌<◌, length, IfOk, drop};
ghost use Rattle.mt_infer.specs.Arguments.{args_in, ArgsBelow};
ghost use Rattle.mt_infer.specs.Families.{constructors_seen, family_held, goal_in, FamilyBelow, GoalBelow};
ghost use Rattle.mt_infer.specs.Fitting.{answer, branch_goal, has_branches, on_newest};
ghost use Rattle.mt_layers.specs.Environments.{found_in, FoundBelow};
ghost use Rattle.mt_pool.specs.HeldOf.{ConstructorsBelow};
ghost use Rattle.mt_pool.specs.Region.{arms_at, branches_of, ids_of, tree_at, trees_at, AllBelow, ArmsBelow, Kept, Denotes as IsNamed};
ghost use Rattle.mt_rules.specs.Inference.{branch_type, branches_fit, return_at};
ghost use Rattle.mt_term.specs.Spines.{as_ind, motive_on, motive_on_all};
ghost use Rattle.mt_term.specs.Substitution.{join};
ghost use Rattle.mt_term.specs.Lifting.{lift};
ghost use Rattle.mt_term.specs.Trees.{End, Item};

use crate::arguments::{
    Args, all_but, apply_all, has_products, ids_of_arguments, length, on_newest,
};
use crate::families::{Family, at_args, constructor_type};
use mt_pool::{BranchIds, HeldCons, Node, Pool, TermId, TermIds};
use mt_term::{Names, OutOfMemory, deeper};
use std::alloc::Global;

/// A constructor's type at the parameters, and the type of the body of its branch.
#[derive(Drop, Clone, Copy)]
pub struct BranchGoal {
    pub own: TermId,
    pub ty: TermId,
}

/// The goal of the branch for constructor `k`, which has the type `ty`, where it has one. Recurses
/// at most `depth_left` levels.
#[tactic(auto, using(crate::proofs::Held::infer_held, crate::proofs::Branching::goal_rules))]
pub fn branch_goal(
    pool: &mut Pool,
    alloc: Global,
    family: &Family<'_>,
    k: usize,
    ty: TermId,
    returns: TermId,
    names: &Names,
    depth_left: usize,
) -> Result<Option<BranchGoal>, OutOfMemory>
    requires family { FamilyBelow (length pool.old) family.now }
    requires ty { ty.at < length pool.old }
    requires function { returns.at < length pool.old }
    ensures kept { Kept pool.old pool.new }
    ensures held { IfOk result (λ o. GoalBelow (length pool.new) o) }
    ensures tree { IfOk result (λ o. goal_in pool.new o ≡ branch_goal (family_held pool.old family.now) k (tree_at pool.old ty) (tree_at pool.old returns) names.now) }
{
    let params = &family.params;
    let count = length(params, depth_left)?;
    let Some(own) = at_args(pool, alloc, ty, params, depth_left)? else {
        return Ok(None);
    };
    let constructor = pool.put(Node::Con(family.number, k))?;
    let on_params = apply_all(pool, constructor, params, depth_left)?;
    match branch_type(
        pool, alloc, count, returns, on_params, own, names, 0, depth_left,
    )? {
        None => Ok(None),
        Some(ty) => Ok(Some(BranchGoal { own, ty })),
    }
}

/// Whether the branches are those of the constructors. Recurses at most `depth_left` levels.
#[tactic(auto, unfolding(crate::specs::Families::family_held, crate::specs::Families::FamilyBelow, crate::specs::Fitting::has_branches))]
pub fn has_branches(
    pool: &Pool,
    family: &Family<'_>,
    branches: &BranchIds,
    depth_left: usize,
) -> Result<bool, OutOfMemory>
    requires { FamilyBelow (length pool.now) family.now }
    ensures { IfOk result (λ b. b ≡ has_branches (family_held pool.now family.now) (arms_at pool.now (branches_of branches.now))) }
{
    let params = length(&family.params, depth_left)?;
    branches_fit(pool, params, family.constructors, 0, branches, depth_left)
}

/// The motive on the indices, and on the matched term. Recurses at most `depth_left` levels.
#[tactic(auto, using(crate::proofs::Held::infer_held), unfolding(crate::specs::Families::family_held, crate::specs::Families::FamilyBelow, crate::specs::Fitting::answer))]
pub fn answer(
    pool: &mut Pool,
    alloc: Global,
    family: &Family<'_>,
    returns: TermId,
    c: TermId,
    depth_left: usize,
) -> Result<TermId, OutOfMemory>
    requires family { FamilyBelow (length pool.old) family.now }
    requires function { returns.at < length pool.old }
    requires matched { c.at < length pool.old }
    ensures kept { Kept pool.old pool.new }
    ensures tree { IfOk result (λ t. IsNamed pool.new t (answer (family_held pool.old family.now) (tree_at pool.old returns) (tree_at pool.old c))) }
{
    motive_on_all(pool, alloc, returns, &family.indices, c, depth_left)
}

/// Whether there are as many branches as constructors from number `k` on, each with as many names
/// as its constructor has arguments past the parameters.
#[tactic(auto, using(crate::proofs::Branching::list_rules))]
fn branches_fit(
    pool: &Pool,
    params: usize,
    constructors: &HeldCons,
    k: usize,
    branches: &BranchIds,
    depth_left: usize,
) -> Result<bool, OutOfMemory>
    requires { ConstructorsBelow (length pool.now) constructors.now }
    ensures { IfOk result (λ b. b ≡ branches_fit params (drop k (constructors_seen pool.now constructors.now)) (arms_at pool.now (branches_of branches.now))) }
{
    let depth_left = deeper(depth_left)?;
    match branches {
        BranchIds::End => match constructor_type(constructors, k) {
            None => Ok(true),
            Some(_) => Ok(false),
        },
        BranchIds::Item(names, _, rest) => match constructor_type(constructors, k) {
            None => Ok(false),
            Some(ty) => {
                let names = names.len().checked_add(params).ok_or(OutOfMemory)?;
                if !has_products(pool, ty, names, depth_left)? {
                    return Ok(false);
                }
                let next = k.checked_add(1).ok_or(OutOfMemory)?;
                branches_fit(pool, params, constructors, next, rest, depth_left)
            }
        },
    }
}

/// A motive on an argument: its body at it where it is an abstraction.
#[tactic(auto, using(crate::proofs::Held::infer_held))]
fn motive_on(
    pool: &mut Pool,
    alloc: Global,
    returns: TermId,
    u: TermId,
) -> Result<TermId, OutOfMemory>
    requires function { returns.at < length pool.old }
    requires term { u.at < length pool.old }
    ensures kept { Kept pool.old pool.new }
    ensures tree { IfOk result (λ t. IsNamed pool.new t (motive_on (tree_at pool.old returns) (tree_at pool.old u))) }
{
    match pool.node(returns) {
        Node::Lam(_, _, body) => {
            let body = *body;
            let t = pool.substitute(alloc, body, 0, u)?;
            Ok(t)
        }
        Node::Var(_)
        | Node::Sort(_)
        | Node::Prod(..)
        | Node::App(..)
        | Node::Const(_)
        | Node::Ind(_)
        | Node::Con(..)
        | Node::Match(..)
        | Node::Meta(..) => pool.put(Node::App(returns, u)),
    }
}

/// A motive on the indices, and on a last argument. Recurses at most `depth_left` levels.
#[tactic(auto, using(crate::proofs::Held::infer_held))]
fn motive_on_all(
    pool: &mut Pool,
    alloc: Global,
    returns: TermId,
    indices: &TermIds,
    last: TermId,
    depth_left: usize,
) -> Result<TermId, OutOfMemory>
    requires function { returns.at < length pool.old }
    requires indices { AllBelow (length pool.old) (ids_of indices.now) }
    requires last { last.at < length pool.old }
    ensures kept { Kept pool.old pool.new }
    ensures tree { IfOk result (λ t. IsNamed pool.new t (motive_on_all (tree_at pool.old returns) (join (trees_at pool.old (ids_of indices.now)) (Item (tree_at pool.old last) End)))) }
{
    let depth_left = deeper(depth_left)?;
    match indices {
        TermIds::End => motive_on(pool, alloc, returns, last),
        TermIds::Item(a, rest) => {
            let returns = motive_on(pool, alloc, returns, *a)?;
            motive_on_all(pool, alloc, returns, rest, last, depth_left)
        }
    }
}

/// The motive on the indices of the type that `t` on the arguments is, and on the constructor.
/// Recurses at most `depth_left` levels.
#[tactic(auto, using(crate::proofs::Held::infer_held))]
fn return_at(
    pool: &mut Pool,
    alloc: Global,
    params: usize,
    returns: TermId,
    constructor: TermId,
    t: TermId,
    args: &Args<'_>,
    depth_left: usize,
) -> Result<Option<TermId>, OutOfMemory>
    requires function { returns.at < length pool.old }
    requires constructor { constructor.at < length pool.old }
    requires term { t.at < length pool.old }
    requires others { ArgsBelow (length pool.old) args.now }
    ensures kept { Kept pool.old pool.new }
    ensures held { IfOk result (λ o. FoundBelow (length pool.new) o) }
    ensures tree { IfOk result (λ o. found_in pool.new o ≡ return_at params (tree_at pool.old returns) (tree_at pool.old constructor) (as_ind (tree_at pool.old t) (args_in pool.old args.now))) }
{
    let depth_left = deeper(depth_left)?;
    match pool.node(t) {
        Node::App(f, a) => {
            let f = *f;
            let args = Args::More(*a, &*args);
            return_at(
                pool,
                alloc,
                params,
                returns,
                constructor,
                f,
                &args,
                depth_left,
            )
        }
        Node::Ind(_) => {
            let indices = ids_of_arguments(alloc, all_but(&*args, params))?;
            let ty = motive_on_all(pool, alloc, returns, &indices, constructor, depth_left)?;
            Ok(Some(ty))
        }
        Node::Var(_)
        | Node::Sort(_)
        | Node::Prod(..)
        | Node::Lam(..)
        | Node::Const(_)
        | Node::Con(..)
        | Node::Match(..)
        | Node::Meta(..) => Ok(None),
    }
}

/// A motive and a constructor under one more name, the constructor on its variable.
#[tactic(auto, using(crate::proofs::Held::infer_held))]
fn under_name(
    pool: &mut Pool,
    alloc: Global,
    returns: TermId,
    constructor: TermId,
) -> Result<(TermId, TermId), OutOfMemory>
    requires function { returns.at < length pool.old }
    requires constructor { constructor.at < length pool.old }
    ensures kept { Kept pool.old pool.new }
    ensures function { IfOk result (λ u. IsNamed pool.new u.0 (lift 1 0 (tree_at pool.old returns))) }
    ensures constructor { IfOk result (λ u. IsNamed pool.new u.1 (on_newest (tree_at pool.old constructor))) }
{
    let returns = pool.lift(alloc, returns, 1, 0)?;
    let on_name = on_newest(pool, alloc, constructor)?;
    Ok((returns, on_name))
}

/// The type of a branch's body under its names from `at` on, by the motive, the constructor on what
/// stands before them, and the rest of its type. Recurses at most `depth_left` levels.
#[tactic(auto, using(crate::proofs::Held::infer_held, crate::proofs::Branching::list_rules))]
fn branch_type(
    pool: &mut Pool,
    alloc: Global,
    params: usize,
    returns: TermId,
    constructor: TermId,
    ty: TermId,
    names: &Names,
    at: usize,
    depth_left: usize,
) -> Result<Option<TermId>, OutOfMemory>
    requires function { returns.at < length pool.old }
    requires constructor { constructor.at < length pool.old }
    requires ty { ty.at < length pool.old }
    ensures kept { Kept pool.old pool.new }
    ensures held { IfOk result (λ o. FoundBelow (length pool.new) o) }
    ensures tree { IfOk result (λ o. found_in pool.new o ≡ branch_type params (tree_at pool.old returns) (tree_at pool.old constructor) (tree_at pool.old ty) (drop at names.now)) }
{
    let depth_left = deeper(depth_left)?;
    match names.get(at) {
        None => return_at(
            pool,
            alloc,
            params,
            returns,
            constructor,
            ty,
            &Args::End,
            depth_left,
        ),
        Some(_) => match pool.node(ty) {
            Node::Prod(_, _, codomain) => {
                let codomain = *codomain;
                let next = at.checked_add(1).ok_or(OutOfMemory)?;
                let (returns, on_name) = under_name(pool, alloc, returns, constructor)?;
                branch_type(
                    pool, alloc, params, returns, on_name, codomain, names, next, depth_left,
                )
            }
            Node::Var(_)
            | Node::Sort(_)
            | Node::Lam(..)
            | Node::App(..)
            | Node::Const(_)
            | Node::Ind(_)
            | Node::Con(..)
            | Node::Match(..)
            | Node::Meta(..) => Ok(None),
        },
    }
}
