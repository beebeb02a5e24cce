// The branches of a match against the constructors, and the types of their bodies.
ghost use Rattle.std.specs.Prelude.{◌≡◌, IfOk, drop};
ghost use Rattle.mt_kernel.specs.Arguments.{args_of, tree_in};
ghost use Rattle.mt_kernel.specs.Families.{goal_in};
ghost use Rattle.mt_kernel.specs.Fitting.{branch_goal, has_branches};
ghost use Rattle.mt_rules.specs.Inference.{branch_type, branches_fit, return_at};
ghost use Rattle.mt_term.specs.Spines.{as_ind, motive_on, motive_on_all};
ghost use Rattle.mt_term.specs.Substitution.{join};
ghost use Rattle.mt_term.specs.Trees.{End, Item};
ghost use Rattle.mt_term.specs.TreeOf.{arms_of, tree_of, trees_of};

use crate::arguments::{Args, all_but, on_newest};
use crate::families::{apply_all, at_args};
use crate::matching::{length, products};
use mt_term::{Branches, Cons, Names, OutOfMemory, Term, Terms, copy, deeper, lift, substitute};
use std::alloc::Global;

/// A constructor's type at the parameters, and the type of the body of its branch.
#[derive(Drop)]
pub struct BranchGoal {
    pub own: Term,
    pub ty: Term,
}

/// The goal of the branch for constructor `k`, where it has one.
#[tactic(auto, using(crate::proofs::Branching::goal_rules))]
pub fn branch_goal(
    alloc: Global,
    number: usize,
    params: &Terms,
    k: usize,
    ty: &Term,
    returns: &Term,
    names: &Names,
    depth_left: usize,
) -> Result<Option<BranchGoal>, OutOfMemory>
    ensures { IfOk result (λ o. goal_in o ≡ branch_goal number (trees_of params.now) k (tree_of ty.now) (tree_of returns.now) names.now) }
{
    let Some(own) = at_args(alloc, copy(alloc, ty)?, params, depth_left)? else {
        return Ok(None);
    };
    let on_params = apply_all(alloc, Term::Con(number, k), params, depth_left)?;
    let count = length(params, depth_left)?;
    let returns = copy(alloc, returns)?;
    match branch_type(alloc, count, returns, on_params, &own, names, 0, depth_left)? {
        None => Ok(None),
        Some(ty) => Ok(Some(BranchGoal { own, ty })),
    }
}

/// Whether the branches are those of the constructors.
#[tactic(auto, using(crate::proofs::Branching::has_branches_is))]
pub fn has_branches(
    params: &Terms,
    constructors: &Cons,
    branches: &Branches,
    depth_left: usize,
) -> Result<bool, OutOfMemory>
    ensures { IfOk result (λ b. b ≡ has_branches (trees_of params.now) constructors.now (arms_of branches.now)) }
{
    branches_fit(
        length(params, depth_left)?,
        constructors,
        0,
        branches,
        depth_left,
    )
}

/// Whether there are as many branches as constructors from number `k` on, each with as many names
/// as its constructor has arguments past the parameters.
#[tactic(auto, using(crate::proofs::Branching::list_rules))]
fn branches_fit(
    params: usize,
    constructors: &Cons,
    k: usize,
    branches: &Branches,
    depth_left: usize,
) -> Result<bool, OutOfMemory>
    ensures { IfOk result (λ b. b ≡ branches_fit params (drop k constructors.now) (arms_of branches.now)) }
{
    let depth_left = deeper(depth_left)?;
    match branches {
        Branches::End => match constructors.get(k) {
            None => Ok(true),
            Some(_) => Ok(false),
        },
        Branches::Item(branch, rest) => match constructors.get(k) {
            None => Ok(false),
            Some(constructor) => {
                let names = branch.names.len().checked_add(params).ok_or(OutOfMemory)?;
                if names != products(&constructor.ty, depth_left)? {
                    return Ok(false);
                }
                let next = k.checked_add(1).ok_or(OutOfMemory)?;
                branches_fit(params, constructors, next, rest, depth_left)
            }
        },
    }
}

/// A motive on an argument: its body at it where it is an abstraction.
fn motive_on(alloc: Global, returns: Term, u: &Term) -> Result<Term, OutOfMemory>
    ensures { IfOk result (λ t. tree_of t ≡ motive_on (tree_of returns) (tree_of u.now)) }
{
    if let Term::Lam(_, _, body) = &returns {
        return substitute(alloc, body, 0, u);
    }
    let f = Box::new(alloc, returns)?;
    let a = Box::new(alloc, copy(alloc, u)?)?;
    Ok(Term::App(f, a))
}

/// A motive on the indices, and on a last argument.
pub fn motive_on_all(
    alloc: Global,
    returns: Term,
    indices: &Terms,
    last: &Term,
    depth_left: usize,
) -> Result<Term, OutOfMemory>
    ensures { IfOk result (λ t. tree_of t ≡ motive_on_all (tree_of returns) (join (trees_of indices.now) (Item (tree_of last.now) End))) }
{
    let depth_left = deeper(depth_left)?;
    match indices {
        Terms::End => motive_on(alloc, returns, last),
        Terms::Item(a, rest) => {
            let returns = motive_on(alloc, returns, a)?;
            motive_on_all(alloc, returns, rest, last, depth_left)
        }
    }
}

/// The motive on the indices of the type that `t` on the arguments is, and on the constructor.
fn return_at(
    alloc: Global,
    params: usize,
    returns: Term,
    constructor: &Term,
    t: &Term,
    args: &Args<'_>,
    depth_left: usize,
) -> Result<Option<Term>, OutOfMemory>
    ensures { IfOk result (λ o. tree_in o ≡ return_at params (tree_of returns) (tree_of constructor.now) (as_ind (tree_of t.now) (args_of args.now))) }
{
    let depth_left = deeper(depth_left)?;
    match t {
        Term::App(f, a) => {
            let args = Args::More(&*a, &*args);
            return_at(alloc, params, returns, constructor, &*f, &args, depth_left)
        }
        Term::Ind(_) => {
            let indices = all_but(alloc, args, params)?;
            Ok(Some(motive_on_all(alloc, returns, &indices, constructor, depth_left)?))
        }
        _ => Ok(None),
    }
}

/// The type of a branch's body under its names from `at` on, by the motive, the constructor on what
/// stands before them, and the rest of its type.
#[tactic(auto, using(crate::proofs::Branching::list_rules))]
fn branch_type(
    alloc: Global,
    params: usize,
    returns: Term,
    constructor: Term,
    ty: &Term,
    names: &Names,
    at: usize,
    depth_left: usize,
) -> Result<Option<Term>, OutOfMemory>
    ensures { IfOk result (λ o. tree_in o ≡ branch_type params (tree_of returns) (tree_of constructor) (tree_of ty.now) (drop at names.now)) }
{
    let depth_left = deeper(depth_left)?;
    match names.get(at) {
        None => return_at(
            alloc,
            params,
            returns,
            &constructor,
            ty,
            &Args::End,
            depth_left,
        ),
        Some(_) => match ty {
            Term::Prod(_, _, codomain) => {
                let next = at.checked_add(1).ok_or(OutOfMemory)?;
                let returns = lift(alloc, &returns, 1, 0)?;
                let on_name = on_newest(alloc, &constructor)?;
                branch_type(
                    alloc, params, returns, on_name, codomain, names, next, depth_left,
                )
            }
            _ => Ok(None),
        },
    }
}
