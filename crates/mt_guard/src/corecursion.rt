// The guard of corecursive functions.
ghost use Rattle.std.specs.Prelude.{◌≡◌, ◌<◌, ◌&&◌, length, IfOk};
ghost use Rattle.mt_env.specs.Environments.{environment_in, EntriesBelow};
ghost use Rattle.mt_guard.specs.Corecursive.{all_avoid, fit, has_coinductive_result, is_call, is_co_guarded, is_coinductive_motive, is_under, may_stand, stand_arms, stands};
ghost use Rattle.mt_guard.specs.Judging.{fits_at, judged_in, JudgedBelow};
ghost use Rattle.mt_positivity.specs.Deciding.{avoids};
ghost use Rattle.mt_pool.specs.Region.{arms_at, branches_of, tree_at, ArmsBelow};

use crate::constructors::{find_maker, is_on_type};
use mt_env::Env;
use mt_pool::{BranchIds, Node, Pool, TermId};
use mt_positivity::{Family, avoids, is_recursive};
use mt_term::{MAX_DEPTH, OutOfMemory, deeper};

/// Arguments, the first of which is the innermost, each beside whether it is guarded where it
/// stands under no constructor.
#[derive(Clone, Copy)]
pub enum Judged<'a> {
    End,
    More(TermId, bool, &'a Judged<'a>),
}

// Whether a term is an entry on arguments that do not mention it.
#[tactic(auto, using(mt_pool::proofs::Region::kept))]
fn is_call(pool: &Pool, number: usize, t: TermId, depth_left: usize) -> Result<bool, OutOfMemory>
    requires { t.at < length pool.now }
    ensures { IfOk result (λ b. b ≡ is_call number (tree_at pool.now t)) }
{
    let depth_left = deeper(depth_left)?;
    match pool.node(t) {
        Node::Const(c) => Ok(*c == number),
        Node::App(g, a) => {
            Ok(is_call(pool, number, *g, depth_left)? && avoids(pool, number, *a, depth_left)?)
        }
        Node::Var(_)
        | Node::Sort(_)
        | Node::Prod(_, _, _)
        | Node::Lam(_, _, _)
        | Node::Ind(_)
        | Node::Con(_, _)
        | Node::Match(_, _, _, _)
        | Node::Meta(_, _) => Ok(false),
    }
}

// Whether no argument mentions an entry.
fn all_avoid(
    pool: &Pool,
    number: usize,
    args: &Judged<'_>,
    depth_left: usize,
) -> Result<bool, OutOfMemory>
    requires { JudgedBelow (length pool.now) args.now }
    ensures { IfOk result (λ b. b ≡ all_avoid number (judged_in pool.now args.now)) }
{
    let depth_left = deeper(depth_left)?;
    match args {
        Judged::End => Ok(true),
        Judged::More(a, _, rest) => {
            Ok(avoids(pool, number, *a, depth_left)? && all_avoid(pool, number, rest, depth_left)?)
        }
    }
}

// Whether an argument may stand where the constructor's type has this argument's type.
fn may_stand(
    pool: &Pool,
    number: usize,
    family: Family,
    passed: usize,
    ty: TermId,
    argument: TermId,
    stands: bool,
    depth_left: usize,
) -> Result<bool, OutOfMemory>
    requires ty { ty.at < length pool.now }
    requires argument { argument.at < length pool.now }
    ensures { IfOk result (λ b. b ≡ may_stand number family.number family.params family.indices passed (tree_at pool.now ty) (tree_at pool.now argument, stands)) }
{
    Ok(
        avoids(pool, number, argument, depth_left)?
            || (is_recursive(pool, family, passed, ty, depth_left)?
                && (stands || is_call(pool, number, argument, depth_left)?)),
    )
}

// Whether the arguments of a constructor are guarded, by the rest of its type, where so many
// parameters are left.
#[tactic(auto, using(mt_pool::proofs::Region::kept))]
fn fit(
    pool: &Pool,
    number: usize,
    family: Family,
    left: usize,
    passed: usize,
    ty: TermId,
    args: &Judged<'_>,
    depth_left: usize,
) -> Result<bool, OutOfMemory>
    requires ty { ty.at < length pool.now }
    requires args { JudgedBelow (length pool.now) args.now }
    ensures { IfOk result (λ b. b ≡ fit number family.number family.params family.indices left passed (tree_at pool.now ty) (judged_in pool.now args.now)) }
{
    let depth_left = deeper(depth_left)?;
    match args {
        Judged::End => Ok(true),
        Judged::More(a, stands, rest) => match pool.node(ty) {
            Node::Prod(_, domain, codomain) => {
                if left > 0 {
                    return Ok(
                        avoids(pool, number, *a, depth_left)?
                            && fit(
                                pool,
                                number,
                                family,
                                left - 1,
                                passed,
                                *codomain,
                                rest,
                                depth_left,
                            )?,
                    );
                }
                let further = passed.checked_add(1).ok_or(OutOfMemory)?;
                Ok(
                    may_stand(
                        pool, number, family, passed, *domain, *a, *stands, depth_left,
                    )? && fit(
                        pool, number, family, 0, further, *codomain, rest, depth_left,
                    )?,
                )
            }
            Node::Var(_)
            | Node::Sort(_)
            | Node::Lam(_, _, _)
            | Node::App(_, _)
            | Node::Const(_)
            | Node::Ind(_)
            | Node::Con(_, _)
            | Node::Match(_, _, _, _)
            | Node::Meta(_, _) => all_avoid(pool, number, args, depth_left),
        },
    }
}

// Whether the arguments of constructor `k` of entry `e`, which must be coinductive, are guarded.
#[tactic(auto, using(crate::proofs::Judging::judging))]
fn fits_at(
    pool: &Pool,
    env: &Env,
    number: usize,
    e: usize,
    k: usize,
    args: &Judged<'_>,
    depth_left: usize,
) -> Result<bool, OutOfMemory>
    requires entries { EntriesBelow (length pool.now) env.now.entries }
    requires args { JudgedBelow (length pool.now) args.now }
    ensures { IfOk result (λ b. b ≡ fits_at (environment_in pool.now env.now) number e k (judged_in pool.now args.now)) }
{
    match find_maker(pool, env, e, k)? {
        Some(maker) => {
            let family = Family {
                number: e,
                params: maker.params,
                indices: maker.indices,
            };
            if !maker.co {
                return Ok(false);
            }
            fit(
                pool,
                number,
                family,
                maker.params,
                0,
                maker.constructor,
                args,
                depth_left,
            )
        }
        None => Ok(false),
    }
}

// Whether a motive is, as it stands, abstractions and then a coinductive type on arguments.
#[tactic(auto, using(mt_pool::proofs::Region::kept))]
fn is_coinductive_motive(
    pool: &Pool,
    env: &Env,
    motive: TermId,
    depth_left: usize,
) -> Result<bool, OutOfMemory>
    requires { motive.at < length pool.now }
    ensures { IfOk result (λ b. b ≡ is_coinductive_motive (environment_in pool.now env.now) (tree_at pool.now motive)) }
{
    let depth_left = deeper(depth_left)?;
    match pool.node(motive) {
        Node::Lam(_, _, body) => is_coinductive_motive(pool, env, *body, depth_left),
        Node::Var(_)
        | Node::Sort(_)
        | Node::Prod(_, _, _)
        | Node::App(_, _)
        | Node::Const(_)
        | Node::Ind(_)
        | Node::Con(_, _)
        | Node::Match(_, _, _, _)
        | Node::Meta(_, _) => is_on_type(pool, env, true, motive, depth_left),
    }
}

// Whether a motive does not mention the function and is, as it stands, coinductive.
fn allows_match(
    pool: &Pool,
    env: &Env,
    number: usize,
    motive: TermId,
    depth_left: usize,
) -> Result<bool, OutOfMemory>
    requires { motive.at < length pool.now }
    ensures { IfOk result (λ b. b ≡ (avoids number (tree_at pool.now motive)
        && is_coinductive_motive (environment_in pool.now env.now) (tree_at pool.now motive))) }
{
    Ok(
        avoids(pool, number, motive, depth_left)?
            && is_coinductive_motive(pool, env, motive, depth_left)?,
    )
}

// Whether a term on arguments, in which the function may occur, is guarded under no constructor.
#[cycle(standing)]
#[tactic(auto, using(mt_pool::proofs::Region::kept, crate::proofs::Judging::judging))]
fn stands(
    pool: &Pool,
    env: &Env,
    number: usize,
    t: TermId,
    args: &Judged<'_>,
    depth_left: usize,
) -> Result<bool, OutOfMemory>
    requires entries { EntriesBelow (length pool.now) env.now.entries }
    requires term { t.at < length pool.now }
    requires args { JudgedBelow (length pool.now) args.now }
    ensures { IfOk result (λ b. b ≡ stands (environment_in pool.now env.now) number (tree_at pool.now t) (judged_in pool.now args.now)) }
{
    let depth_left = deeper(depth_left)?;
    match pool.node(t) {
        Node::Lam(_, a, b) => match args {
            Judged::End => Ok(
                avoids(pool, number, *a, depth_left)?
                    && is_under(pool, env, number, *b, depth_left)?,
            ),
            Judged::More(_, _, _) => Ok(false),
        },
        Node::Match(_, r, c, branches) => match args {
            Judged::End => Ok(
                allows_match(pool, env, number, *r, depth_left)?
                    && avoids(pool, number, *c, depth_left)?
                    && branches_stand(pool, env, number, branches, depth_left)?,
            ),
            Judged::More(_, _, _) => Ok(false),
        },
        Node::App(g, a) => {
            let verdict = is_under(pool, env, number, *a, depth_left)?;
            let more = Judged::More(*a, verdict, &*args);
            stands(pool, env, number, *g, &more, depth_left)
        }
        Node::Con(e, k) => fits_at(pool, env, number, *e, *k, args, depth_left),
        Node::Var(_)
        | Node::Sort(_)
        | Node::Prod(_, _, _)
        | Node::Const(_)
        | Node::Ind(_)
        | Node::Meta(_, _) => Ok(false),
    }
}

// Whether a term is guarded under no constructor.
#[cycle(standing)]
fn is_under(
    pool: &Pool,
    env: &Env,
    number: usize,
    t: TermId,
    depth_left: usize,
) -> Result<bool, OutOfMemory>
    requires entries { EntriesBelow (length pool.now) env.now.entries }
    requires term { t.at < length pool.now }
    ensures { IfOk result (λ b. b ≡ is_under (environment_in pool.now env.now) number (tree_at pool.now t)) }
{
    let depth_left = deeper(depth_left)?;
    Ok(
        avoids(pool, number, t, depth_left)?
            || stands(pool, env, number, t, &Judged::End, depth_left)?,
    )
}

// Whether the bodies of branches are guarded under no constructor.
#[cycle(standing)]
#[tactic(auto, using(mt_pool::proofs::Region::kept))]
fn branches_stand(
    pool: &Pool,
    env: &Env,
    number: usize,
    branches: &BranchIds,
    depth_left: usize,
) -> Result<bool, OutOfMemory>
    requires entries { EntriesBelow (length pool.now) env.now.entries }
    requires branches { ArmsBelow (length pool.now) (branches_of branches.now) }
    ensures { IfOk result (λ b. b ≡ stand_arms (environment_in pool.now env.now) number (arms_at pool.now (branches_of branches.now))) }
{
    let depth_left = deeper(depth_left)?;
    match branches {
        BranchIds::End => Ok(true),
        BranchIds::Item(_, body, rest) => Ok(
            is_under(pool, env, number, *body, depth_left)?
                && branches_stand(pool, env, number, rest, depth_left)?,
        ),
    }
}

// Whether a type's result past so many products is a coinductive type on arguments.
#[tactic(auto, using(mt_pool::proofs::Region::kept, crate::proofs::Steps::step_rules))]
fn has_coinductive_result(
    pool: &Pool,
    env: &Env,
    left: usize,
    ty: TermId,
    depth_left: usize,
) -> Result<bool, OutOfMemory>
    requires { ty.at < length pool.now }
    ensures { IfOk result (λ b. b ≡ has_coinductive_result (environment_in pool.now env.now) left (tree_at pool.now ty)) }
{
    let depth_left = deeper(depth_left)?;
    if left == 0 {
        return is_on_type(pool, env, true, ty, depth_left);
    }
    match pool.node(ty) {
        Node::Prod(_, _, codomain) => {
            has_coinductive_result(pool, env, left - 1, *codomain, depth_left)
        }
        Node::Var(_)
        | Node::Sort(_)
        | Node::Lam(_, _, _)
        | Node::App(_, _)
        | Node::Const(_)
        | Node::Ind(_)
        | Node::Con(_, _)
        | Node::Match(_, _, _, _)
        | Node::Meta(_, _) => Ok(false),
    }
}

/// Whether a corecursive function, an entry of a number, of so many binders, a type and a body, is
/// guarded.
pub fn is_co_guarded(
    pool: &Pool,
    env: &Env,
    number: usize,
    binders: usize,
    ty: TermId,
    body: TermId,
) -> Result<bool, OutOfMemory>
    requires entries { EntriesBelow (length pool.now) env.now.entries }
    requires ty { ty.at < length pool.now }
    requires body { body.at < length pool.now }
    ensures { IfOk result (λ b. b ≡ is_co_guarded (environment_in pool.now env.now) number binders (tree_at pool.now ty) (tree_at pool.now body)) }
{
    Ok(
        has_coinductive_result(pool, env, binders, ty, MAX_DEPTH)?
            && is_under(pool, env, number, body, MAX_DEPTH)?,
    )
}
