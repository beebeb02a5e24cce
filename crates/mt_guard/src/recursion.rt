// The guard of recursive functions.
ghost use Rattle.std.specs.Prelude.{◌≡◌, ◌<◌, length, IfOk};
ghost use Rattle.mt_env.specs.Environments.{environment_in, EntriesBelow};
ghost use Rattle.mt_guard.specs.Deciding.{branch_marks, guards, guards_all, guards_arms, guards_branches, guards_under, is_guarded};
ghost use Rattle.mt_guard.specs.Marking.{args_in, guards_match, marks_many, marks_of, ArgsBelow};
ghost use Rattle.mt_pool.specs.Region.{arms_at, branches_of, ids_of, tree_at, trees_at, AllBelow, ArmsBelow};
ghost use Rattle.mt_term.specs.Trees.{End};

use crate::constructors::{find_maker, is_on_type};
use crate::marks::{Args, Mark, Marks, is_opened, is_smaller_at, mark_by};
use mt_env::Env;
use mt_pool::{BranchIds, Node, Pool, TermId, TermIds};
use mt_positivity::{Family, avoids, is_recursive};
use mt_term::{MAX_DEPTH, Names, OutOfMemory, deeper};

/// A recursive function: its number, and the place of the argument by which it goes down.
#[derive(Clone, Copy)]
pub struct Function {
    pub number: usize,
    pub place: usize,
}

// A branch of a match on a type: so many parameters and names are left.
#[derive(Clone, Copy)]
struct Branch {
    family: Family,
    params: usize,
    names: usize,
    body: TermId,
}

// Whether a term on further arguments, each of which is guarded, is guarded.
#[cycle(guarding)]
#[tactic(auto, using(mt_pool::proofs::Region::kept))]
fn guards(
    pool: &Pool,
    env: &Env,
    of: Function,
    marks: &Marks<'_>,
    t: TermId,
    args: &Args<'_>,
    depth_left: usize,
) -> Result<bool, OutOfMemory>
    requires entries { EntriesBelow (length pool.now) env.now.entries }
    requires term { t.at < length pool.now }
    requires others { ArgsBelow (length pool.now) args.now }
    ensures { IfOk result (λ b. b ≡ guards (environment_in pool.now env.now) of.number of.place (marks_of marks.now) (tree_at pool.now t) (args_in pool.now args.now)) }
{
    let depth_left = deeper(depth_left)?;
    match pool.node(t) {
        Node::Var(_) | Node::Sort(_) | Node::Ind(_) | Node::Con(_, _) => Ok(true),
        Node::Prod(_, a, b) | Node::Lam(_, a, b) => {
            let inner = Marks::More(Mark::Other, &*marks);
            Ok(
                guards(pool, env, of, marks, *a, &Args::End, depth_left)?
                    && guards(pool, env, of, &inner, *b, &Args::End, depth_left)?,
            )
        }
        Node::App(g, a) => {
            let more = Args::More(*a, &*args);
            Ok(
                guards(pool, env, of, marks, *g, &more, depth_left)?
                    && guards(pool, env, of, marks, *a, &Args::End, depth_left)?,
            )
        }
        Node::Const(c) => {
            Ok(*c != of.number || is_smaller_at(pool, marks, args, of.place, depth_left)?)
        }
        Node::Match(e, r, c, branches) => Ok(
            guards(pool, env, of, marks, *r, &Args::End, depth_left)?
                && guards(pool, env, of, marks, *c, &Args::End, depth_left)?
                && guards_match(pool, env, of, *e, marks, *c, branches, depth_left)?,
        ),
        Node::Meta(_, terms) => guards_terms(pool, env, of, marks, terms, depth_left),
    }
}

// Whether each term of a list is guarded.
#[cycle(guarding)]
#[tactic(auto, using(mt_pool::proofs::Region::kept))]
fn guards_terms(
    pool: &Pool,
    env: &Env,
    of: Function,
    marks: &Marks<'_>,
    terms: &TermIds,
    depth_left: usize,
) -> Result<bool, OutOfMemory>
    requires entries { EntriesBelow (length pool.now) env.now.entries }
    requires terms { AllBelow (length pool.now) (ids_of terms.now) }
    ensures { IfOk result (λ b. b ≡ guards_all (environment_in pool.now env.now) of.number of.place (marks_of marks.now) (trees_at pool.now (ids_of terms.now))) }
{
    let depth_left = deeper(depth_left)?;
    match terms {
        TermIds::End => Ok(true),
        TermIds::Item(t, ts) => Ok(
            guards(pool, env, of, marks, *t, &Args::End, depth_left)?
                && guards_terms(pool, env, of, marks, ts, depth_left)?,
        ),
    }
}

// Whether the branches of a match on a term are guarded.
#[cycle(guarding)]
#[tactic(auto, using(mt_pool::proofs::Region::kept))]
fn guards_match(
    pool: &Pool,
    env: &Env,
    of: Function,
    e: usize,
    marks: &Marks<'_>,
    matched: TermId,
    branches: &BranchIds,
    depth_left: usize,
) -> Result<bool, OutOfMemory>
    requires entries { EntriesBelow (length pool.now) env.now.entries }
    requires matched { matched.at < length pool.now }
    requires branches { ArmsBelow (length pool.now) (branches_of branches.now) }
    ensures { IfOk result (λ b. b ≡ guards_match (environment_in pool.now env.now) of.number of.place e (marks_of marks.now) (tree_at pool.now matched) (arms_at pool.now (branches_of branches.now))) }
{
    let depth_left = deeper(depth_left)?;
    if is_opened(pool, marks, matched, depth_left)? {
        return guards_branches(pool, env, of, e, 0, marks, branches, depth_left);
    }
    guards_arms(pool, env, of, marks, branches, depth_left)
}

// Whether the branches of a match that makes no variable smaller are guarded.
#[cycle(guarding)]
#[tactic(auto, using(mt_pool::proofs::Region::kept, crate::proofs::Marking::branch_rules))]
fn guards_arms(
    pool: &Pool,
    env: &Env,
    of: Function,
    marks: &Marks<'_>,
    branches: &BranchIds,
    depth_left: usize,
) -> Result<bool, OutOfMemory>
    requires entries { EntriesBelow (length pool.now) env.now.entries }
    requires branches { ArmsBelow (length pool.now) (branches_of branches.now) }
    ensures { IfOk result (λ b. b ≡ guards_arms (environment_in pool.now env.now) of.number of.place (marks_of marks.now) (arms_at pool.now (branches_of branches.now))) }
{
    let depth_left = deeper(depth_left)?;
    match branches {
        BranchIds::End => Ok(true),
        BranchIds::Item(names, body, rest) => {
            let inner = Marks::Others(names.len(), &*marks);
            Ok(
                guards(pool, env, of, &inner, *body, &Args::End, depth_left)?
                    && guards_arms(pool, env, of, marks, rest, depth_left)?,
            )
        }
    }
}

// Whether the branches from number `k` on, of a match on entry `e` that makes variables smaller,
// are guarded.
#[cycle(guarding)]
#[tactic(auto, using(mt_pool::proofs::Region::kept))]
fn guards_branches(
    pool: &Pool,
    env: &Env,
    of: Function,
    e: usize,
    k: usize,
    marks: &Marks<'_>,
    branches: &BranchIds,
    depth_left: usize,
) -> Result<bool, OutOfMemory>
    requires entries { EntriesBelow (length pool.now) env.now.entries }
    requires branches { ArmsBelow (length pool.now) (branches_of branches.now) }
    ensures { IfOk result (λ b. b ≡ guards_branches (environment_in pool.now env.now) of.number of.place e k (marks_of marks.now) (arms_at pool.now (branches_of branches.now))) }
{
    let depth_left = deeper(depth_left)?;
    match branches {
        BranchIds::End => Ok(true),
        BranchIds::Item(names, body, rest) => {
            let next = k.checked_add(1).ok_or(OutOfMemory)?;
            Ok(
                guards_branch(pool, env, of, e, k, marks, names, *body, depth_left)?
                    && guards_branches(pool, env, of, e, next, marks, rest, depth_left)?,
            )
        }
    }
}

// Whether the body of branch `k` is guarded.
#[cycle(guarding)]
#[tactic(auto, using(mt_pool::proofs::Region::kept, crate::proofs::Marking::branch_rules))]
fn guards_branch(
    pool: &Pool,
    env: &Env,
    of: Function,
    e: usize,
    k: usize,
    marks: &Marks<'_>,
    names: &Names,
    body: TermId,
    depth_left: usize,
) -> Result<bool, OutOfMemory>
    requires entries { EntriesBelow (length pool.now) env.now.entries }
    requires body { body.at < length pool.now }
    ensures { IfOk result (λ b. b ≡ guards (environment_in pool.now env.now) of.number of.place (branch_marks (environment_in pool.now env.now) e k names.now (marks_of marks.now)) (tree_at pool.now body) End) }
{
    let depth_left = deeper(depth_left)?;
    let names = names.len();
    match find_maker(pool, env, e, k)? {
        Some(maker) => {
            let family = Family {
                number: e,
                params: maker.params,
                indices: maker.indices,
            };
            let branch = Branch {
                family,
                params: maker.params,
                names,
                body,
            };
            guards_past(
                pool,
                env,
                of,
                branch,
                0,
                maker.constructor,
                marks,
                depth_left,
            )
        }
        None => {
            let inner = Marks::Others(names, &*marks);
            guards(pool, env, of, &inner, body, &Args::End, depth_left)
        }
    }
}

// Whether the body of a branch is guarded, where this is left of its constructor's type past so
// many arguments.
#[cycle(guarding)]
#[tactic(auto, using(mt_pool::proofs::Region::kept, crate::proofs::Steps::past_rules))]
fn guards_past(
    pool: &Pool,
    env: &Env,
    of: Function,
    branch: Branch,
    passed: usize,
    ty: TermId,
    marks: &Marks<'_>,
    depth_left: usize,
) -> Result<bool, OutOfMemory>
    requires entries { EntriesBelow (length pool.now) env.now.entries }
    requires body { branch.body.at < length pool.now }
    requires ty { ty.at < length pool.now }
    ensures { IfOk result (λ b. b ≡ guards (environment_in pool.now env.now) of.number of.place
        (marks_many branch.family.number branch.family.params branch.family.indices branch.params passed (tree_at pool.now ty) branch.names (marks_of marks.now)) (tree_at pool.now branch.body) End) }
{
    let depth_left = deeper(depth_left)?;
    if branch.names == 0 {
        return guards(pool, env, of, marks, branch.body, &Args::End, depth_left);
    }
    match pool.node(ty) {
        Node::Prod(_, a, b) => {
            if branch.params > 0 {
                let next = Branch {
                    params: branch.params - 1,
                    ..branch
                };
                return guards_past(pool, env, of, next, passed, *b, marks, depth_left);
            }
            let further = passed.checked_add(1).ok_or(OutOfMemory)?;
            let next = Branch {
                names: branch.names - 1,
                ..branch
            };
            let mark = mark_by(is_recursive(pool, branch.family, passed, *a, depth_left)?);
            let inner = Marks::More(mark, &*marks);
            guards_past(pool, env, of, next, further, *b, &inner, depth_left)
        }
        Node::Var(_)
        | Node::Sort(_)
        | Node::Lam(_, _, _)
        | Node::App(_, _)
        | Node::Const(_)
        | Node::Ind(_)
        | Node::Con(_, _)
        | Node::Match(_, _, _, _)
        | Node::Meta(_, _) => {
            let inner = Marks::Others(branch.names, &*marks);
            guards(pool, env, of, &inner, branch.body, &Args::End, depth_left)
        }
    }
}

// Whether the body of the function is guarded under its binders, of which so many are left and so
// many passed.
#[tactic(auto, using(mt_pool::proofs::Region::kept, crate::proofs::Steps::step_rules))]
fn guards_under(
    pool: &Pool,
    env: &Env,
    of: Function,
    left: usize,
    passed: usize,
    marks: &Marks<'_>,
    t: TermId,
    depth_left: usize,
) -> Result<bool, OutOfMemory>
    requires entries { EntriesBelow (length pool.now) env.now.entries }
    requires term { t.at < length pool.now }
    ensures { IfOk result (λ b. b ≡ guards_under (environment_in pool.now env.now) of.number of.place left passed (marks_of marks.now) (tree_at pool.now t)) }
{
    let depth_left = deeper(depth_left)?;
    if left == 0 {
        return guards(pool, env, of, marks, t, &Args::End, depth_left);
    }
    match pool.node(t) {
        Node::Lam(_, a, b) => {
            if !avoids(pool, of.number, *a, depth_left)? {
                return Ok(false);
            }
            let further = passed.checked_add(1).ok_or(OutOfMemory)?;
            if passed != of.place {
                let inner = Marks::More(Mark::Other, &*marks);
                return guards_under(pool, env, of, left - 1, further, &inner, *b, depth_left);
            }
            let inner = Marks::More(Mark::Place, &*marks);
            Ok(
                is_on_type(pool, env, false, *a, depth_left)?
                    && guards_under(pool, env, of, left - 1, further, &inner, *b, depth_left)?,
            )
        }
        Node::Var(_)
        | Node::Sort(_)
        | Node::Prod(_, _, _)
        | Node::App(_, _)
        | Node::Const(_)
        | Node::Ind(_)
        | Node::Con(_, _)
        | Node::Match(_, _, _, _)
        | Node::Meta(_, _) => Ok(false),
    }
}

/// Whether a recursive function of so many binders is guarded.
pub fn is_guarded(
    pool: &Pool,
    env: &Env,
    of: Function,
    binders: usize,
    body: TermId,
) -> Result<bool, OutOfMemory>
    requires entries { EntriesBelow (length pool.now) env.now.entries }
    requires body { body.at < length pool.now }
    ensures { IfOk result (λ b. b ≡ is_guarded (environment_in pool.now env.now) of.number binders of.place (tree_at pool.now body)) }
{
    Ok(
        of.place < binders
            && guards_under(pool, env, of, binders, 0, &Marks::Empty, body, MAX_DEPTH)?,
    )
}
