// The inference of the types of matches.
ghost use Rattle.std.specs.Prelude.{◌≡◌, ◌<◌, ◌+◌, length, IfOk, drop};
ghost use Rattle.mt_infer.specs.Families.{family_held, FamilyBelow};
ghost use Rattle.mt_infer.specs.Fitting.{arms_from, branch_fits, fits, match_on, match_type};
ghost use Rattle.mt_infer.specs.Scopes.{scope_in, ScopeBelow};
ghost use Rattle.mt_layers.specs.Environments.{environment_in, EnvBelow};
ghost use Rattle.mt_rules.specs.Answers.{Answers};
ghost use Rattle.mt_pool.specs.Region.{arms_at, branches_of, tree_at, ArmsBelow, Kept};
ghost use Rattle.mt_store.specs.Held.{store_in, StoreBelow};
ghost use Rattle.mt_rules.specs.Inference.{branch_context, elimination, infer};
ghost use Rattle.mt_term.specs.Trees.{Match};

use crate::branches::{answer, branch_goal, has_branches};
use crate::elimination::elimination_sort;
use crate::expected::agree;
use crate::families::{Family, constructor_type_at, family_numbered, on_params};
use crate::inference::{infer, type_head};
use crate::inferrer::Inferrer;
use crate::scopes::Scope;
use mt_layers::{Convert, Whd, Work};
use mt_pool::{BranchIds, Node, TermId};
use mt_term::{Mode, Names, OutOfMemory, Refusal, Sort, Stop, deeper};
use mt_text::{Ledger, Steps};
use std::alloc::Global;

/// The type of a match. Recurses at most `depth_left` levels.
#[cycle(infer)]
#[tactic(auto, using(crate::proofs::Held::infer_held, crate::proofs::Matches::infer_match_rules))]
pub fn infer_match<C: Convert, W: Whd, L: Ledger>(
    i: &Inferrer<C, W>,
    alloc: Global,
    w: &mut Work<'_>,
    scope: &Scope<'_>,
    e: usize,
    r: TermId,
    c: TermId,
    bs: &BranchIds,
    depth_left: usize,
    steps: &mut Steps<L>,
) -> Result<TermId, Stop>
    requires function { r.at < length w.old.pool.now }
    requires matched { c.at < length w.old.pool.now }
    requires branches { ArmsBelow (length w.old.pool.now) (branches_of bs.now) }
    requires scope_held { ScopeBelow (length w.old.pool.now) scope.now }
    requires env_held { EnvBelow (length w.old.pool.now) w.old.env.now }
    requires store_held { StoreBelow (length w.old.pool.now) w.old.store.now }
    ensures same_pool { w.new.pool.ghost_name ≡ w.old.pool.ghost_name }
    ensures env { w.new.env ≡ w.old.env }
    ensures store { w.new.store ≡ w.old.store }
    ensures kept { Kept w.old.pool.now w.new.pool.now }
    ensures outcome { Answers (tree_at w.new.pool.now) (infer (environment_in w.old.pool.now w.old.env.now) (store_in w.old.pool.now w.old.store.now) (scope_in w.old.pool.now scope.now) (Match e (tree_at w.old.pool.now r) (tree_at w.old.pool.now c) (arms_at w.old.pool.now (branches_of bs.now))) w.old.left) w.new.left result }
    ensures result_held { IfOk result (λ u. u.at < length w.new.pool.now) }
    ensures cost { steps.new + w.new.left ≡ steps.old + w.old.left }
{
    let depth_left = deeper(depth_left)?;
    w.charge(steps)?;
    let head = type_head(i, alloc, w, scope, c, depth_left, steps)?;
    match_on(i, alloc, w, scope, e, head, r, c, bs, depth_left, steps)
}

/// The type of a match, where the weak head of its matched term's type is `head`. Recurses at most
/// `depth_left` levels.
#[cycle(infer)]
#[tactic(auto, using(crate::proofs::Held::infer_held, crate::proofs::Matches::match_on_rules))]
fn match_on<C: Convert, W: Whd, L: Ledger>(
    i: &Inferrer<C, W>,
    alloc: Global,
    w: &mut Work<'_>,
    scope: &Scope<'_>,
    e: usize,
    head: TermId,
    r: TermId,
    c: TermId,
    bs: &BranchIds,
    depth_left: usize,
    steps: &mut Steps<L>,
) -> Result<TermId, Stop>
    requires head { head.at < length w.old.pool.now }
    requires function { r.at < length w.old.pool.now }
    requires matched { c.at < length w.old.pool.now }
    requires branches { ArmsBelow (length w.old.pool.now) (branches_of bs.now) }
    requires scope_held { ScopeBelow (length w.old.pool.now) scope.now }
    requires env_held { EnvBelow (length w.old.pool.now) w.old.env.now }
    requires store_held { StoreBelow (length w.old.pool.now) w.old.store.now }
    ensures same_pool { w.new.pool.ghost_name ≡ w.old.pool.ghost_name }
    ensures env { w.new.env ≡ w.old.env }
    ensures store { w.new.store ≡ w.old.store }
    ensures kept { Kept w.old.pool.now w.new.pool.now }
    ensures outcome { Answers (tree_at w.new.pool.now) (match_on (environment_in w.old.pool.now w.old.env.now) (store_in w.old.pool.now w.old.store.now) (scope_in w.old.pool.now scope.now) e (tree_at w.old.pool.now head) (tree_at w.old.pool.now r) (tree_at w.old.pool.now c) (arms_at w.old.pool.now (branches_of bs.now)) w.old.left) w.new.left result }
    ensures result_held { IfOk result (λ u. u.at < length w.new.pool.now) }
    ensures cost { steps.new + w.new.left ≡ steps.old + w.old.left }
{
    let depth_left = deeper(depth_left)?;
    let Some(family) = family_numbered(w.pool, alloc, w.env, e, head, depth_left)? else {
        return Err(Stop::Refused(Refusal::BadElimination));
    };
    match_type(i, alloc, w, scope, &family, r, c, bs, depth_left, steps)
}

/// The type of a match on a term of an inductive type. Recurses at most `depth_left` levels.
#[cycle(infer)]
#[tactic(auto, using(crate::proofs::Held::infer_held, crate::proofs::Matches::match_type_rules))]
fn match_type<C: Convert, W: Whd, L: Ledger>(
    i: &Inferrer<C, W>,
    alloc: Global,
    w: &mut Work<'_>,
    scope: &Scope<'_>,
    family: &Family<'_>,
    r: TermId,
    c: TermId,
    bs: &BranchIds,
    depth_left: usize,
    steps: &mut Steps<L>,
) -> Result<TermId, Stop>
    requires family { FamilyBelow (length w.old.pool.now) family.now }
    requires function { r.at < length w.old.pool.now }
    requires matched { c.at < length w.old.pool.now }
    requires branches { ArmsBelow (length w.old.pool.now) (branches_of bs.now) }
    requires scope_held { ScopeBelow (length w.old.pool.now) scope.now }
    requires env_held { EnvBelow (length w.old.pool.now) w.old.env.now }
    requires store_held { StoreBelow (length w.old.pool.now) w.old.store.now }
    ensures same_pool { w.new.pool.ghost_name ≡ w.old.pool.ghost_name }
    ensures env { w.new.env ≡ w.old.env }
    ensures store { w.new.store ≡ w.old.store }
    ensures kept { Kept w.old.pool.now w.new.pool.now }
    ensures outcome { Answers (tree_at w.new.pool.now) (match_type (environment_in w.old.pool.now w.old.env.now) (store_in w.old.pool.now w.old.store.now) (scope_in w.old.pool.now scope.now) (family_held w.old.pool.now family.now) (tree_at w.old.pool.now r) (tree_at w.old.pool.now c) (arms_at w.old.pool.now (branches_of bs.now)) w.old.left) w.new.left result }
    ensures result_held { IfOk result (λ u. u.at < length w.new.pool.now) }
    ensures cost { steps.new + w.new.left ≡ steps.old + w.old.left }
{
    let depth_left = deeper(depth_left)?;
    elimination(i, alloc, w, scope, family, r, depth_left, steps)?;
    if !has_branches(w.pool, family, bs, depth_left)? {
        return Err(Stop::Refused(Refusal::BadElimination));
    }
    infer_branches(i, alloc, w, scope, family, r, 0, bs, depth_left, steps)?;
    Ok(answer(w.pool, alloc, family, r, c, depth_left)?)
}

/// The sort that a motive answers in. Recurses at most `depth_left` levels.
#[cycle(infer)]
#[tactic(auto, using(crate::proofs::Held::infer_held, crate::proofs::Matches::elimination_rules))]
fn elimination<C: Convert, W: Whd, L: Ledger>(
    i: &Inferrer<C, W>,
    alloc: Global,
    w: &mut Work<'_>,
    scope: &Scope<'_>,
    family: &Family<'_>,
    r: TermId,
    depth_left: usize,
    steps: &mut Steps<L>,
) -> Result<Sort, Stop>
    requires family { FamilyBelow (length w.old.pool.now) family.now }
    requires function { r.at < length w.old.pool.now }
    requires scope_held { ScopeBelow (length w.old.pool.now) scope.now }
    requires env_held { EnvBelow (length w.old.pool.now) w.old.env.now }
    requires store_held { StoreBelow (length w.old.pool.now) w.old.store.now }
    ensures same_pool { w.new.pool.ghost_name ≡ w.old.pool.ghost_name }
    ensures env { w.new.env ≡ w.old.env }
    ensures store { w.new.store ≡ w.old.store }
    ensures kept { Kept w.old.pool.now w.new.pool.now }
    ensures outcome { Answers (λ s. s) (elimination (environment_in w.old.pool.now w.old.env.now) (store_in w.old.pool.now w.old.store.now) (scope_in w.old.pool.now scope.now) (family_held w.old.pool.now family.now) (tree_at w.old.pool.now r) w.old.left) w.new.left result }
    ensures cost { steps.new + w.new.left ≡ steps.old + w.old.left }
{
    let depth_left = deeper(depth_left)?;
    let on_its_params = on_params(w.pool, family, depth_left)?;
    let ty = infer(i, alloc, w, scope, r, depth_left, steps)?;
    let arity = family.arity;
    elimination_sort(
        i,
        alloc,
        w,
        scope,
        family.large,
        arity,
        on_its_params,
        ty,
        depth_left,
        steps,
    )
}

/// Checks the branches for the constructors from number `k` on. Recurses at most `depth_left`
/// levels.
#[cycle(infer)]
#[tactic(auto, using(crate::proofs::Held::infer_held, crate::proofs::Branching::arms_rules))]
fn infer_branches<C: Convert, W: Whd, L: Ledger>(
    i: &Inferrer<C, W>,
    alloc: Global,
    w: &mut Work<'_>,
    scope: &Scope<'_>,
    family: &Family<'_>,
    r: TermId,
    k: usize,
    bs: &BranchIds,
    depth_left: usize,
    steps: &mut Steps<L>,
) -> Result<(), Stop>
    requires family { FamilyBelow (length w.old.pool.now) family.now }
    requires function { r.at < length w.old.pool.now }
    requires branches { ArmsBelow (length w.old.pool.now) (branches_of bs.now) }
    requires scope_held { ScopeBelow (length w.old.pool.now) scope.now }
    requires env_held { EnvBelow (length w.old.pool.now) w.old.env.now }
    requires store_held { StoreBelow (length w.old.pool.now) w.old.store.now }
    ensures same_pool { w.new.pool.ghost_name ≡ w.old.pool.ghost_name }
    ensures env { w.new.env ≡ w.old.env }
    ensures store { w.new.store ≡ w.old.store }
    ensures kept { Kept w.old.pool.now w.new.pool.now }
    ensures outcome { Answers (λ a. a) (arms_from (environment_in w.old.pool.now w.old.env.now) (store_in w.old.pool.now w.old.store.now) (scope_in w.old.pool.now scope.now) (family_held w.old.pool.now family.now) (tree_at w.old.pool.now r) k (arms_at w.old.pool.now (branches_of bs.now)) w.old.left) w.new.left result }
    ensures cost { steps.new + w.new.left ≡ steps.old + w.old.left }
{
    let depth_left = deeper(depth_left)?;
    let BranchIds::Item(names, body, rest) = bs else {
        return Ok(());
    };
    let Some(ty) = constructor_type_at(family, k) else {
        return Ok(());
    };
    infer_branch(
        i, alloc, w, scope, family, r, k, ty, names, *body, depth_left, steps,
    )?;
    let next = k.checked_add(1).ok_or(OutOfMemory)?;
    infer_branches(i, alloc, w, scope, family, r, next, rest, depth_left, steps)
}

/// Checks the branch for constructor `k`, which has the type `ty`. Recurses at most `depth_left`
/// levels.
#[cycle(infer)]
#[tactic(auto, using(crate::proofs::Held::infer_held, crate::proofs::Branching::one_branch_rules))]
fn infer_branch<C: Convert, W: Whd, L: Ledger>(
    i: &Inferrer<C, W>,
    alloc: Global,
    w: &mut Work<'_>,
    scope: &Scope<'_>,
    family: &Family<'_>,
    r: TermId,
    k: usize,
    ty: TermId,
    names: &Names,
    body: TermId,
    depth_left: usize,
    steps: &mut Steps<L>,
) -> Result<(), Stop>
    requires family { FamilyBelow (length w.old.pool.now) family.now }
    requires function { r.at < length w.old.pool.now }
    requires ty { ty.at < length w.old.pool.now }
    requires body { body.at < length w.old.pool.now }
    requires scope_held { ScopeBelow (length w.old.pool.now) scope.now }
    requires env_held { EnvBelow (length w.old.pool.now) w.old.env.now }
    requires store_held { StoreBelow (length w.old.pool.now) w.old.store.now }
    ensures same_pool { w.new.pool.ghost_name ≡ w.old.pool.ghost_name }
    ensures env { w.new.env ≡ w.old.env }
    ensures store { w.new.store ≡ w.old.store }
    ensures kept { Kept w.old.pool.now w.new.pool.now }
    ensures outcome { Answers (λ a. a) (branch_fits (environment_in w.old.pool.now w.old.env.now) (store_in w.old.pool.now w.old.store.now) (scope_in w.old.pool.now scope.now) (family_held w.old.pool.now family.now) (tree_at w.old.pool.now r) k (tree_at w.old.pool.now ty) names.now (tree_at w.old.pool.now body) w.old.left) w.new.left result }
    ensures cost { steps.new + w.new.left ≡ steps.old + w.old.left }
{
    let depth_left = deeper(depth_left)?;
    let Some(goal) = branch_goal(w.pool, alloc, family, k, ty, r, names, depth_left)? else {
        return Err(Stop::Refused(Refusal::BadElimination));
    };
    check_branch(
        i, alloc, w, scope, goal.own, names, 0, body, goal.ty, depth_left, steps,
    )
}

/// Checks a branch's body against its type, in the context of the constructor's arguments by the
/// names from `at` on. Recurses at most `depth_left` levels.
#[cycle(infer)]
#[tactic(auto, using(crate::proofs::Held::infer_held, crate::proofs::Branching::branch_rules))]
fn check_branch<C: Convert, W: Whd, L: Ledger>(
    i: &Inferrer<C, W>,
    alloc: Global,
    w: &mut Work<'_>,
    scope: &Scope<'_>,
    own: TermId,
    names: &Names,
    at: usize,
    body: TermId,
    ty: TermId,
    depth_left: usize,
    steps: &mut Steps<L>,
) -> Result<(), Stop>
    requires own { own.at < length w.old.pool.now }
    requires body { body.at < length w.old.pool.now }
    requires ty { ty.at < length w.old.pool.now }
    requires scope_held { ScopeBelow (length w.old.pool.now) scope.now }
    requires env_held { EnvBelow (length w.old.pool.now) w.old.env.now }
    requires store_held { StoreBelow (length w.old.pool.now) w.old.store.now }
    ensures same_pool { w.new.pool.ghost_name ≡ w.old.pool.ghost_name }
    ensures env { w.new.env ≡ w.old.env }
    ensures store { w.new.store ≡ w.old.store }
    ensures kept { Kept w.old.pool.now w.new.pool.now }
    ensures outcome { Answers (λ a. a) (fits (environment_in w.old.pool.now w.old.env.now) (store_in w.old.pool.now w.old.store.now) (branch_context (scope_in w.old.pool.now scope.now) (tree_at w.old.pool.now own) (drop at names.now)) (tree_at w.old.pool.now body) (tree_at w.old.pool.now ty) w.old.left) w.new.left result }
    ensures cost { steps.new + w.new.left ≡ steps.old + w.old.left }
{
    let depth_left = deeper(depth_left)?;
    match names.get(at) {
        None => check_fit(i, alloc, w, scope, body, ty, depth_left, steps),
        Some(name) => match w.pool.node(own) {
            Node::Prod(_, domain, codomain) => {
                let domain = *domain;
                let codomain = *codomain;
                let next = at.checked_add(1).ok_or(OutOfMemory)?;
                let inner = Scope::More(name, domain, &*scope);
                check_branch(
                    i, alloc, w, &inner, codomain, names, next, body, ty, depth_left, steps,
                )
            }
            Node::Var(_)
            | Node::Sort(_)
            | Node::Lam(..)
            | Node::App(..)
            | Node::Const(_)
            | Node::Ind(_)
            | Node::Con(..)
            | Node::Match(..)
            | Node::Meta(..) => check_fit(i, alloc, w, scope, body, ty, depth_left, steps),
        },
    }
}

/// Checks that the type of a term is at most a type. Recurses at most `depth_left` levels.
#[cycle(infer)]
#[tactic(auto, using(crate::proofs::Held::infer_held, crate::proofs::Branching::fits_rules))]
pub fn check_fit<C: Convert, W: Whd, L: Ledger>(
    i: &Inferrer<C, W>,
    alloc: Global,
    w: &mut Work<'_>,
    scope: &Scope<'_>,
    t: TermId,
    ty: TermId,
    depth_left: usize,
    steps: &mut Steps<L>,
) -> Result<(), Stop>
    requires held { t.at < length w.old.pool.now }
    requires ty { ty.at < length w.old.pool.now }
    requires scope_held { ScopeBelow (length w.old.pool.now) scope.now }
    requires env_held { EnvBelow (length w.old.pool.now) w.old.env.now }
    requires store_held { StoreBelow (length w.old.pool.now) w.old.store.now }
    ensures same_pool { w.new.pool.ghost_name ≡ w.old.pool.ghost_name }
    ensures env { w.new.env ≡ w.old.env }
    ensures store { w.new.store ≡ w.old.store }
    ensures kept { Kept w.old.pool.now w.new.pool.now }
    ensures outcome { Answers (λ a. a) (fits (environment_in w.old.pool.now w.old.env.now) (store_in w.old.pool.now w.old.store.now) (scope_in w.old.pool.now scope.now) (tree_at w.old.pool.now t) (tree_at w.old.pool.now ty) w.old.left) w.new.left result }
    ensures cost { steps.new + w.new.left ≡ steps.old + w.old.left }
{
    let depth_left = deeper(depth_left)?;
    let inferred = infer(i, alloc, w, scope, t, depth_left, steps)?;
    agree(i, alloc, w, scope, Mode::AtMost, inferred, ty, steps)
}
