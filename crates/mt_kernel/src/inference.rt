// The inference of types.
ghost use Rattle.std.specs.Prelude.{◌≡◌, ◌+◌, IfOk, drop};
ghost use Rattle.mt_rules.specs.Answers.{Answers};
ghost use Rattle.mt_kernel.specs.Arguments.{tree_in};
ghost use Rattle.mt_kernel.specs.Contexts.{hypotheses_of};
ghost use Rattle.mt_kernel.specs.Families.{family_held};
ghost use Rattle.mt_kernel.specs.Fitting.{branch_fits, fits, match_type};
ghost use Rattle.mt_kernel.specs.Forms.{held};
ghost use Rattle.mt_term.specs.ConstructorOf.{seen_constructor};
ghost use Rattle.mt_term.specs.EntryOf.{seen_declaration};
ghost use Rattle.mt_term.specs.EnvironmentOf.{environment_of};
ghost use Rattle.mt_rules.specs.Inference.{branch_context, constant_type, constructor_type, elimination, inductive_type, infer, infer_arms, product_of, sort_of, type_head};
ghost use Rattle.mt_term.specs.Stores.{no_store};
ghost use Rattle.mt_term.specs.TreeOf.{arms_of, tree_of, trees_of};
ghost use Rattle.mt_term.specs.Trees.{App, Con, Const, Ind, Lam, Match, Prod, Sort as SortTree, Var};

use crate::branches::{branch_goal, has_branches, motive_on_all};
use crate::charges::charge;
use crate::contexts::{Context, type_at};
use crate::elimination::elimination_sort;
use crate::expected::{Product, agree, as_product, as_sort};
use crate::families::{Family, apply_all, family_numbered};
use crate::matching::constructor_at;
use crate::reduction::whd;
use crate::sorts::{sort_above, sort_of_product};
use mt_term::{
    Branch, Branches, Constructor, Entry, Mode, Name, Names, OutOfMemory, PlainEnv, Refusal, Sort,
    Stop, Term, Terms, copy, deeper, substitute,
};
use mt_text::{Ledger, Steps};
use std::alloc::Global;

/// The type of a term, one charge for each term in it. Recurses at most `depth_left` levels.
#[cycle(infer)]
#[tactic(auto, using(crate::proofs::Inferring::inference_rules))]
pub fn infer<L: Ledger>(
    alloc: Global,
    env: &PlainEnv,
    context: &Context<'_>,
    t: &Term,
    left: &mut u64,
    depth_left: usize,
    steps: &mut Steps<L>,
) -> Result<Term, Stop>
    ensures answer { Answers tree_of (infer (environment_of env.now) no_store (hypotheses_of context.now) (tree_of t.now) left.old) left.new result }
    ensures cost { steps.new + left.new ≡ steps.old + left.old }
{
    let _left = *left;
    let depth_left = deeper(depth_left)?;
    match t {
        Term::Var(i) => infer_variable(alloc, env, context, *i, left, steps),
        Term::Sort(s) => infer_sort(alloc, env, context, s, left, steps),
        Term::Prod(x, a, b) => infer_product(alloc, env, context, x, a, b, left, depth_left, steps),
        Term::Lam(x, a, b) => infer_abstraction(
            alloc, env, context, x, a, b, left, depth_left, steps,
        ),
        Term::App(f, a) => infer_application(alloc, env, context, f, a, left, depth_left, steps),
        Term::Const(n) => infer_constant(alloc, env, context, *n, left, steps),
        Term::Ind(e) => infer_inductive(alloc, env, context, *e, left, steps),
        Term::Con(e, k) => infer_constructor(alloc, env, context, *e, *k, left, steps),
        Term::Match(number, returns, c, branches) => infer_match(
            alloc, env, context, *number, returns, c, branches, left, depth_left, steps,
        ),
        Term::Meta(..) => {
            // there is no metavariable
            charge(left, steps)?;
            Err(Stop::Refused(Refusal::Unbound(Name::new(alloc))))
        }
    }
}

/// The type of a variable.
#[inline(never)]
#[tactic(auto, using(crate::proofs::Inferring::inference_rules))]
fn infer_variable<L: Ledger>(
    alloc: Global,
    env: &PlainEnv,
    context: &Context<'_>,
    i: usize,
    left: &mut u64,
    steps: &mut Steps<L>,
) -> Result<Term, Stop>
    ensures answer { Answers tree_of (infer (environment_of env.now) no_store (hypotheses_of context.now) (Var i) left.old) left.new result }
    ensures cost { steps.new + left.new ≡ steps.old + left.old }
{
    let _left = *left;
    charge(left, steps)?;
    match type_at(alloc, context, i)? {
        Some(ty) => Ok(ty),
        None => Err(Stop::Refused(Refusal::Unbound(Name::new(alloc)))),
    }
}

/// The sort of a sort.
#[inline(never)]
#[tactic(auto, using(crate::proofs::Inferring::inference_rules))]
fn infer_sort<L: Ledger>(
    alloc: Global,
    env: &PlainEnv,
    context: &Context<'_>,
    s: &Sort,
    left: &mut u64,
    steps: &mut Steps<L>,
) -> Result<Term, Stop>
    ensures answer { Answers tree_of (infer (environment_of env.now) no_store (hypotheses_of context.now) (SortTree s.now) left.old) left.new result }
    ensures cost { steps.new + left.new ≡ steps.old + left.old }
{
    let _left = *left;
    charge(left, steps)?;
    match sort_above(alloc, s)? {
        Some(above) => Ok(Term::Sort(above)),
        None => Err(Stop::Refused(Refusal::NotASort)),
    }
}

/// The type of a constant.
#[inline(never)]
#[tactic(auto, using(crate::proofs::Inferring::inference_rules))]
fn infer_constant<L: Ledger>(
    alloc: Global,
    env: &PlainEnv,
    context: &Context<'_>,
    n: usize,
    left: &mut u64,
    steps: &mut Steps<L>,
) -> Result<Term, Stop>
    ensures answer { Answers tree_of (infer (environment_of env.now) no_store (hypotheses_of context.now) (Const n) left.old) left.new result }
    ensures cost { steps.new + left.new ≡ steps.old + left.old }
{
    let _left = *left;
    charge(left, steps)?;
    match constant_type(alloc, env.entries.get(n))? {
        Some(ty) => Ok(ty),
        None => Err(Stop::Refused(Refusal::Unbound(Name::new(alloc)))),
    }
}

/// The type of an inductive type.
#[inline(never)]
#[tactic(auto, using(crate::proofs::Inferring::inference_rules))]
fn infer_inductive<L: Ledger>(
    alloc: Global,
    env: &PlainEnv,
    context: &Context<'_>,
    e: usize,
    left: &mut u64,
    steps: &mut Steps<L>,
) -> Result<Term, Stop>
    ensures answer { Answers tree_of (infer (environment_of env.now) no_store (hypotheses_of context.now) (Ind e) left.old) left.new result }
    ensures cost { steps.new + left.new ≡ steps.old + left.old }
{
    let _left = *left;
    charge(left, steps)?;
    match inductive_type(alloc, env.entries.get(e))? {
        Some(ty) => Ok(ty),
        None => Err(Stop::Refused(Refusal::Unbound(Name::new(alloc)))),
    }
}

/// The type of a constructor.
#[inline(never)]
#[tactic(auto, using(crate::proofs::Inferring::inference_rules))]
fn infer_constructor<L: Ledger>(
    alloc: Global,
    env: &PlainEnv,
    context: &Context<'_>,
    e: usize,
    k: usize,
    left: &mut u64,
    steps: &mut Steps<L>,
) -> Result<Term, Stop>
    ensures answer { Answers tree_of (infer (environment_of env.now) no_store (hypotheses_of context.now) (Con e k) left.old) left.new result }
    ensures cost { steps.new + left.new ≡ steps.old + left.old }
{
    let _left = *left;
    charge(left, steps)?;
    match constructor_type(alloc, constructor_at(&env.entries, e, k))? {
        Some(ty) => Ok(ty),
        None => Err(Stop::Refused(Refusal::Unbound(Name::new(alloc)))),
    }
}

/// The sort of a product.
#[cycle(infer)]
#[inline(never)]
#[tactic(auto, using(crate::proofs::Inferring::inference_rules))]
fn infer_product<L: Ledger>(
    alloc: Global,
    env: &PlainEnv,
    context: &Context<'_>,
    x: &Name,
    a: &Term,
    b: &Term,
    left: &mut u64,
    depth_left: usize,
    steps: &mut Steps<L>,
) -> Result<Term, Stop>
    ensures answer { Answers tree_of (infer (environment_of env.now) no_store (hypotheses_of context.now) (Prod x.now (tree_of a.now) (tree_of b.now)) left.old) left.new result }
    ensures cost { steps.new + left.new ≡ steps.old + left.old }
{
    let _left = *left;
    charge(left, steps)?;
    let s = sort_of(alloc, env, context, a, left, depth_left, steps)?;
    let inner = Context::More(x, a, &*context);
    let r = sort_of(alloc, env, &inner, b, left, depth_left, steps)?;
    Ok(Term::Sort(sort_of_product(alloc, s, r)?))
}

/// The type of an abstraction.
#[cycle(infer)]
#[inline(never)]
#[tactic(auto, using(crate::proofs::Inferring::inference_rules))]
fn infer_abstraction<L: Ledger>(
    alloc: Global,
    env: &PlainEnv,
    context: &Context<'_>,
    x: &Name,
    a: &Term,
    b: &Term,
    left: &mut u64,
    depth_left: usize,
    steps: &mut Steps<L>,
) -> Result<Term, Stop>
    ensures answer { Answers tree_of (infer (environment_of env.now) no_store (hypotheses_of context.now) (Lam x.now (tree_of a.now) (tree_of b.now)) left.old) left.new result }
    ensures cost { steps.new + left.new ≡ steps.old + left.old }
{
    let _left = *left;
    let depth_left = deeper(depth_left)?;
    charge(left, steps)?;
    sort_of(alloc, env, context, a, left, depth_left, steps)?;
    let inner = Context::More(x, a, &*context);
    let ty = infer(alloc, env, &inner, b, left, depth_left, steps)?;
    Ok(product_to(alloc, x, a, ty)?)
}

/// The type of an application.
#[cycle(infer)]
#[inline(never)]
#[tactic(auto, using(crate::proofs::Inferring::inference_rules))]
fn infer_application<L: Ledger>(
    alloc: Global,
    env: &PlainEnv,
    context: &Context<'_>,
    f: &Term,
    a: &Term,
    left: &mut u64,
    depth_left: usize,
    steps: &mut Steps<L>,
) -> Result<Term, Stop>
    ensures answer { Answers tree_of (infer (environment_of env.now) no_store (hypotheses_of context.now) (App (tree_of f.now) (tree_of a.now)) left.old) left.new result }
    ensures cost { steps.new + left.new ≡ steps.old + left.old }
{
    let _left = *left;
    charge(left, steps)?;
    let product = product_of(alloc, env, context, f, left, depth_left, steps)?;
    let ty = infer(alloc, env, context, a, left, depth_left, steps)?;
    let domain = &product.domain;
    agree(
        alloc,
        env,
        context,
        Mode::AtMost,
        ty,
        domain,
        left,
        depth_left,
        steps,
    )?;
    Ok(substitute(alloc, &product.codomain, 0, a)?)
}

/// The product of the type over which a term stands, and of that term's type.
fn product_to(
    alloc: Global,
    name: &Name,
    domain: &Term,
    codomain: Term,
) -> Result<Term, OutOfMemory>
    ensures { IfOk result (λ t. tree_of t ≡ Prod name.now (tree_of domain.now) (tree_of codomain)) }
{
    let name = name.clone()?;
    let domain = Box::new(alloc, copy(alloc, domain)?)?;
    let codomain = Box::new(alloc, codomain)?;
    Ok(Term::Prod(name, domain, codomain))
}

/// The type of a constant.
fn constant_type(alloc: Global, entry: Option<&Entry>) -> Result<Option<Term>, OutOfMemory>
    ensures { IfOk result (λ o. tree_in o ≡ constant_type (seen_declaration entry.entry)) }
{
    match entry {
        None | Some(Entry::Inductive { .. }) => Ok(None),
        Some(Entry::Axiom { ty, .. }) => Ok(Some(copy(alloc, ty)?)),
        Some(Entry::Definition { ty, .. }) => Ok(Some(copy(alloc, ty)?)),
        Some(Entry::Recursive { ty, .. }) => Ok(Some(copy(alloc, ty)?)),
    }
}

/// The type of an inductive type.
fn inductive_type(alloc: Global, entry: Option<&Entry>) -> Result<Option<Term>, OutOfMemory>
    ensures { IfOk result (λ o. tree_in o ≡ inductive_type (seen_declaration entry.entry)) }
{
    match entry {
        Some(Entry::Inductive { ty, .. }) => Ok(Some(copy(alloc, ty)?)),
        None
        | Some(Entry::Axiom { .. })
        | Some(Entry::Definition { .. })
        | Some(Entry::Recursive { .. }) => Ok(None),
    }
}

/// The type of a constructor.
fn constructor_type(
    alloc: Global,
    constructor: Option<&Constructor>,
) -> Result<Option<Term>, OutOfMemory>
    ensures { IfOk result (λ o. tree_in o ≡ constructor_type (seen_constructor constructor.entry)) }
{
    match constructor {
        None => Ok(None),
        Some(c) => Ok(Some(copy(alloc, &c.ty)?)),
    }
}

/// The sort of a term: its type's weak head, which has to be one.
#[cycle(infer)]
#[tactic(auto, using(mt_rules_laws::proofs::InferenceRules::sort_of_rules))]
pub fn sort_of<L: Ledger>(
    alloc: Global,
    env: &PlainEnv,
    context: &Context<'_>,
    t: &Term,
    left: &mut u64,
    depth_left: usize,
    steps: &mut Steps<L>,
) -> Result<Sort, Stop>
    ensures answer { Answers (λ s. s) (sort_of (environment_of env.now) no_store (hypotheses_of context.now) (tree_of t.now) left.old) left.new result }
    ensures cost { steps.new + left.new ≡ steps.old + left.old }
{
    let _left = *left;
    let depth_left = deeper(depth_left)?;
    let ty = infer(alloc, env, context, t, left, depth_left, steps)?;
    as_sort(alloc, env, ty, left, depth_left, steps)
}

#[cycle(infer)]
#[tactic(auto, using(mt_rules_laws::proofs::InferenceRules::product_of_rules))]
fn product_of<L: Ledger>(
    alloc: Global,
    env: &PlainEnv,
    context: &Context<'_>,
    t: &Term,
    left: &mut u64,
    depth_left: usize,
    steps: &mut Steps<L>,
) -> Result<Product, Stop>
    ensures answer { Answers held (product_of (environment_of env.now) no_store (hypotheses_of context.now) (tree_of t.now) left.old) left.new result }
    ensures cost { steps.new + left.new ≡ steps.old + left.old }
{
    let _left = *left;
    let depth_left = deeper(depth_left)?;
    let ty = infer(alloc, env, context, t, left, depth_left, steps)?;
    as_product(alloc, env, ty, left, depth_left, steps)
}

/// The weak head of a term's type.
#[cycle(infer)]
#[tactic(auto, using(mt_rules_laws::proofs::InferenceRules::type_head_rules))]
fn type_head<L: Ledger>(
    alloc: Global,
    env: &PlainEnv,
    context: &Context<'_>,
    t: &Term,
    left: &mut u64,
    depth_left: usize,
    steps: &mut Steps<L>,
) -> Result<Term, Stop>
    ensures answer { Answers tree_of (type_head (environment_of env.now) no_store (hypotheses_of context.now) (tree_of t.now) left.old) left.new result }
    ensures cost { steps.new + left.new ≡ steps.old + left.old }
{
    let _left = *left;
    let depth_left = deeper(depth_left)?;
    let ty = infer(alloc, env, context, t, left, depth_left, steps)?;
    whd(alloc, env, ty, left, depth_left, steps)
}

/// The type of a match, with its own charge.
#[cycle(infer)]
#[tactic(auto, using(crate::proofs::Matches::infer_match_rules))]
fn infer_match<L: Ledger>(
    alloc: Global,
    env: &PlainEnv,
    context: &Context<'_>,
    number: usize,
    returns: &Term,
    c: &Term,
    branches: &Branches,
    left: &mut u64,
    depth_left: usize,
    steps: &mut Steps<L>,
) -> Result<Term, Stop>
    ensures answer { Answers tree_of (infer (environment_of env.now) no_store (hypotheses_of context.now) (Match number (tree_of returns.now) (tree_of c.now) (arms_of branches.now)) left.old) left.new result }
    ensures cost { steps.new + left.new ≡ steps.old + left.old }
{
    let _left = *left;
    let depth_left = deeper(depth_left)?;
    charge(left, steps)?;
    let head = type_head(alloc, env, context, c, left, depth_left, steps)?;
    let Some(family) = family_numbered(alloc, &env.entries, number, &head, depth_left)? else {
        return Err(Stop::Refused(Refusal::BadElimination));
    };
    match_type(
        alloc, env, context, &family, returns, c, branches, left, depth_left, steps,
    )
}

/// The type of a match on a term of an inductive type.
#[cycle(infer)]
#[tactic(auto, using(crate::proofs::Matches::match_type_rules))]
fn match_type<L: Ledger>(
    alloc: Global,
    env: &PlainEnv,
    context: &Context<'_>,
    family: &Family<'_>,
    returns: &Term,
    c: &Term,
    branches: &Branches,
    left: &mut u64,
    depth_left: usize,
    steps: &mut Steps<L>,
) -> Result<Term, Stop>
    ensures answer { Answers tree_of (match_type (environment_of env.now) (hypotheses_of context.now) (family_held family.now) (tree_of returns.now) (tree_of c.now) (arms_of branches.now) left.old) left.new result }
    ensures cost { steps.new + left.new ≡ steps.old + left.old }
{
    let _left = *left;
    let depth_left = deeper(depth_left)?;
    elimination(
        alloc, env, context, family, returns, left, depth_left, steps,
    )?;
    if !has_branches(&family.params, family.constructors, branches, depth_left)? {
        return Err(Stop::Refused(Refusal::BadElimination));
    }
    infer_branches(
        alloc, env, context, family, returns, 0, branches, left, depth_left, steps,
    )?;
    Ok(motive_on_all(alloc, copy(alloc, returns)?, &family.indices, c, depth_left)?)
}

/// The sort that a motive answers in.
#[cycle(infer)]
#[tactic(auto, using(crate::proofs::Matches::elimination_rules))]
fn elimination<L: Ledger>(
    alloc: Global,
    env: &PlainEnv,
    context: &Context<'_>,
    family: &Family<'_>,
    returns: &Term,
    left: &mut u64,
    depth_left: usize,
    steps: &mut Steps<L>,
) -> Result<Sort, Stop>
    ensures answer { Answers (λ s. s) (elimination (environment_of env.now) no_store (hypotheses_of context.now) (family_held family.now) (tree_of returns.now) left.old) left.new result }
    ensures cost { steps.new + left.new ≡ steps.old + left.old }
{
    let _left = *left;
    let depth_left = deeper(depth_left)?;
    let ty = infer(alloc, env, context, returns, left, depth_left, steps)?;
    let on_params = apply_all(alloc, Term::Ind(family.number), &family.params, depth_left)?;
    elimination_sort(
        alloc,
        env,
        context,
        family.large,
        &family.arity,
        &on_params,
        ty,
        left,
        depth_left,
        steps,
    )
}

/// Checks the branches for the constructors from number `k` on.
#[cycle(infer)]
#[tactic(auto, using(crate::proofs::Branching::arms_rules))]
fn infer_branches<L: Ledger>(
    alloc: Global,
    env: &PlainEnv,
    context: &Context<'_>,
    family: &Family<'_>,
    returns: &Term,
    k: usize,
    branches: &Branches,
    left: &mut u64,
    depth_left: usize,
    steps: &mut Steps<L>,
) -> Result<(), Stop>
    ensures answer { Answers (λ a. a) (infer_arms (environment_of env.now) no_store (hypotheses_of context.now) (family_held family.now) (tree_of returns.now) k (drop k family.now.constructors.now) (arms_of branches.now) left.old) left.new result }
    ensures cost { steps.new + left.new ≡ steps.old + left.old }
{
    let _left = *left;
    let depth_left = deeper(depth_left)?;
    let Branches::Item(branch, rest) = branches else {
        return Ok(());
    };
    let Some(constructor) = family.constructors.get(k) else {
        return Ok(());
    };
    infer_branch(
        alloc,
        env,
        context,
        family.number,
        &family.params,
        returns,
        k,
        &constructor.ty,
        branch,
        left,
        depth_left,
        steps,
    )?;
    let next = k.checked_add(1).ok_or(OutOfMemory)?;
    infer_branches(
        alloc, env, context, family, returns, next, rest, left, depth_left, steps,
    )
}

/// Checks the branch for constructor `k`, which has the type `ty`.
#[cycle(infer)]
#[tactic(auto, using(crate::proofs::Branching::one_branch_rules))]
fn infer_branch<L: Ledger>(
    alloc: Global,
    env: &PlainEnv,
    context: &Context<'_>,
    number: usize,
    params: &Terms,
    returns: &Term,
    k: usize,
    ty: &Term,
    branch: &Branch,
    left: &mut u64,
    depth_left: usize,
    steps: &mut Steps<L>,
) -> Result<(), Stop>
    ensures answer { Answers (λ a. a) (branch_fits (environment_of env.now) (hypotheses_of context.now) number (trees_of params.now) (tree_of returns.now) k (tree_of ty.now) branch.now.names (tree_of branch.now.body) left.old) left.new result }
    ensures cost { steps.new + left.new ≡ steps.old + left.old }
{
    let _left = *left;
    let depth_left = deeper(depth_left)?;
    let names = &branch.names;
    let Some(goal) = branch_goal(alloc, number, params, k, ty, returns, names, depth_left)? else {
        return Err(Stop::Refused(Refusal::BadElimination));
    };
    check_branch(
        alloc,
        env,
        context,
        &goal.own,
        names,
        0,
        &branch.body,
        &goal.ty,
        left,
        depth_left,
        steps,
    )
}

/// Checks a branch's body against its type, in the context of the constructor's arguments by the
/// names from `at` on.
#[cycle(infer)]
#[tactic(auto, using(crate::proofs::Branching::branch_rules))]
fn check_branch<L: Ledger>(
    alloc: Global,
    env: &PlainEnv,
    context: &Context<'_>,
    own: &Term,
    names: &Names,
    at: usize,
    body: &Term,
    ty: &Term,
    left: &mut u64,
    depth_left: usize,
    steps: &mut Steps<L>,
) -> Result<(), Stop>
    ensures answer { Answers (λ a. a) (fits (environment_of env.now) (branch_context (hypotheses_of context.now) (tree_of own.now) (drop at names.now)) (tree_of body.now) (tree_of ty.now) left.old) left.new result }
    ensures cost { steps.new + left.new ≡ steps.old + left.old }
{
    let _left = *left;
    let depth_left = deeper(depth_left)?;
    match names.get(at) {
        None => check_fit(alloc, env, context, body, ty, left, depth_left, steps),
        Some(name) => match own {
            Term::Prod(_, domain, codomain) => {
                let next = at.checked_add(1).ok_or(OutOfMemory)?;
                let inner = Context::More(name, &*domain, &*context);
                check_branch(
                    alloc, env, &inner, codomain, names, next, body, ty, left, depth_left, steps,
                )
            }
            _ => check_fit(alloc, env, context, body, ty, left, depth_left, steps),
        },
    }
}

/// Checks that the type of a term is at most a type.
#[cycle(infer)]
#[tactic(auto, using(crate::proofs::Branching::fits_rules))]
fn check_fit<L: Ledger>(
    alloc: Global,
    env: &PlainEnv,
    context: &Context<'_>,
    t: &Term,
    ty: &Term,
    left: &mut u64,
    depth_left: usize,
    steps: &mut Steps<L>,
) -> Result<(), Stop>
    ensures answer { Answers (λ a. a) (fits (environment_of env.now) (hypotheses_of context.now) (tree_of t.now) (tree_of ty.now) left.old) left.new result }
    ensures cost { steps.new + left.new ≡ steps.old + left.old }
{
    let _left = *left;
    let depth_left = deeper(depth_left)?;
    let inferred = infer(alloc, env, context, t, left, depth_left, steps)?;
    agree(
        alloc,
        env,
        context,
        Mode::AtMost,
        inferred,
        ty,
        left,
        depth_left,
        steps,
    )
}
