//! The kernel: it checks closed terms on plain trees, and shares no code with the layers that find
//! them.
#![tactic(auto)]

ghost use Rattle.std.specs.Prelude.{◌≡◌, ◌+◌, ◌≤◌, [], IfOk, OnErr, OnOk};
ghost use Rattle.mt_kernel.specs.Answers.{IsYes, answer_of, charge_of, verdict_of};
ghost use Rattle.mt_rules.specs.Answers.{Answers};
ghost use Rattle.mt_kernel.specs.Derived.{IsTermDerived, IsTypeDerived};
ghost use Rattle.mt_term.specs.EnvironmentOf.{environment_of};
ghost use Rattle.mt_rules.specs.KernelCheck.{check, check_type};
ghost use Rattle.mt_term.specs.TreeOf.{tree_of};

mod arguments;
mod branches;
mod charges;
mod comparison;
mod contexts;
mod elimination;
mod expected;
mod families;
mod inference;
mod matching;
mod order;
mod reduction;
mod sorts;

use crate::contexts::Context;
use crate::expected::agree;
use crate::inference::{infer, sort_of};
use mt_term::{MAX_DEPTH, Mode, OutOfMemory, PlainEnv, Refusal, Sort, Stop, Term};
use mt_text::{Ledger, Steps};
use std::alloc::Global;

/// What the kernel says of a term.
#[derive(Drop)]
pub enum Verdict {
    /// It passes, and the check took so many steps.
    Yes { cost: u64 },
    /// It does not pass.
    No { reason: Refusal },
    /// The allowance did not suffice to say.
    Spent,
}

/// Whether `term` has the type `ty`, which must be a type. Each step is counted.
///
/// # Errors
///
/// `OutOfMemory` where memory is wanting; at most the steps of the whole check are counted then.
#[tactic(auto, using(crate::proofs::Verdicts::verdict_rules))]
pub fn check<L: Ledger>(
    alloc: Global,
    env: &PlainEnv,
    term: &Term,
    ty: &Term,
    allowance: u64,
    steps: &mut Steps<L>,
) -> Result<Verdict, OutOfMemory>
    ensures verdict { let outcome = check (environment_of env.now) (tree_of term.now) (tree_of ty.now) allowance in
        IfOk result (λ v. answer_of v ≡ verdict_of allowance outcome) }
    ensures typed { IfOk result (λ v. IsYes v → IsTermDerived (environment_of env.now) (tree_of term.now) (tree_of ty.now)) }
    ensures cost { let outcome = check (environment_of env.now) (tree_of term.now) (tree_of ty.now) allowance in
        OnOk result (steps.new ≡ steps.old + charge_of allowance outcome) }
    ensures wanting { let outcome = check (environment_of env.now) (tree_of term.now) (tree_of ty.now) allowance in
        OnErr result (steps.new ≤ steps.old + charge_of allowance outcome) }
{
    let mut left = allowance;
    match check_term(alloc, env, term, ty, &mut left, steps) {
        Ok(()) => Ok(Verdict::Yes {
            cost: allowance - left,
        }),
        Err(Stop::Refused(reason)) => Ok(Verdict::No { reason }),
        Err(Stop::Spent) => Ok(Verdict::Spent),
        Err(Stop::OutOfMemory) => Err(OutOfMemory),
    }
}

/// Whether `ty` is a type. Each step is counted.
///
/// # Errors
///
/// `OutOfMemory` where memory is wanting; at most the steps of the whole check are counted then.
#[tactic(auto, using(crate::proofs::Verdicts::verdict_rules))]
pub fn check_type<L: Ledger>(
    alloc: Global,
    env: &PlainEnv,
    ty: &Term,
    allowance: u64,
    steps: &mut Steps<L>,
) -> Result<Verdict, OutOfMemory>
    ensures verdict { let outcome = check_type (environment_of env.now) (tree_of ty.now) allowance in
        IfOk result (λ v. answer_of v ≡ verdict_of allowance outcome) }
    ensures typed { IfOk result (λ v. IsYes v → IsTypeDerived (environment_of env.now) (tree_of ty.now)) }
    ensures cost { let outcome = check_type (environment_of env.now) (tree_of ty.now) allowance in
        OnOk result (steps.new ≡ steps.old + charge_of allowance outcome) }
    ensures wanting { let outcome = check_type (environment_of env.now) (tree_of ty.now) allowance in
        OnErr result (steps.new ≤ steps.old + charge_of allowance outcome) }
{
    let mut left = allowance;
    match check_sort(alloc, env, ty, &mut left, steps) {
        Ok(_) => Ok(Verdict::Yes {
            cost: allowance - left,
        }),
        Err(Stop::Refused(reason)) => Ok(Verdict::No { reason }),
        Err(Stop::Spent) => Ok(Verdict::Spent),
        Err(Stop::OutOfMemory) => Err(OutOfMemory),
    }
}

/// Whether `term` has the type `ty`, with what is left of an allowance, also after a No.
///
/// # Errors
///
/// `Refused` where the kernel says No, and `Spent` where the allowance does not suffice to say.
#[tactic(auto, using(mt_rules_laws::proofs::InferenceRules::check_rules))]
pub fn check_term<L: Ledger>(
    alloc: Global,
    env: &PlainEnv,
    term: &Term,
    ty: &Term,
    left: &mut u64,
    steps: &mut Steps<L>,
) -> Result<(), Stop>
    ensures answer { Answers (λ a. a) (check (environment_of env.now) (tree_of term.now) (tree_of ty.now) left.old) left.new result }
    ensures cost { steps.new + left.new ≡ steps.old + left.old }
{
    check_sort(alloc, env, ty, left, steps)?;
    let found = infer(alloc, env, &Context::Empty, term, left, MAX_DEPTH, steps)?;
    agree(
        alloc,
        env,
        &Context::Empty,
        Mode::AtMost,
        found,
        ty,
        left,
        MAX_DEPTH,
        steps,
    )
}

/// The sort of a type, with what is left of an allowance, also after a No.
///
/// # Errors
///
/// `Refused` where the kernel says No, and `Spent` where the allowance does not suffice to say.
#[tactic(auto, using(mt_rules_laws::proofs::InferenceRules::check_rules))]
pub fn check_sort<L: Ledger>(
    alloc: Global,
    env: &PlainEnv,
    ty: &Term,
    left: &mut u64,
    steps: &mut Steps<L>,
) -> Result<Sort, Stop>
    ensures answer { Answers (λ s. s) (check_type (environment_of env.now) (tree_of ty.now) left.old) left.new result }
    ensures cost { steps.new + left.new ≡ steps.old + left.old }
{
    sort_of(alloc, env, &Context::Empty, ty, left, MAX_DEPTH, steps)
}
