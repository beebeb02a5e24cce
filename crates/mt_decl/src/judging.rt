// What the kernel says of a unit's closed terms; its No is refused at the unit's start.
ghost use Rattle.std.specs.Prelude.{◌≡◌, ◌+◌};
ghost use Rattle.mt_decl.specs.Declares.{Declares};
ghost use Rattle.mt_decl.specs.Judging.{type_judged, term_judged};
ghost use Rattle.mt_term.specs.EnvironmentOf.{environment_of};
ghost use Rattle.mt_term.specs.TreeOf.{tree_of};

use mt_kernel::{check_sort, check_term};
use mt_term::{Fault, Halt, PlainEnv, Refusal, Sort, Stop, Term};
use mt_text::{Ledger, Steps};
use std::alloc::Global;

/// The sort of a closed type.
///
/// # Errors
///
/// `KernelRefused` where the kernel says No.
#[tactic(auto, using(crate::proofs::JudgingRules::judging_rules))]
pub fn judge_type<L: Ledger>(
    alloc: Global,
    env: &PlainEnv,
    start: usize,
    ty: &Term,
    left: &mut u64,
    steps: &mut Steps<L>,
) -> Result<Sort, Halt>
    ensures answer { Declares (λ s. s) (type_judged (environment_of env.now) start (tree_of ty.now) left.old) left.new result }
    ensures cost { steps.new + left.new ≡ steps.old + left.old }
{
    match check_sort(alloc, env, ty, left, steps) {
        Ok(sort) => Ok(sort),
        Err(Stop::Refused(reason)) => Err(Halt::Refused(Fault {
            refusal: Refusal::KernelRefused(reason.number()),
            at: start,
        })),
        Err(Stop::Spent) => Err(Halt::Spent),
        Err(Stop::OutOfMemory) => Err(Halt::OutOfMemory),
    }
}

/// A closed term has this closed type.
///
/// # Errors
///
/// `KernelRefused` where the kernel says No.
#[tactic(auto, using(crate::proofs::JudgingRules::judging_rules))]
pub fn judge_term<L: Ledger>(
    alloc: Global,
    env: &PlainEnv,
    start: usize,
    term: &Term,
    ty: &Term,
    left: &mut u64,
    steps: &mut Steps<L>,
) -> Result<(), Halt>
    ensures answer { Declares (λ a. a) (term_judged (environment_of env.now) start (tree_of term.now) (tree_of ty.now) left.old) left.new result }
    ensures cost { steps.new + left.new ≡ steps.old + left.old }
{
    match check_term(alloc, env, term, ty, left, steps) {
        Ok(()) => Ok(()),
        Err(Stop::Refused(reason)) => Err(Halt::Refused(Fault {
            refusal: Refusal::KernelRefused(reason.number()),
            at: start,
        })),
        Err(Stop::Spent) => Err(Halt::Spent),
        Err(Stop::OutOfMemory) => Err(Halt::OutOfMemory),
    }
}
