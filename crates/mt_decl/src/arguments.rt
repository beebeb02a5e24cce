// The sorts of a constructor's arguments.
ghost use Rattle.std.specs.Prelude.{◌≡◌, ◌+◌};
ghost use Rattle.mt_decl.specs.Declares.{Declares};
ghost use Rattle.mt_decl.specs.Fitting.{accepting, all_fitting, checking, fitting, judging};
ghost use Rattle.mt_decl.specs.TelescopeOf.{hypotheses_of};
ghost use Rattle.mt_rules.specs.Answers.{Answers};
ghost use Rattle.mt_term.specs.EnvironmentOf.{environment_of};
ghost use Rattle.mt_decl.specs.Telescopes.{generalized};
ghost use Rattle.mt_term.specs.TreeOf.{tree_of};
ghost use Rattle.mt_term.specs.Trees.{Sort as SortTree};

use crate::telescopes::{Telescope, abstraction_over, generalization_over};
use mt_kernel::check_term;
use mt_term::{Fault, Halt, MAX_DEPTH, PlainEnv, Refusal, Sort, Stop, Term, copy, deeper};
use mt_text::{Ledger, Steps};
use std::alloc::Global;

// Whether the type of an argument has this sort under the telescope before it.
#[tactic(auto, using(crate::proofs::FittingRules::checking_rules))]
fn check_argument<L: Ledger>(
    alloc: Global,
    env: &PlainEnv,
    sort: &Sort,
    telescope: &Telescope<'_>,
    argument: &Term,
    left: &mut u64,
    steps: &mut Steps<L>,
) -> Result<(), Stop>
    ensures answer { Answers (λ a. a) (checking (environment_of env.now) sort.now (hypotheses_of telescope.now) (tree_of argument.now) left.old) left.new result }
    ensures cost { steps.new + left.new ≡ steps.old + left.old }
{
    let _left = *left;
    let ty = generalization_over(alloc, telescope, Term::Sort(sort.clone()?), MAX_DEPTH)?;
    check_against(alloc, env, sort, telescope, argument, &ty, left, steps)
}

// The same, where the product over the telescope into the sort is made.
#[tactic(auto, using(crate::proofs::FittingRules::checking_rules))]
fn check_against<L: Ledger>(
    alloc: Global,
    env: &PlainEnv,
    sort: &Sort,
    telescope: &Telescope<'_>,
    argument: &Term,
    ty: &Term,
    left: &mut u64,
    steps: &mut Steps<L>,
) -> Result<(), Stop>
    requires { tree_of ty.now ≡ generalized (hypotheses_of telescope.now) (SortTree sort.now) }
    ensures answer { Answers (λ a. a) (checking (environment_of env.now) sort.now (hypotheses_of telescope.now) (tree_of argument.now) left.old) left.new result }
    ensures cost { steps.new + left.new ≡ steps.old + left.old }
{
    let _left = *left;
    let _sort = sort;
    let term = abstraction_over(alloc, telescope, copy(alloc, argument)?, MAX_DEPTH)?;
    check_term(alloc, env, &term, ty, left, steps)
}

// The same, where the kernel's No is refused at a place.
#[tactic(auto, using(crate::proofs::FittingRules::judging_rules))]
fn judge_argument<L: Ledger>(
    alloc: Global,
    env: &PlainEnv,
    start: usize,
    sort: &Sort,
    telescope: &Telescope<'_>,
    argument: &Term,
    left: &mut u64,
    steps: &mut Steps<L>,
) -> Result<(), Halt>
    ensures answer { Declares (λ a. a) (judging (environment_of env.now) start sort.now (hypotheses_of telescope.now) (tree_of argument.now) left.old) left.new result }
    ensures cost { steps.new + left.new ≡ steps.old + left.old }
{
    match check_argument(alloc, env, sort, telescope, argument, left, steps) {
        Ok(()) => Ok(()),
        Err(Stop::Refused(reason)) => Err(Halt::Refused(Fault {
            refusal: Refusal::KernelRefused(reason.number()),
            at: start,
        })),
        Err(Stop::Spent) => Err(Halt::Spent),
        Err(Stop::OutOfMemory) => Err(Halt::OutOfMemory),
    }
}

// The same, where the kernel's No is an answer.
#[tactic(auto, using(crate::proofs::FittingRules::accepting_rules))]
fn is_argument_accepted<L: Ledger>(
    alloc: Global,
    env: &PlainEnv,
    sort: &Sort,
    telescope: &Telescope<'_>,
    argument: &Term,
    left: &mut u64,
    steps: &mut Steps<L>,
) -> Result<bool, Halt>
    ensures answer { Declares (λ b. b) (accepting (environment_of env.now) sort.now (hypotheses_of telescope.now) (tree_of argument.now) left.old) left.new result }
    ensures cost { steps.new + left.new ≡ steps.old + left.old }
{
    match check_argument(alloc, env, sort, telescope, argument, left, steps) {
        Ok(()) => Ok(true),
        Err(Stop::Refused(_)) => Ok(false),
        Err(Stop::Spent) => Err(Halt::Spent),
        Err(Stop::OutOfMemory) => Err(Halt::OutOfMemory),
    }
}

/// Each argument of a constructor, in order, has a type of this sort.
///
/// # Errors
///
/// `KernelRefused` at the unit's start where the kernel says No.
#[tactic(auto, using(crate::proofs::FittingRules::fitting_rules))]
pub fn arguments_fit<L: Ledger>(
    alloc: Global,
    env: &PlainEnv,
    start: usize,
    sort: &Sort,
    telescope: &Telescope<'_>,
    t: &Term,
    left: &mut u64,
    depth_left: usize,
    steps: &mut Steps<L>,
) -> Result<(), Halt>
    ensures answer { Declares (λ a. a) (fitting (environment_of env.now) start sort.now (hypotheses_of telescope.now) (tree_of t.now) left.old) left.new result }
    ensures cost { steps.new + left.new ≡ steps.old + left.old }
{
    let _left = *left;
    let depth_left = deeper(depth_left)?;
    match t {
        Term::Prod(x, a, b) => {
            judge_argument(alloc, env, start, sort, telescope, a, left, steps)?;
            let inner = Telescope::More(&*x, &*a, &*telescope);
            arguments_fit(alloc, env, start, sort, &inner, b, left, depth_left, steps)
        }
        Term::Var(_)
        | Term::Sort(_)
        | Term::Lam(_, _, _)
        | Term::App(_, _)
        | Term::Const(_)
        | Term::Ind(_)
        | Term::Con(_, _)
        | Term::Match(_, _, _, _)
        | Term::Meta(_, _) => Ok(()),
    }
}

/// Whether each argument of a constructor, in order, has a type of this sort. All are looked at,
/// also after a No.
#[tactic(auto, using(crate::proofs::FittingRules::all_rules))]
pub fn do_arguments_fit<L: Ledger>(
    alloc: Global,
    env: &PlainEnv,
    sort: &Sort,
    telescope: &Telescope<'_>,
    t: &Term,
    left: &mut u64,
    depth_left: usize,
    steps: &mut Steps<L>,
) -> Result<bool, Halt>
    ensures answer { Declares (λ b. b) (all_fitting (environment_of env.now) sort.now (hypotheses_of telescope.now) (tree_of t.now) left.old) left.new result }
    ensures cost { steps.new + left.new ≡ steps.old + left.old }
{
    let _left = *left;
    let depth_left = deeper(depth_left)?;
    match t {
        Term::Prod(x, a, b) => {
            let first = is_argument_accepted(alloc, env, sort, telescope, a, left, steps)?;
            let inner = Telescope::More(&*x, &*a, &*telescope);
            let others = do_arguments_fit(alloc, env, sort, &inner, b, left, depth_left, steps)?;
            Ok(first && others)
        }
        Term::Var(_)
        | Term::Sort(_)
        | Term::Lam(_, _, _)
        | Term::App(_, _)
        | Term::Const(_)
        | Term::Ind(_)
        | Term::Con(_, _)
        | Term::Match(_, _, _, _)
        | Term::Meta(_, _) => Ok(true),
    }
}
