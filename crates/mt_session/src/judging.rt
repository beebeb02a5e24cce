// What the kernel says of what a unit asks for.
ghost use Rattle.std.specs.Prelude.{◌≡◌, ◌+◌, ◌≤◌, IfOk, OnOk, OnErr};
ghost use Rattle.mt_kernel.specs.Answers.{answer_of, charge_of, verdict_of};
ghost use Rattle.mt_term.specs.EnvironmentOf.{environment_of};
ghost use Rattle.mt_session.specs.Sessions.{task_of};
ghost use Rattle.mt_session.specs.Steps.{reason_in, refusal_by, refusal_of};
ghost use Rattle.mt_session.specs.Tasks.{judged};

use crate::tasks::Task;
use mt_kernel::{Verdict, check, check_type};
use mt_term::{OutOfMemory, PlainEnv, Refusal};
use mt_text::{Ledger, Steps};
use std::alloc::Global;

/// What refuses a unit by the kernel, if anything does.
#[tactic(auto, using(crate::proofs::Verdicts::refusal_verdict))]
pub fn judge<L: Ledger>(
    alloc: Global,
    env: &PlainEnv,
    task: &Task,
    allowance: u64,
    steps: &mut Steps<L>,
) -> Result<Option<Refusal>, OutOfMemory>
    ensures refusal { IfOk result (λ r. reason_in r ≡ refusal_of (judged (environment_of env.now) (task_of task.now) allowance)) }
    ensures cost { OnOk result (steps.new ≡ steps.old + charge_of allowance (judged (environment_of env.now) (task_of task.now) allowance)) }
    ensures wanting { OnErr result (steps.new ≤ steps.old + charge_of allowance (judged (environment_of env.now) (task_of task.now) allowance)) }
{
    let verdict = verdict_on(alloc, env, task, allowance, steps)?;
    Ok(refusal_by(&verdict))
}

#[tactic(auto, using(crate::proofs::Verdicts::kernel_rules))]
fn verdict_on<L: Ledger>(
    alloc: Global,
    env: &PlainEnv,
    task: &Task,
    allowance: u64,
    steps: &mut Steps<L>,
) -> Result<Verdict, OutOfMemory>
    ensures verdict { IfOk result (λ v. answer_of v ≡ verdict_of allowance (judged (environment_of env.now) (task_of task.now) allowance)) }
    ensures cost { OnOk result (steps.new ≡ steps.old + charge_of allowance (judged (environment_of env.now) (task_of task.now) allowance)) }
    ensures wanting { OnErr result (steps.new ≤ steps.old + charge_of allowance (judged (environment_of env.now) (task_of task.now) allowance)) }
{
    match task {
        Task::Order(_, _) | Task::Rest => Ok(Verdict::Yes { cost: 0 }),
        Task::Begin(_, ty) => check_type(alloc, env, ty, allowance, steps),
        Task::Close(_, ty, term) => check(alloc, env, term, ty, allowance, steps),
        Task::Finish(_, ty, body) => check(alloc, env, body, ty, allowance, steps),
    }
}

fn refusal_by(verdict: &Verdict) -> Option<Refusal>
    ensures { reason_in result ≡ refusal_by (answer_of verdict.now) }
{
    match verdict {
        Verdict::Yes { .. } => None,
        Verdict::No { reason } => Some(Refusal::KernelRefused(reason.number())),
        Verdict::Spent => Some(Refusal::Spent),
    }
}
