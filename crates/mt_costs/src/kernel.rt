// The kernel's answers.
ghost use Rattle.std.specs.Prelude.{◌≡◌, ◌<◌};

use crate::answers::{ALLOWANCE, Answer, answer_of};
use mt_kernel::check_term;
use mt_term::{PlainEnv, Stop, Term};
use mt_text::{Ledger, PlainLedger, Steps};
use std::alloc::Global;
use std::sync::ledger::Blank;

fn checked<L: Ledger>(
    alloc: Global,
    env: &PlainEnv,
    t: &Term,
    u: &Term,
    blank: Blank,
) -> Result<Answer, Stop>
    requires name { blank.name ≡ L.name }
    requires parts { blank.parts ≡ L.parts }
    requires some { 0 < L.parts }
{
    let mut steps = Steps::<L>::new(blank);
    let mut left = ALLOWANCE;
    let found = check_term(alloc, env, t, u, &mut left, &mut steps);
    answer_of(found.map(|()| true), ALLOWANCE - left)
}

/// Whether the first has the second as its type.
///
/// # Errors
///
/// `Spent` where the allowance does not suffice to say, and want of memory.
pub fn check(alloc: Global, env: &PlainEnv, t: &Term, u: &Term) -> Result<Answer, Stop> {
    checked::<PlainLedger>(alloc, env, t, u, Blank::new(1))
}
