// What tinycals ask of a prover.
ghost use Rattle.std.specs.Prelude.{◌≡◌, ◌+◌, ℕ, List, IsTrue};
ghost use Rattle.mt_tiny.specs.Answers.{ProverAnswers};
ghost use Rattle.mt_tiny.specs.Provers.{ProverRules, LeavesNoMore, KeepsClosed, SucceedsOn};
ghost use Rattle.mt_tiny.specs.declared.provers.ProverStop.TheVariants.{OutOfMemory};

use crate::Goals;
use mt_text::{Ledger, Steps};
use std::alloc::{AllocError, Global};

/// Why a prover stops an action. What it refuses with tells also where its allowance is spent.
#[derive(Drop)]
pub enum ProverStop<S> {
    Refused(S),
    OutOfMemory,
}

impl<S> From<AllocError> for ProverStop<S> {
    ghost from_gives = { λ _ e. e ≡ OutOfMemory };

    fn from(_: AllocError) -> ProverStop<S> {
        ProverStop::OutOfMemory
    }
}

/// What holds goals by number and acts on them, from an allowance.
pub trait Prover {
    type Action;

    type Stop;

    /// States, actions and stops, as definitions see them.
    ghost State: { Type 0 };

    ghost Deed: { Type 0 };

    ghost Cause: { Type 0 };

    /// The state.
    ghost state_of: { Self → State };

    /// The allowance that is left.
    ghost allowance: { Self → ℕ };

    /// The action.
    ghost deed_of: { Self.Action → Deed };

    /// What the prover refuses with.
    ghost cause_of: { Self.Stop → Cause };

    /// Which goals are open in a state, and what an action does to a goal.
    ghost rules: { ProverRules State Deed Cause };

    /// Whether the goal is open.
    fn is_open(&self, goal: usize) -> bool
        ensures { result ≡ rules.is_open (state_of self.now) goal };

    /// Acts on an open goal, and gives the new goals. Each charge is one tick.
    ///
    /// # Errors
    ///
    /// `Refused` exactly where the rules stop. After a stop the prover's state is of no account.
    fn apply<L: Ledger>(
        &mut self,
        alloc: Global,
        action: &Self::Action,
        goal: usize,
        steps: &mut Steps<L>,
    ) -> Result<Goals, ProverStop<Self::Stop>>
        requires { IsTrue (rules.is_open (state_of self.old) goal) }
        ensures outcome { ProverAnswers (λ new. (state_of self.new, new)) cause_of (rules.apply (deed_of action.now) goal (state_of self.old) (allowance self.old)) (allowance self.new) result }
        ensures cost { steps.new + allowance self.new ≡ steps.old + allowance self.old };

    /// Never more of the allowance is left than was given.
    ghost leaves_no_more: { LeavesNoMore rules };

    /// A closed goal is never opened again.
    ghost keeps_closed: { KeepsClosed rules };

    /// A success at an allowance is the same success at each greater one, with as much more left.
    ghost succeeds_on: { SucceedsOn rules };
}
