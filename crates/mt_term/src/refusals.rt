// Why a unit of a script is refused, and why a call stops.
ghost use Rattle.std.specs.Prelude.{◌≡◌};
ghost use Rattle.mt_term.specs.Reasons.{number_of};
ghost use Rattle.mt_term.specs.ReasonOf.{reason_of};
ghost use Rattle.mt_term.specs.declared.refusals.Stop.TheVariants.{OutOfMemory};
ghost use Rattle.mt_term.specs.declared.refusals.Halt.TheVariants.{OutOfMemory as HaltOutOfMemory};

use crate::entries::Entries;
use crate::hypotheses::Hyps;
use crate::names::Name;
use crate::terms::Term;
use std::alloc::{AllocError, AllocFailed};

/// Why a unit is refused.
#[derive(Drop)]
pub enum Refusal {
    /// A character, name or number is no token.
    Lex,
    /// A token cannot stand there.
    Syntax,
    /// The text ends inside the unit.
    Incomplete,
    /// Nesting would pass 200.
    TooDeep,
    /// A name is not known.
    Unbound(Name),
    /// A name is in use.
    Taken(Name),
    /// The inferred type does not meet the expected one. `known` holds the entries that were taken
    /// as known past the environment of the state.
    Mismatch {
        context: Hyps,
        inferred: Term,
        expected: Term,
        known: Entries,
    },
    /// A function's type has no product.
    NotAFunction,
    /// A type's type is no sort, or a universe number would pass 4,294,967,295.
    NotASort,
    /// An expected type, or an expected product, is needed.
    NoExpected,
    /// No valuation meets the constraints.
    Cycle,
    /// A constructor's type is not positive.
    NotPositive,
    /// A recursive function's body is not guarded.
    NotGuarded,
    /// A match eliminates what it may not, or its arms do not fit its type.
    BadElimination,
    /// A hint is not acceptable.
    BadHint,
    /// A coercion does not have the form that one needs.
    BadCoercion,
    /// A metavariable stands open where none may.
    OpenMetas,
    /// No goal in focus is open, or a named goal is not open or is named twice.
    NoGoal,
    /// No goal is left for a branch.
    NoBranch,
    /// A position or constructor number is not there, or a position is named twice.
    NoSuchPosition,
    /// The unit or sign may not stand in this state.
    NotHere,
    /// The kernel says No, for the reason of this number.
    KernelRefused(u8),
    /// The allowance is spent. It stands in a reply alone.
    Spent,
}

impl Refusal {
    /// The number of the refusal in the table of refusals.
    pub fn number(&self) -> u8
        ensures { result ≡ number_of (reason_of self.now) }
    {
        match self {
            Refusal::Lex => 1,
            Refusal::Syntax => 2,
            Refusal::Incomplete => 3,
            Refusal::TooDeep => 4,
            Refusal::Unbound(_) => 5,
            Refusal::Taken(_) => 6,
            Refusal::Mismatch { .. } => 7,
            Refusal::NotAFunction => 8,
            Refusal::NotASort => 9,
            Refusal::NoExpected => 10,
            Refusal::Cycle => 11,
            Refusal::NotPositive => 12,
            Refusal::NotGuarded => 13,
            Refusal::BadElimination => 14,
            Refusal::BadHint => 15,
            Refusal::BadCoercion => 16,
            Refusal::OpenMetas => 17,
            Refusal::NoGoal => 18,
            Refusal::NoBranch => 19,
            Refusal::NoSuchPosition => 20,
            Refusal::NotHere => 21,
            Refusal::KernelRefused(_) => 22,
            Refusal::Spent => 23,
        }
    }
}

/// Why a call over terms stops.
#[derive(Drop)]
pub enum Stop {
    Refused(Refusal),
    Spent,
    OutOfMemory,
}

impl From<AllocError> for Stop {
    ghost from_gives = { λ _ e. e ≡ OutOfMemory };

    fn from(_: AllocError) -> Self {
        Stop::OutOfMemory
    }
}

/// A refusal and its place in the text.
#[derive(Drop)]
pub struct Fault {
    pub refusal: Refusal,
    pub at: usize,
}

/// Why a call over a text stops.
#[derive(Drop)]
pub enum Halt {
    Refused(Fault),
    Spent,
    OutOfMemory,
}

impl From<AllocError> for Halt {
    ghost from_gives = { λ _ e. e ≡ HaltOutOfMemory };

    fn from(_: AllocError) -> Self {
        Halt::OutOfMemory
    }
}
