// What a cursor goes over.
ghost use Rattle.std.specs.Prelude.{◌≡◌, ℕ, Option, Some, IfOk, OnOk, OnErr, IfSome, IsSome};
ghost use Rattle.std.specs.Str.{IsCharBoundary};
ghost use Rattle.mt_cursor.specs.Runners.{Rules, IsUnitOf, PlaceLaw, FaultLaw, StepFaultLaw, SeenLaw, Parses, StepsTo, Costs, MarksKept, OlderKept, IsNewest, cost_of};
ghost use Rattle.mt_printer.specs.Prints.{Prints};
ghost use Rattle.mt_term.specs.Trees.{Bytes};

use mt_printer::PrintStop;
use mt_term::{Halt, OutOfMemory};
use mt_text::{Ledger, Sink, Steps, UnitSpan};
use std::alloc::Global;

/// What reads units of a text and takes them, one after another, from a state, and goes back to states that were marked.
///
/// A mark is live from its making until `back_to` goes to an older one.
pub trait Runner {
    /// What leads back to a state.
    type Mark: Drop;

    /// The states.
    ghost State: { Type 0 };

    /// The state of the runner.
    ghost state: { Self → State };

    /// A state in which no unit is accepted.
    ghost IsEmpty: { State → Type 0 };

    /// What is shown of a state.
    ghost shown: { State → Bytes };

    /// The state of a live mark; nothing for another.
    ghost marked: { Self → Self.Mark → Option State };

    /// Of two live marks the younger one has no lesser age.
    ghost age: { Self.Mark → ℕ };

    /// The parsing function, from a text and a place to a unit, the end or a fault,
    /// and the step function, from a state, a text and a unit to a state, a fault or Spent, with the cost.
    ghost rules: { Rules State };

    /// The unit that stands at a place of a text or after it, or `None` at the end.
    /// `Refused` comes exactly where the parsing function gives a fault, and `Spent` never.
    fn parse_at(&self, alloc: Global, text: &str, at: usize) -> Result<Option<UnitSpan>, Halt>
        requires { IsCharBoundary text.now at }
        ensures { Parses (rules.parse text.now at) result };

    /// Takes a unit that `parse_at` gives at some place of this text.
    /// `Refused` and `Spent` come exactly where the step function gives them. Nothing changes unless it is Ok.
    fn step<L: Ledger>(
        &mut self,
        alloc: Global,
        text: &str,
        unit: &UnitSpan,
        steps: &mut Steps<L>,
    ) -> Result<(), Halt>
        requires { IsUnitOf rules text.now unit.now }
        ensures step { StepsTo (rules.step (state self.old) text.now unit.now) (state self.old) (state self.new) result }
        ensures cost { Costs (cost_of (rules.step (state self.old) text.now unit.now)) steps.old steps.new result }
        ensures marks { MarksKept (marked self.old) (marked self.new) };

    /// A mark of the present state.
    fn mark(&self, alloc: Global) -> Result<Self::Mark, OutOfMemory>
        ensures marked { IfOk result (λ m. marked self.now m ≡ Some (state self.now)) }
        ensures newest { IfOk result (λ m. IsNewest age m (marked self.now)) };

    /// Goes back to the state of a live mark. Where memory is wanting, nothing changes.
    fn back_to(&mut self, alloc: Global, mark: &Self::Mark) -> Result<(), OutOfMemory>
        requires { IsSome (marked self.old mark.now) }
        ensures back { OnOk result (marked self.old mark.now ≡ Some (state self.new)) }
        ensures older { OnOk result (OlderKept age mark.now (marked self.old) (marked self.new)) }
        ensures same { OnErr result (state self.new ≡ state self.old) }
        ensures marks { OnErr result (MarksKept (marked self.old) (marked self.new)) };

    /// Writes what is shown of the state of a live mark.
    fn show_at<O: Sink>(
        &self,
        alloc: Global,
        mark: &Self::Mark,
        out: &mut O,
    ) -> Result<(), PrintStop>
        requires { IsSome (marked self.now mark.now) }
        ensures { IfSome (marked self.now mark.now) (λ s. Prints (O.got out.old) (O.got out.new) (O.faults out.old) (O.faults out.new) (shown s) result) };

    /// A unit has its places in order and on the bounds of characters.
    ghost placed: { PlaceLaw rules };

    /// The place of a fault that is read is the bound of a character.
    ghost faults_placed: { FaultLaw rules };

    /// So is the place of a fault of a step.
    ghost step_faults_placed: { StepFaultLaw rules };

    /// A unit and its step depend on the first `seen` bytes of the text.
    ghost seen: { SeenLaw rules };
}
