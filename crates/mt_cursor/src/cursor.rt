// A text, and how far its units are accepted.
ghost use Rattle.std.specs.Prelude.{◌≡◌, ◌≤◌, ◌<◌, ℕ, [], length, take, OnOk, OnErr, if◌then◌else◌};
ghost use Rattle.std.specs.Str.{IsUtf8, is_utf8};
ghost use Rattle.mt_cursor.specs.Cursors.{AddsTo, IsRun, NextIs, Unchanged, TakesTo, units_in, standing_in, start_of, session_in, LoadsTo, RetractsTo, EditsTo, AdvancesTo, GoesTo};
ghost use Rattle.mt_cursor.specs.Runners.{Found};
ghost use Rattle.mt_printer.specs.Prints.{Prints};
ghost use Rattle.mt_cursor.specs.Sessions.{advanced, ends_within, kept_by, moved, place_of, turn};

use crate::accepted::{Accepted, end_of, ended_by, seen_by, unit_at};
use crate::texts::{as_text, replaced};
use crate::{CursorStop, Runner};
use mt_printer::PrintStop;
use mt_term::{Halt, Name, OutOfMemory};
use mt_text::{Ledger, Sink, Steps, UnitSpan};
use std::alloc::Global;
use std::marker::Model;

/// A text, of which the first units are accepted by a runner.
#[derive(Drop)]
pub struct Cursor<R: Runner> {
    runner: R,
    text: String,
    accepted: Vec<Accepted<R::Mark>>,
}

impl<R: Runner> Model for Cursor<R> {
    ghost use Rattle.std.specs.Prelude.{string_bytes};
    ghost use Rattle.mt_cursor.specs.Cursors.{View, IsRun};

    ghost Value = { View R R.Mark };

    ghost view = { λ c. record { runner = c.runner; text = string_bytes c.text; accepted = c.accepted.items } };

    ghost invariant = { λ c. IsRun R.rules R.state R.marked R.age R.IsEmpty (record { runner = c.runner; text = string_bytes c.text; accepted = c.accepted.items }) };
}

impl<R: Runner> Cursor<R> {
    /// A cursor over a runner in its empty state, with an empty text and no unit. It takes no memory.
    pub fn new(alloc: Global, runner: R) -> Cursor<R>
        requires { R.IsEmpty (R.state runner) }
        ensures is { result ≡ record { runner = runner; text = []; accepted = [] } }
        ensures run { IsRun R.rules R.state R.marked R.age R.IsEmpty result }
    {
        Cursor {
            runner,
            text: String::new(alloc),
            accepted: Vec::new(alloc),
        }
    }

    /// The runner.
    pub fn runner(&self) -> &R
        ensures { result.now ≡ self.now.runner }
    {
        &self.runner
    }

    /// The text.
    pub fn text(&self) -> &str
        ensures { result.now ≡ self.now.text }
    {
        self.text.as_str()
    }

    /// The number of accepted units.
    pub fn units(&self) -> usize
        ensures { result ≡ length self.now.accepted }
    {
        self.accepted.len()
    }

    /// The end of the last accepted unit, or 0.
    pub fn place(&self) -> usize
        ensures { result ≡ place_of (units_in self.now) }
    {
        end_of(&self.accepted)
    }

    // The next unit, where there is one that ends within the limit.
    fn next_unit(&self, alloc: Global, limit: Option<usize>) -> Result<Option<UnitSpan>, Halt>
        ensures next { NextIs R.rules limit self.now.text (standing_in R.state self.now) result }
        ensures run { IsRun R.rules R.state R.marked R.age R.IsEmpty self.now }
    {
        let place = end_of(&self.accepted);
        match self.runner.parse_at(alloc, self.text.as_str(), place)? {
            Some(unit) => Ok(within(limit, unit)),
            None => Ok(None),
        }
    }

    // Takes the unit that is next. Room for it is made before its step.
    fn accept<L: Ledger>(
        &mut self,
        alloc: Global,
        unit: UnitSpan,
        steps: &mut Steps<L>,
    ) -> Result<(), Halt>
        requires { R.rules.parse self.old.text (place_of (units_in self.old)) ≡ Found unit }
        ensures step { AddsTo R.state (R.rules.step (R.state self.old.runner) self.old.text unit) unit steps.old steps.new self.old self.new result }
        ensures text { self.new.text ≡ self.old.text }
        ensures start { start_of R.state R.marked self.new ≡ start_of R.state R.marked self.old }
        ensures run { IsRun R.rules R.state R.marked R.age R.IsEmpty self.new }
    {
        self.accepted.reserve(1)?;
        let before = self.runner.mark(alloc)?;
        self.runner.step(alloc, self.text.as_str(), &unit, steps)?;
        self.accepted.push(Accepted { span: unit, before }).unwrap();
        Ok(())
    }

    // Takes the next unit, where there is one that ends within the limit, and says whether there was.
    fn take_next<L: Ledger>(
        &mut self,
        alloc: Global,
        limit: Option<usize>,
        steps: &mut Steps<L>,
    ) -> Result<bool, Halt>
        ensures turn { TakesTo R.state (turn R.rules limit self.old.text (standing_in R.state self.old)) steps.old steps.new self.old self.new result }
        ensures text { self.new.text ≡ self.old.text }
        ensures start { start_of R.state R.marked self.new ≡ start_of R.state R.marked self.old }
        ensures run { IsRun R.rules R.state R.marked R.age R.IsEmpty self.new }
    {
        match self.next_unit(alloc, limit)? {
            Some(unit) => {
                self.accept(alloc, unit, steps)?;
                Ok(true)
            }
            None => Ok(false),
        }
    }

    // Goes back to the first units, so many of them. Where memory is wanting, nothing changes.
    fn go_back(&mut self, alloc: Global, count: usize) -> Result<(), OutOfMemory>
        requires { count ≤ length self.old.accepted }
        ensures back { OnOk result (self.new.accepted ≡ take count self.old.accepted) }
        ensures same { OnErr result (Unchanged R.state self.old self.new) }
        ensures text { self.new.text ≡ self.old.text }
        ensures start { start_of R.state R.marked self.new ≡ start_of R.state R.marked self.old }
        ensures run { IsRun R.rules R.state R.marked R.age R.IsEmpty self.new }
    {
        if let Some(next) = unit_at(&self.accepted, count) {
            self.runner.back_to(alloc, &next.before)?;
            self.accepted.truncate(count);
        }
        Ok(())
    }

    /// Replaces the text and goes back to no unit.
    /// `BadEdit` comes exactly where the text is not UTF-8 or has more than 1,048,576 bytes.
    pub fn load(&mut self, alloc: Global, text: Name) -> Result<(), CursorStop>
        ensures load { LoadsTo R.state text self.old self.new result }
        ensures start { start_of R.state R.marked self.new ≡ start_of R.state R.marked self.old }
        ensures run { IsRun R.rules R.state R.marked R.age R.IsEmpty self.new }
    {
        let _ = &self.runner;
        let text = as_text(alloc, text.as_bytes())?;
        self.go_back(alloc, 0)?;
        self.text = text;
        Ok(())
    }

    /// Drops the last units, so many of them, or all where there are fewer.
    pub fn retract(&mut self, alloc: Global, n: usize) -> Result<(), CursorStop>
        ensures retract { RetractsTo R.state n self.old self.new result }
        ensures start { start_of R.state R.marked self.new ≡ start_of R.state R.marked self.old }
        ensures run { IsRun R.rules R.state R.marked R.age R.IsEmpty self.new }
    {
        let count = self.accepted.len().saturating_sub(n);
        self.go_back(alloc, count)?;
        Ok(())
    }

    /// Replaces `del` bytes from `start` on, and keeps the longest front of units that are decided by what stands before `start`.
    /// `BadEdit` comes exactly where the range is not inside the text or not on the bounds of characters, the new bytes are not UTF-8,
    /// or the new text has more than 1,048,576 bytes.
    pub fn edit(
        &mut self,
        alloc: Global,
        start: usize,
        del: usize,
        text: &[u8],
    ) -> Result<(), CursorStop>
        ensures edit { EditsTo R.state start del text.now self.old self.new result }
        ensures start { start_of R.state R.marked self.new ≡ start_of R.state R.marked self.old }
        ensures run { IsRun R.rules R.state R.marked R.age R.IsEmpty self.new }
    {
        let whole = replaced(alloc, self.text.as_str(), start, del, text)?;
        let count = seen_by(&self.accepted, start);
        self.go_back(alloc, count)?;
        self.text = whole;
        Ok(())
    }

    /// Takes the next units one by one, and ends Ok after `n` of them or at the end of the text.
    /// `Halt` comes exactly where the next unit is refused or spends its allowance, or memory is wanting; the units accepted before stay.
    pub fn advance<L: Ledger>(
        &mut self,
        alloc: Global,
        n: usize,
        steps: &mut Steps<L>,
    ) -> Result<(), CursorStop>
        ensures advance { AdvancesTo R.state (advanced R.rules self.old.text n (standing_in R.state self.old)) steps.old steps.new self.old self.new result }
        ensures text { self.new.text ≡ self.old.text }
        ensures start { start_of R.state R.marked self.new ≡ start_of R.state R.marked self.old }
        ensures run { IsRun R.rules R.state R.marked R.age R.IsEmpty self.new }
    {
        let _ = &self.runner;
        let mut left = n;
        'units: while left > 0 {
            match self.take_next(alloc, None, steps) {
                Ok(true) => left -= 1,
                Ok(false) => return Ok(()),
                Err(halt) => return Err(CursorStop::Halt(halt)),
            }
        }
        Ok(())
    }

    /// Keeps the longest front of units that end by `pos`, and takes the next units while the place is before `pos`.
    /// It ends Ok at the end of the text, or where the next unit ends past `pos`, which is not taken.
    /// `Halt` comes as for `advance`.
    pub fn goto<L: Ledger>(
        &mut self,
        alloc: Global,
        pos: usize,
        steps: &mut Steps<L>,
    ) -> Result<(), CursorStop>
        ensures goto { let from = kept_by R.rules (start_of R.state R.marked self.old) pos (session_in self.old) in
            GoesTo R.state from (moved R.rules self.old.text pos pos from) steps.old steps.new self.old self.new result }
        ensures text { self.new.text ≡ self.old.text }
        ensures start { start_of R.state R.marked self.new ≡ start_of R.state R.marked self.old }
        ensures run { IsRun R.rules R.state R.marked R.age R.IsEmpty self.new }
    {
        let count = ended_by(&self.accepted, pos);
        self.go_back(alloc, count)?;
        self.go_on(alloc, pos, steps)
    }

    // Takes the next units while the place is before `pos` and they end by it.
    fn go_on<L: Ledger>(
        &mut self,
        alloc: Global,
        pos: usize,
        steps: &mut Steps<L>,
    ) -> Result<(), CursorStop>
        ensures goes { AdvancesTo R.state (moved R.rules self.old.text pos pos (standing_in R.state self.old)) steps.old steps.new self.old self.new result }
        ensures text { self.new.text ≡ self.old.text }
        ensures start { start_of R.state R.marked self.new ≡ start_of R.state R.marked self.old }
        ensures run { IsRun R.rules R.state R.marked R.age R.IsEmpty self.new }
    {
        let _ = &self.runner;
        let mut left = pos;
        'units: while left > 0 {
            if self.place() >= pos {
                return Ok(());
            }
            match self.take_next(alloc, Some(pos), steps) {
                Ok(true) => left -= 1,
                Ok(false) => return Ok(()),
                Err(halt) => return Err(CursorStop::Halt(halt)),
            }
        }
        Ok(())
    }

    /// Writes what is shown of the state.
    pub fn show<O: Sink>(&self, alloc: Global, out: &mut O) -> Result<(), PrintStop>
        ensures { Prints (O.got out.old) (O.got out.new) (O.faults out.old) (O.faults out.new) (R.shown (R.state self.now.runner)) result }
    {
        match self.runner.mark(alloc) {
            Ok(mark) => self.runner.show_at(alloc, &mark, out),
            Err(_) => Err(PrintStop::OutOfMemory),
        }
    }

    /// Writes what is shown of the state after the longest front of units that end by `pos`.
    pub fn show_at<O: Sink>(&self, alloc: Global, pos: usize, out: &mut O) -> Result<(), PrintStop>
        ensures { Prints (O.got out.old) (O.got out.new) (O.faults out.old) (O.faults out.new) (R.shown (kept_by R.rules (start_of R.state R.marked self.now) pos (session_in self.now)).state) result }
    {
        let count = ended_by(&self.accepted, pos);
        match unit_at(&self.accepted, count) {
            Some(next) => self.runner.show_at(alloc, &next.before, out),
            None => self.show(alloc, out),
        }
    }
}

// The unit, where it ends within the limit.
fn within(limit: Option<usize>, unit: UnitSpan) -> Option<UnitSpan>
    ensures { result ≡ (if ends_within limit unit then Some unit else None) }
{
    match limit {
        Some(most) if unit.end > most => None,
        _ => Some(unit),
    }
}
