// Accepted units, and how many of them stand first.
ghost use Rattle.std.specs.Prelude.{◌≡◌, slice_get};
ghost use Rattle.mt_cursor.specs.Cursors.{spans};
ghost use Rattle.mt_term.specs.Seen.{seen};
ghost use Rattle.mt_cursor.specs.Sessions.{first_passing, is_seen_by, ends_by, place_of};

use mt_text::UnitSpan;

/// An accepted unit, with a mark of the state before it.
#[derive(Drop)]
pub struct Accepted<M> {
    pub span: UnitSpan,
    pub before: M,
}

/// The end of the last unit, or 0.
pub fn end_of<M>(accepted: &[Accepted<M>]) -> usize
    ensures { result ≡ place_of (spans accepted.now) }
{
    match accepted.last() {
        Some(last) => last.span.end,
        None => 0,
    }
}

/// How many units stand first that are decided by what stands before a place.
pub fn seen_by<M>(accepted: &[Accepted<M>], start: usize) -> usize
    ensures { result ≡ first_passing (is_seen_by start) (spans accepted.now) }
{
    for (count, unit) in accepted.iter().enumerate() {
        if unit.span.seen > start {
            return count;
        }
    }
    accepted.len()
}

/// How many units stand first that end by a place.
pub fn ended_by<M>(accepted: &[Accepted<M>], pos: usize) -> usize
    ensures { result ≡ first_passing (ends_by pos) (spans accepted.now) }
{
    for (count, unit) in accepted.iter().enumerate() {
        if unit.span.end > pos {
            return count;
        }
    }
    accepted.len()
}

/// The unit at a place of the list, where there is one.
pub fn unit_at<M>(accepted: &[Accepted<M>], at: usize) -> Option<&Accepted<M>>
    ensures { seen result ≡ slice_get accepted.now at }
{
    accepted.get(at)
}
