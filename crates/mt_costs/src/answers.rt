// Answers to the questions of the tables.
use mt_term::Stop;

/// How many charges an answer may take.
pub const ALLOWANCE: u64 = 1000;

/// An answer, and how many charges it took.
#[derive(Clone, Copy, Debug, PartialEq, Eq)]
pub struct Answer {
    pub yes: bool,
    pub cost: u64,
}

/// What was found, at its cost: a refusal is a no.
///
/// # Errors
///
/// Any other stop.
pub fn answer_of(found: Result<bool, Stop>, cost: u64) -> Result<Answer, Stop> {
    match found {
        Ok(yes) => Ok(Answer { yes, cost }),
        Err(Stop::Refused(_)) => Ok(Answer { yes: false, cost }),
        Err(stop) => Err(stop),
    }
}
