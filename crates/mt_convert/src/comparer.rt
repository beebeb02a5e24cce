// The layer of comparison.
use crate::comparison::convert;
use mt_layers::{Convert, Whd, Work};
use mt_pool::TermId;
use mt_term::{MAX_DEPTH, Mode, Stop};
use mt_text::{Ledger, Steps};
use std::alloc::Global;

/// Compares terms by their weak heads.
#[derive(Clone, Copy)]
pub struct Comparer<W: Whd> {
    whd: W,
}

impl<W: Whd> Comparer<W> {
    /// It takes no memory.
    pub fn new(whd: W) -> Comparer<W> {
        Comparer { whd }
    }
}

impl<W: Whd> Convert for Comparer<W> {
    #[tactic(auto, using(mt_layers::proofs::Kept::converted_by))]
    fn convert<L: Ledger>(
        &self,
        alloc: Global,
        w: &mut Work<'_>,
        mode: Mode,
        t: TermId,
        u: TermId,
        steps: &mut Steps<L>,
    ) -> Result<bool, Stop> {
        convert(&self.whd, alloc, w, mode, t, u, MAX_DEPTH, steps)
    }
}
