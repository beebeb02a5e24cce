// Metavariables held in a pool.
ghost use Rattle.std.specs.Prelude.{◌≡◌, IfOk};

use mt_pool::{Context, TermId};
use mt_term::OutOfMemory;
use std::alloc::AllocFailed;
use std::clone::Clone;

/// A metavariable: its context, and the ids of its type and of its body, where it has one.
#[derive(Drop)]
pub struct HeldMeta {
    pub context: Context,
    pub ty: TermId,
    pub body: Option<TermId>,
}

impl Clone for HeldMeta {
    fn clone(&self) -> Result<HeldMeta, OutOfMemory>
        ensures { IfOk result (λ m. m ≡ self.now) }
    {
        Ok(HeldMeta {
            context: self.context.clone()?,
            ty: self.ty,
            body: self.body,
        })
    }
}
