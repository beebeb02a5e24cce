// Contexts held in a pool.
ghost use Rattle.std.specs.Prelude.{◌≡◌, [], ◌∷◌, ◌++◌, length, slice_get, take, IfOk, OnOk, OnErr};
ghost use Rattle.mt_term.specs.Seen.{seen};

use crate::nodes::TermId;
use mt_term::{Name, OutOfMemory};
use std::alloc::{AllocFailed, Global};
use std::clone::Clone;
use std::marker::Model;

/// A hypothesis: its name and its type's id.
#[derive(Drop)]
pub struct HeldHyp {
    pub name: Name,
    pub ty: TermId,
}

/// Hypotheses, oldest first.
#[derive(Drop)]
pub struct Context {
    items: Vec<HeldHyp>,
}

impl Model for Context {
    ghost use Rattle.std.specs.Prelude.{List};
    ghost use Rattle.mt_pool.specs.declared.contexts.HeldHyp.{HeldHyp};

    ghost Value = { List HeldHyp };

    ghost view = { λ c. c.items.items };
}

impl Context {
    /// No hypothesis.
    pub fn new(alloc: Global) -> Context
        ensures { result ≡ [] }
    {
        Context {
            items: Vec::new(alloc),
        }
    }

    /// Appends the newest hypothesis.
    pub fn push(&mut self, hyp: HeldHyp) -> Result<(), OutOfMemory>
        ensures ok { OnOk result (self.new ≡ self.old ++ hyp ∷ []) }
        ensures err { OnErr result (self.new ≡ self.old) }
    {
        self.items.push(hyp)?;
        Ok(())
    }

    /// How many hypotheses there are.
    pub fn len(&self) -> usize
        ensures { result ≡ length self.now }
    {
        self.items.len()
    }

    /// The hypothesis at a place, the oldest at 0.
    pub fn get(&self, at: usize) -> Option<&HeldHyp>
        ensures { seen result ≡ slice_get self.now at }
    {
        self.items.get(at)
    }

    /// The hypotheses as a slice.
    pub fn as_slice(&self) -> &[HeldHyp]
        ensures { result.now ≡ self.now }
    {
        &self.items
    }
}

impl Clone for HeldHyp {
    fn clone(&self) -> Result<HeldHyp, OutOfMemory>
        ensures { IfOk result (λ h. h ≡ self.now) }
    {
        Ok(HeldHyp {
            name: self.name.clone()?,
            ty: self.ty,
        })
    }
}

impl Clone for Context {
    fn clone(&self) -> Result<Context, OutOfMemory>
        ensures { IfOk result (λ c. c ≡ self.now) }
    {
        let mut items = Vec::new(*self.items.allocator());
        for hyp in &self.items {
            items.push(hyp.clone()?)?;
        }
        Ok(Context { items })
    }
}
