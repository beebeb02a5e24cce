// The parts that a layer works on.
ghost use Rattle.std.specs.Prelude.{◌≡◌, ◌+◌, ◌-◌, ◌<◌, length, Err, IfOk, OnErr, OnOk};
ghost use Rattle.mt_pool.specs.Region.{tree_at, Kept};
ghost use Rattle.mt_store.specs.Held.{store_in, StoreBelow};
ghost use Rattle.mt_term.specs.Instances.{InstanceOf};

use crate::instances::instance;
use mt_env::Env;
use mt_pool::{Pool, TermId};
use mt_store::Store;
use mt_term::{MAX_DEPTH, OutOfMemory, Stop};
use mt_text::{Ledger, Steps};
use std::alloc::Global;

/// The pool, the environment and the store that it holds, and the allowance that is left.
#[derive(Drop)]
pub struct Work<'a> {
    pub pool: &'a mut Pool,
    pub env: &'a Env,
    pub store: &'a mut Store,
    pub left: u64,
}

impl Work<'_> {
    /// Takes one charge and counts one step.
    ///
    /// # Errors
    ///
    /// `Spent` exactly where nothing is left.
    pub fn charge<L: Ledger>(&mut self, steps: &mut Steps<L>) -> Result<(), Stop>
        ensures same_pool { self.new.pool.ghost_name ≡ self.old.pool.ghost_name }
        ensures pool { self.new.pool.now ≡ self.old.pool.now }
        ensures env { self.new.env ≡ self.old.env }
        ensures store { self.new.store ≡ self.old.store }
        ensures ok { OnOk result ((0 < self.old.left) × (self.new.left ≡ self.old.left - 1) × (steps.new ≡ steps.old + 1)) }
        ensures err { OnErr result ((self.old.left ≡ 0) × (self.new.left ≡ 0) × (steps.new ≡ steps.old)
            × (result ≡ Err Stop.Spent)) }
    {
        if self.left == 0 {
            return Err(Stop::Spent);
        }
        self.left -= 1;
        steps.tick();
        Ok(())
    }

    /// The instance of a term: every assigned metavariable replaced by its body under its terms,
    /// through and through.
    ///
    /// # Errors
    ///
    /// Memory is wanting also where the instance goes through too many bodies; where a metavariable
    /// is below itself there may be none.
    pub fn instance(&mut self, alloc: Global, t: TermId) -> Result<TermId, OutOfMemory>
        requires held { t.at < length self.old.pool.now }
        requires store_held { StoreBelow (length self.old.pool.now) self.old.store.now }
        ensures same_pool { self.new.pool.ghost_name ≡ self.old.pool.ghost_name }
        ensures env { self.new.env ≡ self.old.env }
        ensures store { self.new.store ≡ self.old.store }
        ensures left { self.new.left ≡ self.old.left }
        ensures kept { Kept self.old.pool.now self.new.pool.now }
        ensures result_held { IfOk result (λ u. u.at < length self.new.pool.now) }
        ensures instance { IfOk result (λ u. InstanceOf (store_in self.old.pool.now self.old.store.now) (tree_at self.old.pool.now t) (tree_at self.new.pool.now u)) }
    {
        instance(self.pool, alloc, self.store, t, MAX_DEPTH)
    }
}
