// The comparison, as a layer gives it.
ghost use Rattle.std.specs.Prelude.{◌≡◌, ◌<◌, ◌+◌, length, true, IfOk, IfErr};
ghost use Rattle.mt_layers.specs.Environments.{environment_in, EnvBelow};
ghost use Rattle.mt_layers.specs.Stops.{IsNoRefusal};
ghost use Rattle.mt_rules.specs.Answers.{Answers};
ghost use Rattle.mt_pool.specs.Region.{tree_at, Kept};
ghost use Rattle.mt_store.specs.Held.{store_in, StoreBelow};
ghost use Rattle.mt_rules.specs.Comparison.{convert};
ghost use Rattle.mt_rules_laws.specs.ReductionLaws.{Compared};

use crate::work::Work;
use mt_pool::TermId;
use mt_term::{Mode, Stop};
use mt_text::{Ledger, Steps};
use std::alloc::Global;

/// What compares terms.
pub trait Convert {
    /// Whether the terms are convertible in the mode. A yes gives conversion, or the order of
    /// types. It is never refused.
    fn convert<L: Ledger>(
        &self,
        alloc: Global,
        w: &mut Work<'_>,
        mode: Mode,
        t: TermId,
        u: TermId,
        steps: &mut Steps<L>,
    ) -> Result<bool, Stop>
        requires first { t.at < length w.old.pool.now }
        requires second { u.at < length w.old.pool.now }
        requires env_held { EnvBelow (length w.old.pool.now) w.old.env.now }
        requires store_held { StoreBelow (length w.old.pool.now) w.old.store.now }
        ensures same_pool { w.new.pool.ghost_name ≡ w.old.pool.ghost_name }
        ensures env { w.new.env ≡ w.old.env }
        ensures store { w.new.store ≡ w.old.store }
        ensures kept { Kept w.old.pool.now w.new.pool.now }
        ensures outcome { Answers (λ b. b) (convert (environment_in w.old.pool.now w.old.env.now) (store_in w.old.pool.now w.old.store.now) mode (tree_at w.old.pool.now t) (tree_at w.old.pool.now u) w.old.left) w.new.left result }
        ensures unrefused { IfErr result (λ e. IsNoRefusal e) }
        ensures converted { IfOk result (λ b. b ≡ true → Compared (environment_in w.old.pool.now w.old.env.now) (store_in w.old.pool.now w.old.store.now) mode (tree_at w.old.pool.now t) (tree_at w.old.pool.now u)) }
        ensures cost { steps.new + w.new.left ≡ steps.old + w.old.left };
}
