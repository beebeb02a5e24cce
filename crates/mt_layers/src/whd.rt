// The weak head, as a layer gives it.
ghost use Rattle.std.specs.Prelude.{◌≡◌, ◌<◌, ◌+◌, length, IfOk, IfErr};
ghost use Rattle.mt_layers.specs.Environments.{environment_in, EnvBelow};
ghost use Rattle.mt_layers.specs.Stops.{IsNoRefusal};
ghost use Rattle.mt_rules.specs.Answers.{Answers};
ghost use Rattle.mt_pool.specs.Region.{tree_at, Kept};
ghost use Rattle.mt_store.specs.Held.{store_in, StoreBelow};
ghost use Rattle.mt_rules_laws.specs.ReductionLaws.{ReachedFrom};
ghost use Rattle.mt_rules.specs.WeakHead.{whd};

use crate::work::Work;
use mt_pool::TermId;
use mt_term::Stop;
use mt_text::{Ledger, Steps};
use std::alloc::Global;

/// What takes terms to their weak heads.
pub trait Whd {
    /// The weak head of the term, which is reached from it by contractions. It is never refused.
    fn whd<L: Ledger>(
        &self,
        alloc: Global,
        w: &mut Work<'_>,
        t: TermId,
        steps: &mut Steps<L>,
    ) -> Result<TermId, Stop>
        requires held { t.at < length w.old.pool.now }
        requires env_held { EnvBelow (length w.old.pool.now) w.old.env.now }
        requires store_held { StoreBelow (length w.old.pool.now) w.old.store.now }
        ensures same_pool { w.new.pool.ghost_name ≡ w.old.pool.ghost_name }
        ensures env { w.new.env ≡ w.old.env }
        ensures store { w.new.store ≡ w.old.store }
        ensures kept { Kept w.old.pool.now w.new.pool.now }
        ensures outcome { Answers (tree_at w.new.pool.now) (whd (environment_in w.old.pool.now w.old.env.now) (store_in w.old.pool.now w.old.store.now) (tree_at w.old.pool.now t) w.old.left) w.new.left result }
        ensures result_held { IfOk result (λ u. u.at < length w.new.pool.now) }
        ensures unrefused { IfErr result (λ e. IsNoRefusal e) }
        ensures reached { IfOk result (λ u. ReachedFrom (environment_in w.old.pool.now w.old.env.now) (store_in w.old.pool.now w.old.store.now) (tree_at w.old.pool.now t) (tree_at w.new.pool.now u)) }
        ensures cost { steps.new + w.new.left ≡ steps.old + w.old.left };
}
