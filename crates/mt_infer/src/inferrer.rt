// The layer of inference.
ghost use Rattle.std.specs.Prelude.{◌≡◌, ◌<◌, ◌+◌, length, IfOk};
ghost use Rattle.mt_infer.specs.Scopes.{inside, scope_in, ScopeBelow};
ghost use Rattle.mt_layers.specs.Environments.{environment_in, EnvBelow};
ghost use Rattle.mt_rules.specs.Answers.{Answers};
ghost use Rattle.mt_pool.specs.HeldOf.{ContextBelow};
ghost use Rattle.mt_pool.specs.Region.{tree_at, Kept};
ghost use Rattle.mt_store.specs.Held.{store_in, StoreBelow};
ghost use Rattle.mt_rules.specs.Inference.{infer};

use crate::inference::infer;
use crate::scopes::Scope;
use mt_layers::{Convert, Infer, Whd, Work};
use mt_pool::{Context, HeldHyp, TermId};
use mt_term::{MAX_DEPTH, Stop, deeper};
use mt_text::{Ledger, Steps};
use std::alloc::Global;

/// Infers types by a comparison and a weak head.
#[derive(Clone, Copy)]
pub struct Inferrer<C: Convert, W: Whd> {
    pub(crate) convert: C,
    pub(crate) whd: W,
}

impl<C: Convert, W: Whd> Inferrer<C, W> {
    /// It takes no memory.
    pub fn new(convert: C, whd: W) -> Inferrer<C, W> {
        Inferrer { convert, whd }
    }
}

/// The type of a term in a context with further hypotheses, the oldest first. Recurses at most
/// `depth_left` levels.
#[tactic(auto, using(crate::proofs::Held::infer_held, crate::proofs::Contexts::inside_rules))]
fn infer_inside<C: Convert, W: Whd, L: Ledger>(
    i: &Inferrer<C, W>,
    alloc: Global,
    w: &mut Work<'_>,
    hyps: &[HeldHyp],
    scope: &Scope<'_>,
    t: TermId,
    depth_left: usize,
    steps: &mut Steps<L>,
) -> Result<TermId, Stop>
    requires held { t.at < length w.old.pool.now }
    requires hyps_held { ContextBelow (length w.old.pool.now) hyps.now }
    requires scope_held { ScopeBelow (length w.old.pool.now) scope.now }
    requires env_held { EnvBelow (length w.old.pool.now) w.old.env.now }
    requires store_held { StoreBelow (length w.old.pool.now) w.old.store.now }
    ensures same_pool { w.new.pool.ghost_name ≡ w.old.pool.ghost_name }
    ensures env { w.new.env ≡ w.old.env }
    ensures store { w.new.store ≡ w.old.store }
    ensures kept { Kept w.old.pool.now w.new.pool.now }
    ensures outcome { Answers (tree_at w.new.pool.now) (infer (environment_in w.old.pool.now w.old.env.now) (store_in w.old.pool.now w.old.store.now) (inside w.old.pool.now hyps.now (scope_in w.old.pool.now scope.now)) (tree_at w.old.pool.now t) w.old.left) w.new.left result }
    ensures result_held { IfOk result (λ u. u.at < length w.new.pool.now) }
    ensures cost { steps.new + w.new.left ≡ steps.old + w.old.left }
{
    let depth_left = deeper(depth_left)?;
    match hyps {
        [] => infer(i, alloc, w, scope, t, MAX_DEPTH, steps),
        [hyp, more @ ..] => {
            let inner = Scope::More(&hyp.name, hyp.ty, &*scope);
            infer_inside(i, alloc, w, more, &inner, t, depth_left, steps)
        }
    }
}

impl<C: Convert, W: Whd> Infer for Inferrer<C, W> {
    #[tactic(auto, using(crate::proofs::Held::infer_held, mt_layers::proofs::TypedBy::typed_by, crate::proofs::Contexts::inside_nothing))]
    fn infer<L: Ledger>(
        &self,
        alloc: Global,
        w: &mut Work<'_>,
        context: &Context,
        t: TermId,
        steps: &mut Steps<L>,
    ) -> Result<TermId, Stop> {
        infer_inside(
            self,
            alloc,
            w,
            context.as_slice(),
            &Scope::Empty,
            t,
            MAX_DEPTH,
            steps,
        )
    }
}
