// Stores out of the pool.
ghost use Rattle.std.specs.Prelude.{◌≡◌, ◌<◌, length, IfOk};
ghost use Rattle.mt_term.specs.MetaOf.{body_of, metavariable_of};
ghost use Rattle.mt_pool.specs.HeldOf.{hypotheses_in, ContextBelow};
ghost use Rattle.mt_store.specs.Held.{body_in, metavariable_in, metas_in, BodyBelow, MetaBelow, StoreBelow};

use crate::metavariables::HeldMeta;
use crate::stores::Store;
use mt_pool::{HeldHyp, Pool, TermId};
use mt_term::{Hyp, Hyps, Metas, OutOfMemory, PlainMeta, PlainStore, Term};
use std::alloc::Global;

// A context with terms for its types.
#[tactic(auto, using(crate::proofs::HeldLaws::places))]
fn plain_context(alloc: Global, pool: &Pool, context: &[HeldHyp]) -> Result<Hyps, OutOfMemory>
    requires { ContextBelow (length pool.now) context.now }
    ensures { IfOk result (λ hyps. hyps ≡ hypotheses_in pool.now context.now) }
{
    let mut hyps = Hyps::new(alloc);
    for hyp in context {
        let name = hyp.name.clone()?;
        let ty = pool.export(alloc, hyp.ty)?;
        hyps.push(Hyp { name, ty })?;
    }
    Ok(hyps)
}

fn plain_body(alloc: Global, pool: &Pool, body: Option<TermId>) -> Result<Option<Term>, OutOfMemory>
    requires { BodyBelow (length pool.now) body }
    ensures { IfOk result (λ plain. body_of plain ≡ body_in pool.now body) }
{
    match body {
        Some(t) => Ok(Some(pool.export(alloc, t)?)),
        None => Ok(None),
    }
}

// A metavariable with terms in place of ids.
fn plain_meta(alloc: Global, pool: &Pool, held: &HeldMeta) -> Result<PlainMeta, OutOfMemory>
    requires { MetaBelow (length pool.now) held.now }
    ensures { IfOk result (λ meta. metavariable_of meta ≡ metavariable_in pool.now held.now) }
{
    let context = plain_context(alloc, pool, held.context.as_slice())?;
    let ty = pool.export(alloc, held.ty)?;
    let body = plain_body(alloc, pool, held.body)?;
    Ok(PlainMeta { context, ty, body })
}

impl Store {
    /// The store as trees.
    #[tactic(auto, using(crate::proofs::HeldLaws::places), unfolding(crate::specs::Held::metas_in))]
    pub fn plain(&self, alloc: Global, pool: &Pool) -> Result<PlainStore, OutOfMemory>
        requires { StoreBelow (length pool.now) self.now }
        ensures { IfOk result (λ plain. plain.metas ≡ metas_in pool.now self.now) }
    {
        let mut metas = Metas::new(alloc);
        for held in &self.metas {
            metas.push(plain_meta(alloc, pool, held)?)?;
        }
        Ok(PlainStore { metas })
    }
}
