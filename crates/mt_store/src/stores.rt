// Stores.
ghost use Rattle.std.specs.Prelude.{◌≡◌, ◌<◌, [], ◌∷◌, ◌++◌, ℕ, List, None, Some, length, map, option_map, slice_get, slice_set, true, IfOk, OnOk, OnErr};
ghost use Rattle.mt_term.specs.Instancing.{assigned_body};
ghost use Rattle.mt_term.specs.Seen.{seen};
ghost use Rattle.mt_term.specs.States.{Metavariable, is_open, meta_context, meta_type, meta_with_body};
ghost use Rattle.mt_term.specs.Stores.{types_of, AllMetas, AllMetasHeld, Declared, InStore, Reaches, body_of};
ghost use Rattle.mt_term.specs.StoreChanges.{Extends, Puts, with_body};
ghost use Rattle.mt_term.specs.Trees.{Tree};
ghost use Rattle.mt_pool.specs.HeldOf.{hypotheses_in, ContextBelow};
ghost use Rattle.mt_pool.specs.Region.{tree_at};
ghost use Rattle.mt_store.specs.Held.{assigned, body_in, context_held, context_of, metas_in, metavariable_in, new_meta, new_in, store_in, type_held, type_of, BodyBelow, IsOpen, IsProper, StoreBelow};

use crate::metavariables::HeldMeta;
use mt_pool::{Context, Pool, TermId};
use mt_term::OutOfMemory;
use std::alloc::{AllocFailed, Global};
use std::clone::Clone;
use std::marker::Model;

/// Metavariables, each under the number of those before it, seen as their list.
#[derive(Drop)]
pub struct Store {
    pub(crate) metas: Vec<HeldMeta>,
}

impl Model for Store {
    ghost use Rattle.std.specs.Prelude.{List};
    ghost use Rattle.mt_store.specs.declared.metavariables.HeldMeta.{HeldMeta};

    ghost Value = { List HeldMeta };

    ghost view = { λ s. s.metas.items };
}

impl Store {
    /// No metavariable.
    pub fn new(alloc: Global) -> Store
        ensures { result ≡ [] }
    {
        Store {
            metas: Vec::new(alloc),
        }
    }

    /// An equal store.
    pub fn copy(&self, alloc: Global) -> Result<Store, OutOfMemory>
        ensures { IfOk result (λ s. s ≡ self.now) }
    {
        Ok(Store {
            metas: copy_metavariables(alloc, &self.metas)?,
        })
    }

    /// How many metavariables there are.
    pub fn count(&self) -> usize
        ensures { result ≡ length self.now }
    {
        self.metas.len()
    }

    // A metavariable, where it is there.
    pub(crate) fn find(&self, n: usize) -> Option<&HeldMeta>
        ensures { seen result ≡ slice_get self.now n }
    {
        self.metas.get(n)
    }

    // A metavariable that is there.
    fn meta(&self, n: usize) -> &HeldMeta
        requires { n < length self.now }
        ensures { slice_get self.now n ≡ Some result.now }
    {
        &self.metas[n]
    }

    /// The context of a metavariable.
    #[tactic(auto, using(crate::proofs::HeldLaws::lookups))]
    pub fn context(&self, n: usize) -> &Context
        requires { n < length self.now }
        ensures held { option_map context_held (slice_get self.now n) ≡ Some result.now }
        ensures metas { (p : List Tree) → option_map meta_context (slice_get (metas_in p self.now) n) ≡ Some (hypotheses_in p result.now) }
        ensures context { (p : List Tree) → option_map context_of ((store_in p self.now).at n) ≡ Some (types_of (hypotheses_in p result.now)) }
        ensures below { (k : ℕ) → StoreBelow k self.now → ContextBelow k result.now }
    {
        &self.meta(n).context
    }

    /// The type of a metavariable.
    #[tactic(auto, using(crate::proofs::HeldLaws::lookups))]
    pub fn type_of(&self, n: usize) -> TermId
        requires { n < length self.now }
        ensures held { option_map type_held (slice_get self.now n) ≡ Some result }
        ensures metas { (p : List Tree) → option_map meta_type (slice_get (metas_in p self.now) n) ≡ Some (tree_at p result) }
        ensures ty { (p : List Tree) → option_map type_of ((store_in p self.now).at n) ≡ Some (tree_at p result) }
        ensures below { (k : ℕ) → StoreBelow k self.now → result.at < k }
    {
        self.meta(n).ty
    }

    /// The body of a metavariable. There is none exactly where no such metavariable is there, or it
    /// is open.
    #[tactic(auto, using(crate::proofs::HeldLaws::lookups))]
    pub fn body(&self, n: usize) -> Option<TermId>
        ensures metas { (p : List Tree) → body_in p result ≡ assigned_body (slice_get (metas_in p self.now) n) }
        ensures body { (p : List Tree) → body_in p result ≡ body_of ((store_in p self.now).at n) }
        ensures below { (k : ℕ) → StoreBelow k self.now → BodyBelow k result }
    {
        match self.find(n) {
            Some(meta) => meta.body,
            None => None,
        }
    }

    /// Whether a metavariable is there and has no body.
    #[tactic(auto, using(crate::proofs::HeldLaws::lookups))]
    pub fn is_open(&self, n: usize) -> bool
        ensures metas { (p : List Tree) → result ≡ is_open (slice_get (metas_in p self.now) n) }
        ensures open { (p : List Tree) → result ≡ true → IsOpen (store_in p self.now) n }
        ensures only { (p : List Tree) → IsOpen (store_in p self.now) n → result ≡ true }
    {
        match self.find(n) {
            Some(meta) => meta.body.is_none(),
            None => false,
        }
    }

    /// Adds an open metavariable, which gets the next number.
    #[tactic(auto, using(crate::proofs::HeldLaws::changes))]
    pub fn declare(
        &mut self,
        pool: &Pool,
        context: &Context,
        ty: TermId,
    ) -> Result<usize, OutOfMemory>
        requires held { StoreBelow (length pool.now) self.old }
        requires context { ContextBelow (length pool.now) context.now }
        requires ty { ty.at < length pool.now }
        ensures number { IfOk result (λ n. n ≡ length self.old) }
        ensures added { OnOk result (self.new ≡ self.old ++ new_meta context.now ty ∷ []) }
        ensures metas { OnOk result (metas_in pool.now self.new ≡ metas_in pool.now self.old ++ metavariable_in pool.now (new_meta context.now ty) ∷ []) }
        ensures fresh { IfOk result (λ n. (store_in pool.now self.old).at n ≡ None) }
        ensures puts { IfOk result (λ n. Puts (store_in pool.now self.old) n (new_in pool.now context.now ty) (store_in pool.now self.new)) }
        ensures extends { OnOk result (Extends (store_in pool.now self.old) (store_in pool.now self.new)) }
        ensures proper { OnOk result (IsProper (store_in pool.now self.old) → AllMetasHeld (InStore (store_in pool.now self.old)) (new_in pool.now context.now ty)
            → IsProper (store_in pool.now self.new)) }
        ensures below { StoreBelow (length pool.now) self.new }
        ensures err { OnErr result (self.new ≡ self.old) }
    {
        let n = self.count();
        let context = context.clone()?;
        self.push(HeldMeta {
            context,
            ty,
            body: None,
        })?;
        Ok(n)
    }

    fn push(&mut self, meta: HeldMeta) -> Result<(), OutOfMemory>
        ensures ok { OnOk result (self.new ≡ self.old ++ meta ∷ []) }
        ensures err { OnErr result (self.new ≡ self.old) }
    {
        self.metas.push(meta)?;
        Ok(())
    }

    /// Gives an open metavariable its body.
    #[tactic(auto, using(crate::proofs::HeldLaws::changes))]
    pub fn assign(&mut self, pool: &Pool, n: usize, body: TermId) -> Result<(), OutOfMemory>
        requires held { StoreBelow (length pool.now) self.old }
        requires open { IsOpen (store_in pool.now self.old) n }
        requires body { body.at < length pool.now }
        ensures set { OnOk result (self.new ≡ assigned self.old n body) }
        ensures metas { OnOk result ((m : Metavariable) → slice_get (metas_in pool.now self.old) n ≡ Some m
            → metas_in pool.now self.new ≡ slice_set (metas_in pool.now self.old) n (meta_with_body m (tree_at pool.now body))) }
        ensures puts { OnOk result ((d : Declared) → (store_in pool.now self.old).at n ≡ Some d → Puts (store_in pool.now self.old) n (with_body d (tree_at pool.now body)) (store_in pool.now self.new)) }
        ensures extends { OnOk result (Extends (store_in pool.now self.old) (store_in pool.now self.new)) }
        ensures proper { OnOk result (IsProper (store_in pool.now self.old) → AllMetas (InStore (store_in pool.now self.old)) (tree_at pool.now body)
            → (Reaches (store_in pool.now self.old) (tree_at pool.now body) n → ⊥) → IsProper (store_in pool.now self.new)) }
        ensures below { StoreBelow (length pool.now) self.new }
        ensures err { OnErr result (self.new ≡ self.old) }
    {
        self.set_body(n, body);
        Ok(())
    }

    // Writes the body of a metavariable that is there.
    fn set_body(&mut self, n: usize, body: TermId)
        requires { n < length self.old }
        ensures { self.new ≡ assigned self.old n body }
    {
        self.metas[n].body = Some(body);
    }
}

fn copy_metavariables(alloc: Global, metas: &[HeldMeta]) -> Result<Vec<HeldMeta>, OutOfMemory>
    ensures { IfOk result (λ copied. copied.items ≡ metas.now) }
{
    let mut copied = Vec::new(alloc);
    for meta in metas {
        copied.push(meta.clone()?)?;
    }
    Ok(copied)
}
