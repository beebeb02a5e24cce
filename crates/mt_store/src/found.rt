// Ids that a search has found.
ghost use Rattle.std.specs.Prelude.{◌≡◌, ◌<◌, [], ◌∷◌, slice_get, OnOk, IfSome};
ghost use Rattle.mt_pool.specs.Region.{branches_of, ids_of};
ghost use Rattle.mt_store.specs.Search.{Adds, bodies_of, body_ids, held_ids, types_held};

use crate::metavariables::HeldMeta;
use indexmap::IndexSet;
use mt_pool::{BranchIds, HeldHyp, TermId, TermIds};
use mt_term::{OutOfMemory, deeper};
use std::alloc::{AllocFailed, Global};
use std::marker::Model;

/// Ids without repeats, in the order in which they were found.
#[derive(Drop)]
pub(crate) struct Found {
    places: IndexSet<usize>,
}

impl Model for Found {
    ghost use Rattle.std.specs.Prelude.{List, map};
    ghost use Rattle.mt_pool.specs.declared.nodes.TermId.{TermId};
    ghost use Rattle.mt_store.specs.Search.{id_at};

    ghost Value = { List TermId };

    ghost view = { λ f. map id_at f.places.keys };
}

impl Found {
    /// No id.
    pub(crate) fn new(alloc: Global) -> Found
        ensures { result ≡ [] }
    {
        Found {
            places: IndexSet::new(alloc),
        }
    }

    /// The id at a place. A list is never so long that its last place has none after it.
    pub(crate) fn get(&self, at: usize) -> Option<TermId>
        ensures is { result ≡ slice_get self.now at }
        ensures small { IfSome result (λ _. at < usize.MAX) }
    {
        let _count = self.places.len();
        match self.places.get_index(at) {
            Some(at) => Some(TermId { at: *at }),
            None => None,
        }
    }

    /// Adds an id, if it is new.
    pub(crate) fn insert(&mut self, id: TermId) -> Result<(), OutOfMemory>
        ensures { OnOk result (Adds self.old self.new (id ∷ [])) }
    {
        self.places.insert(id.at)?;
        Ok(())
    }

    /// Adds the ids of a metavariable's terms. More than `depth_left` of them count as want of
    /// memory.
    pub(crate) fn insert_terms(
        &mut self,
        ids: &TermIds,
        depth_left: usize,
    ) -> Result<(), OutOfMemory>
        ensures { OnOk result (Adds self.old self.new (ids_of ids.now)) }
    {
        let depth_left = deeper(depth_left)?;
        match ids {
            TermIds::End => Ok(()),
            TermIds::Item(id, ids) => {
                self.insert(*id)?;
                self.insert_terms(ids, depth_left)
            }
        }
    }

    /// Adds the bodies of branches. More than `depth_left` of them count as want of memory.
    pub(crate) fn insert_bodies(
        &mut self,
        branches: &BranchIds,
        depth_left: usize,
    ) -> Result<(), OutOfMemory>
        ensures { OnOk result (Adds self.old self.new (bodies_of (branches_of branches.now))) }
    {
        let depth_left = deeper(depth_left)?;
        match branches {
            BranchIds::End => Ok(()),
            BranchIds::Item(_, body, branches) => {
                self.insert(*body)?;
                self.insert_bodies(branches, depth_left)
            }
        }
    }

    /// Adds the types of a context.
    pub(crate) fn insert_types(&mut self, context: &[HeldHyp]) -> Result<(), OutOfMemory>
        ensures { OnOk result (Adds self.old self.new (types_held context.now)) }
    {
        for hyp in context {
            self.insert(hyp.ty)?;
        }
        Ok(())
    }
    // Adds an id, where there is one.
    #[tactic(auto, using(crate::proofs::AddLaws::adding))]
    fn insert_body(&mut self, body: Option<TermId>) -> Result<(), OutOfMemory>
        ensures { OnOk result (Adds self.old self.new (body_ids body)) }
    {
        match body {
            Some(body) => self.insert(body),
            None => Ok(()),
        }
    }

    /// Adds the types in the context of a metavariable, its type and its body.
    #[tactic(auto, using(crate::proofs::AddLaws::adding))]
    pub(crate) fn insert_meta(&mut self, meta: &HeldMeta) -> Result<(), OutOfMemory>
        ensures { OnOk result (Adds self.old self.new (held_ids meta.now)) }
    {
        self.insert_types(meta.context.as_slice())?;
        self.insert(meta.ty)?;
        self.insert_body(meta.body)?;
        Ok(())
    }
}
