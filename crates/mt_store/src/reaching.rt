// What a term reaches.
ghost use Rattle.std.specs.Prelude.{◌≡◌, ◌<◌, false, length, IfOk, OnOk};
ghost use Rattle.std.specs.Bool.{Decides};
ghost use Rattle.mt_term.specs.Stores.{Reaches};
ghost use Rattle.mt_pool.specs.Region.{tree_at};
ghost use Rattle.mt_store.specs.Held.{store_in, StoreBelow};
ghost use Rattle.mt_store.specs.Search.{ids_at, is_meta, next_ids, Adds};

use crate::found::Found;
use crate::stores::Store;
use mt_pool::{Node, Pool, TermId};
use mt_term::{MAX_DEPTH, OutOfMemory};
use std::alloc::Global;

impl Store {
    // Finds what a metavariable holds, where it is there.
    #[tactic(auto, using(crate::proofs::AddLaws::adding))]
    fn expand_meta(&self, n: usize, found: &mut Found) -> Result<(), OutOfMemory>
        ensures { OnOk result (Adds found.old found.new (ids_at self.now n)) }
    {
        match self.find(n) {
            Some(meta) => found.insert_meta(meta),
            None => Ok(()),
        }
    }

    // Whether a node is metavariable `n`. If not, what it leads to is found.
    #[tactic(auto, using(crate::proofs::AddLaws::adding))]
    fn expand(&self, node: &Node, n: usize, found: &mut Found) -> Result<bool, OutOfMemory>
        ensures is { IfOk result (λ is. is ≡ is_meta n node.now) }
        ensures adds { IfOk result (λ is. is ≡ false → Adds found.old found.new (next_ids self.now node.now)) }
    {
        match node {
            Node::Var(_) | Node::Sort(_) | Node::Const(_) | Node::Ind(_) | Node::Con(_, _) => {
                return Ok(false);
            }
            Node::Prod(_, a, b) | Node::Lam(_, a, b) | Node::App(a, b) => {
                found.insert(*a)?;
                found.insert(*b)?;
            }
            Node::Match(_, r, c, branches) => {
                found.insert(*r)?;
                found.insert(*c)?;
                found.insert_bodies(branches, MAX_DEPTH)?;
            }
            Node::Meta(m, terms) => {
                if *m == n {
                    return Ok(true);
                }
                found.insert_terms(terms, MAX_DEPTH)?;
                self.expand_meta(*m, found)?;
            }
        }
        Ok(false)
    }

    /// Whether metavariable `n` stands in the term, or is reached through the context, type or body
    /// of a metavariable in it.
    pub fn reaches(
        &mut self,
        alloc: Global,
        pool: &Pool,
        t: TermId,
        n: usize,
    ) -> Result<bool, OutOfMemory>
        requires held { StoreBelow (length pool.now) self.old }
        requires t { t.at < length pool.now }
        ensures same { self.new ≡ self.old }
        ensures reaches { IfOk result (λ b. Decides b (Reaches (store_in pool.now self.old) (tree_at pool.now t) n)) }
    {
        let mut found = Found::new(alloc);
        found.insert(t)?;
        let mut at = 0;
        'search: while let Some(id) = found.get(at) {
            if self.expand(pool.node(id), n, &mut found)? {
                return Ok(true);
            }
            at += 1;
        }
        Ok(false)
    }
}
