// Terms out of the pool.
ghost use Rattle.std.specs.Prelude.{◌≡◌, ◌<◌, length, IfOk};
ghost use Rattle.mt_term.specs.TreeOf.{tree_of, trees_of, arms_of};
ghost use Rattle.mt_pool.specs.Region.{tree_at, trees_at, arms_at, ids_of, branches_of, AllBelow, ArmsBelow};

use crate::nodes::{BranchIds, Node, TermId, TermIds};
use crate::pools::Pool;
use mt_term::{Branch, Branches, MAX_DEPTH, OutOfMemory, Term, Terms, deeper};
use std::alloc::Global;

impl Pool {
    /// The term that an id names.
    pub fn export(&self, alloc: Global, t: TermId) -> Result<Term, OutOfMemory>
        requires { t.at < length self.now }
        ensures { IfOk result (λ u. tree_of u ≡ tree_at self.now t) }
    {
        self.export_within(alloc, t, MAX_DEPTH)
    }

    #[cycle(export)]
    #[tactic(auto, using(crate::proofs::Region::kept))]
    fn export_within(
        &self,
        alloc: Global,
        t: TermId,
        depth_left: usize,
    ) -> Result<Term, OutOfMemory>
        requires { t.at < length self.now }
        ensures { IfOk result (λ u. tree_of u ≡ tree_at self.now t) }
    {
        let depth_left = deeper(depth_left)?;
        match self.node(t) {
            Node::Var(i) => Ok(Term::Var(*i)),
            Node::Sort(s) => Ok(Term::Sort(s.clone()?)),
            Node::Prod(x, a, b) => {
                let x = x.clone()?;
                let a = Box::new(alloc, self.export_within(alloc, *a, depth_left)?)?;
                let b = Box::new(alloc, self.export_within(alloc, *b, depth_left)?)?;
                Ok(Term::Prod(x, a, b))
            }
            Node::Lam(x, a, b) => {
                let x = x.clone()?;
                let a = Box::new(alloc, self.export_within(alloc, *a, depth_left)?)?;
                let b = Box::new(alloc, self.export_within(alloc, *b, depth_left)?)?;
                Ok(Term::Lam(x, a, b))
            }
            Node::App(f, a) => {
                let f = Box::new(alloc, self.export_within(alloc, *f, depth_left)?)?;
                let a = Box::new(alloc, self.export_within(alloc, *a, depth_left)?)?;
                Ok(Term::App(f, a))
            }
            Node::Const(n) => Ok(Term::Const(*n)),
            Node::Ind(n) => Ok(Term::Ind(*n)),
            Node::Con(n, k) => Ok(Term::Con(*n, *k)),
            Node::Match(n, r, c, bs) => {
                let r = Box::new(alloc, self.export_within(alloc, *r, depth_left)?)?;
                let c = Box::new(alloc, self.export_within(alloc, *c, depth_left)?)?;
                let bs = self.export_branches(alloc, bs, depth_left)?;
                Ok(Term::Match(*n, r, c, bs))
            }
            Node::Meta(n, s) => Ok(Term::Meta(*n, self.export_ids(alloc, s, depth_left)?)),
        }
    }

    #[cycle(export)]
    #[tactic(auto, using(crate::proofs::Region::kept))]
    fn export_ids(
        &self,
        alloc: Global,
        ids: &TermIds,
        depth_left: usize,
    ) -> Result<Terms, OutOfMemory>
        requires { AllBelow (length self.now) (ids_of ids.now) }
        ensures { IfOk result (λ ts. trees_of ts ≡ trees_at self.now (ids_of ids.now)) }
    {
        let depth_left = deeper(depth_left)?;
        match ids {
            TermIds::End => Ok(Terms::End),
            TermIds::Item(t, ts) => {
                let t = Box::new(alloc, self.export_within(alloc, *t, depth_left)?)?;
                let ts = Box::new(alloc, self.export_ids(alloc, ts, depth_left)?)?;
                Ok(Terms::Item(t, ts))
            }
        }
    }

    #[cycle(export)]
    #[tactic(auto, using(crate::proofs::Region::kept))]
    fn export_branches(
        &self,
        alloc: Global,
        branches: &BranchIds,
        depth_left: usize,
    ) -> Result<Branches, OutOfMemory>
        requires { ArmsBelow (length self.now) (branches_of branches.now) }
        ensures { IfOk result (λ bs. arms_of bs ≡ arms_at self.now (branches_of branches.now)) }
    {
        let depth_left = deeper(depth_left)?;
        match branches {
            BranchIds::End => Ok(Branches::End),
            BranchIds::Item(names, body, bs) => {
                let names = names.clone()?;
                let body = self.export_within(alloc, *body, depth_left)?;
                let b = Box::new(alloc, Branch { names, body })?;
                let bs = Box::new(alloc, self.export_branches(alloc, bs, depth_left)?)?;
                Ok(Branches::Item(b, bs))
            }
        }
    }
}
