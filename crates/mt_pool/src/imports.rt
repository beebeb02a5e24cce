// Terms into the pool.
ghost use Rattle.std.specs.Prelude.{◌≡◌, length, IfOk, OnErr};
ghost use Rattle.mt_term.specs.TreeOf.{tree_of, trees_of, arms_of};
ghost use Rattle.mt_pool.specs.Region.{trees_at, arms_at, ids_of, branches_of, AllBelow, ArmsBelow, Kept, Denotes};

use crate::nodes::{BranchIds, Node, TermId, TermIds};
use crate::pools::Pool;
use mt_term::{Branch, Branches, MAX_DEPTH, OutOfMemory, Term, Terms, deeper};
use std::alloc::Global;

impl Pool {
    /// The id of a term's tree.
    #[tactic(auto, using(crate::proofs::Region::kept, crate::proofs::Region::restored))]
    pub fn import(&mut self, alloc: Global, t: &Term) -> Result<TermId, OutOfMemory>
        ensures kept { Kept self.old self.new }
        ensures tree { IfOk result (λ u. Denotes self.new u (tree_of t.now)) }
        ensures err { OnErr result (self.new ≡ self.old) }
    {
        let held = self.len();
        let imported = self.import_within(alloc, t, MAX_DEPTH);
        self.settle(held, imported)
    }

    #[cycle(import)]
    #[tactic(auto, using(crate::proofs::Region::kept))]
    fn import_within(
        &mut self,
        alloc: Global,
        t: &Term,
        depth_left: usize,
    ) -> Result<TermId, OutOfMemory>
        ensures kept { Kept self.old self.new }
        ensures tree { IfOk result (λ u. Denotes self.new u (tree_of t.now)) }
    {
        let depth_left = deeper(depth_left)?;
        match t {
            Term::Var(i) => self.put(Node::Var(*i)),
            Term::Sort(s) => self.put(Node::Sort(s.clone()?)),
            Term::Prod(x, a, b) => {
                let x = x.clone()?;
                let a = self.import_within(alloc, a, depth_left)?;
                let b = self.import_within(alloc, b, depth_left)?;
                self.put(Node::Prod(x, a, b))
            }
            Term::Lam(x, a, b) => {
                let x = x.clone()?;
                let a = self.import_within(alloc, a, depth_left)?;
                let b = self.import_within(alloc, b, depth_left)?;
                self.put(Node::Lam(x, a, b))
            }
            Term::App(f, a) => {
                let f = self.import_within(alloc, f, depth_left)?;
                let a = self.import_within(alloc, a, depth_left)?;
                self.put(Node::App(f, a))
            }
            Term::Const(n) => self.put(Node::Const(*n)),
            Term::Ind(n) => self.put(Node::Ind(*n)),
            Term::Con(n, k) => self.put(Node::Con(*n, *k)),
            Term::Match(n, r, c, bs) => {
                let r = self.import_within(alloc, r, depth_left)?;
                let c = self.import_within(alloc, c, depth_left)?;
                let bs = self.import_branches(alloc, bs, depth_left)?;
                self.put(Node::Match(*n, r, c, bs))
            }
            Term::Meta(n, s) => {
                let s = self.import_terms(alloc, s, depth_left)?;
                self.put(Node::Meta(*n, s))
            }
        }
    }

    #[cycle(import)]
    #[tactic(auto, using(crate::proofs::Region::kept))]
    fn import_terms(
        &mut self,
        alloc: Global,
        ts: &Terms,
        depth_left: usize,
    ) -> Result<TermIds, OutOfMemory>
        ensures kept { Kept self.old self.new }
        ensures held { IfOk result (λ ks. AllBelow (length self.new) (ids_of ks)) }
        ensures trees { IfOk result (λ ks. trees_at self.new (ids_of ks) ≡ trees_of ts.now) }
    {
        let depth_left = deeper(depth_left)?;
        match ts {
            Terms::End => Ok(TermIds::End),
            Terms::Item(t, ts) => {
                let t = self.import_within(alloc, t, depth_left)?;
                let ts = Box::new(alloc, self.import_terms(alloc, ts, depth_left)?)?;
                Ok(TermIds::Item(t, ts))
            }
        }
    }

    #[cycle(import)]
    #[tactic(auto, using(crate::proofs::Region::kept))]
    fn import_branches(
        &mut self,
        alloc: Global,
        bs: &Branches,
        depth_left: usize,
    ) -> Result<BranchIds, OutOfMemory>
        ensures kept { Kept self.old self.new }
        ensures held { IfOk result (λ ks. ArmsBelow (length self.new) (branches_of ks)) }
        ensures arms { IfOk result (λ ks. arms_at self.new (branches_of ks) ≡ arms_of bs.now) }
    {
        let depth_left = deeper(depth_left)?;
        match bs {
            Branches::End => Ok(BranchIds::End),
            Branches::Item(b, bs) => {
                let branch = b;
                let names = branch.names.clone()?;
                let body = self.import_within(alloc, &branch.body, depth_left)?;
                let bs = Box::new(alloc, self.import_branches(alloc, bs, depth_left)?)?;
                Ok(BranchIds::Item(names, body, bs))
            }
        }
    }
}
