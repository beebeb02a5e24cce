// Lifting on ids.
ghost use Rattle.std.specs.Prelude.{◌≡◌, ◌<◌, length, IfOk, OnErr};
ghost use Rattle.mt_term.specs.Passing.{lift_past, lift_past_all, lift_past_arms};
ghost use Rattle.mt_term.specs.Lifting.{lift as lift_of};
ghost use Rattle.mt_pool.specs.Region.{tree_at, trees_at, arms_at, ids_of, branches_of, AllBelow, ArmsBelow, Kept, Denotes};

use crate::copies::{copy_branches, copy_ids, past};
use crate::nodes::{BranchIds, Node, TermId, TermIds};
use crate::pools::Pool;
use mt_term::{MAX_DEPTH, OutOfMemory, deeper};
use std::alloc::Global;

impl Pool {
    /// The term with its variables from `from` on raised by `by`. An index past the largest number
    /// counts as want of memory.
    #[tactic(auto, using(crate::proofs::Region::kept, crate::proofs::Region::restored, mt_term::proofs::Passed::lift_passed))]
    pub fn lift(
        &mut self,
        alloc: Global,
        t: TermId,
        by: usize,
        from: usize,
    ) -> Result<TermId, OutOfMemory>
        requires { t.at < length self.old }
        ensures kept { Kept self.old self.new }
        ensures tree { IfOk result (λ u. Denotes self.new u (lift_of by from (tree_at self.old t))) }
        ensures err { OnErr result (self.new ≡ self.old) }
    {
        let held = self.len();
        let lifted = self.lift_within(alloc, t, by, from, MAX_DEPTH);
        self.settle(held, lifted)
    }

    #[cycle(lift)]
    #[tactic(auto, using(crate::proofs::Region::kept))]
    pub(crate) fn lift_within(
        &mut self,
        alloc: Global,
        t: TermId,
        by: usize,
        from: usize,
        depth_left: usize,
    ) -> Result<TermId, OutOfMemory>
        requires { t.at < length self.old }
        ensures kept { Kept self.old self.new }
        ensures tree { IfOk result (λ u. Denotes self.new u (lift_past by from (tree_at self.old t))) }
    {
        let depth_left = deeper(depth_left)?;
        match self.node(t) {
            Node::Var(i) => {
                let i = *i;
                if i < from {
                    Ok(t)
                } else {
                    self.put(Node::Var(past(i, by)?))
                }
            }
            Node::Prod(x, a, b) => {
                let x = x.clone()?;
                let a = *a;
                let b = *b;
                let a = self.lift_within(alloc, a, by, from, depth_left)?;
                let b = self.lift_within(alloc, b, by, past(from, 1)?, depth_left)?;
                self.put(Node::Prod(x, a, b))
            }
            Node::Lam(x, a, b) => {
                let x = x.clone()?;
                let a = *a;
                let b = *b;
                let a = self.lift_within(alloc, a, by, from, depth_left)?;
                let b = self.lift_within(alloc, b, by, past(from, 1)?, depth_left)?;
                self.put(Node::Lam(x, a, b))
            }
            Node::App(f, a) => {
                let f = *f;
                let a = *a;
                let f = self.lift_within(alloc, f, by, from, depth_left)?;
                let a = self.lift_within(alloc, a, by, from, depth_left)?;
                self.put(Node::App(f, a))
            }
            Node::Match(n, r, c, bs) => {
                let n = *n;
                let r = *r;
                let c = *c;
                let bs = copy_branches(alloc, bs, depth_left)?;
                let r = self.lift_within(alloc, r, by, from, depth_left)?;
                let c = self.lift_within(alloc, c, by, from, depth_left)?;
                let bs = self.lift_branches(alloc, &bs, by, from, depth_left)?;
                self.put(Node::Match(n, r, c, bs))
            }
            Node::Meta(n, s) => {
                let n = *n;
                let s = copy_ids(alloc, s, depth_left)?;
                let s = self.lift_ids(alloc, &s, by, from, depth_left)?;
                self.put(Node::Meta(n, s))
            }
            Node::Sort(_) | Node::Const(_) | Node::Ind(_) | Node::Con(_, _) => Ok(t),
        }
    }

    #[cycle(lift)]
    #[tactic(auto, using(crate::proofs::Region::kept))]
    fn lift_ids(
        &mut self,
        alloc: Global,
        ids: &TermIds,
        by: usize,
        from: usize,
        depth_left: usize,
    ) -> Result<TermIds, OutOfMemory>
        requires { AllBelow (length self.old) (ids_of ids.now) }
        ensures kept { Kept self.old self.new }
        ensures held { IfOk result (λ ks. AllBelow (length self.new) (ids_of ks)) }
        ensures trees { IfOk result (λ ks. trees_at self.new (ids_of ks) ≡ lift_past_all by from (trees_at self.old (ids_of ids.now))) }
    {
        let depth_left = deeper(depth_left)?;
        match ids {
            TermIds::End => Ok(TermIds::End),
            TermIds::Item(t, ts) => {
                let t = self.lift_within(alloc, *t, by, from, depth_left)?;
                let ts = Box::new(alloc, self.lift_ids(alloc, ts, by, from, depth_left)?)?;
                Ok(TermIds::Item(t, ts))
            }
        }
    }

    #[cycle(lift)]
    #[tactic(auto, using(crate::proofs::Region::kept))]
    fn lift_branches(
        &mut self,
        alloc: Global,
        branches: &BranchIds,
        by: usize,
        from: usize,
        depth_left: usize,
    ) -> Result<BranchIds, OutOfMemory>
        requires { ArmsBelow (length self.old) (branches_of branches.now) }
        ensures kept { Kept self.old self.new }
        ensures held { IfOk result (λ bs. ArmsBelow (length self.new) (branches_of bs)) }
        ensures arms { IfOk result (λ bs. arms_at self.new (branches_of bs) ≡ lift_past_arms by from (arms_at self.old (branches_of branches.now))) }
    {
        let depth_left = deeper(depth_left)?;
        match branches {
            BranchIds::End => Ok(BranchIds::End),
            BranchIds::Item(names, body, bs) => {
                let inner = past(from, names.len())?;
                let names = names.clone()?;
                let body = self.lift_within(alloc, *body, by, inner, depth_left)?;
                let bs = Box::new(alloc, self.lift_branches(alloc, bs, by, from, depth_left)?)?;
                Ok(BranchIds::Item(names, body, bs))
            }
        }
    }
}
