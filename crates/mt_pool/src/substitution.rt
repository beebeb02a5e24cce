// Substitution on ids.
ghost use Rattle.std.specs.Prelude.{◌≡◌, ◌<◌, length, IfOk, OnErr};
ghost use Rattle.mt_term.specs.Passing.{sub_past, sub_past_all, sub_past_arms};
ghost use Rattle.mt_term.specs.Substitution.{fill, sub, under as under_of};
ghost use Rattle.mt_term.specs.Lifting.{substitute as substitute_of};
ghost use Rattle.mt_term.specs.Trees.{Var};
ghost use Rattle.mt_pool.specs.Region.{tree_at, trees_at, arms_at, ids_of, branches_of, AllBelow, ArmsBelow, Kept, Denotes};
ghost use Rattle.mt_pool.specs.Replaced.{replacement_in, ReplacementBelow};

use crate::copies::{copy_branches, copy_ids, past};
use crate::nodes::{BranchIds, Node, TermId, TermIds};
use crate::pools::Pool;
use crate::replacement::Replacement;
use mt_term::{MAX_DEPTH, OutOfMemory, deeper};
use std::alloc::Global;

impl Pool {
    /// The term with `u` for variable `at`, lifted by all that it passes, and the variables past
    /// `at` going down by one. An index past the largest number counts as want of memory.
    #[tactic(auto, using(crate::proofs::Region::kept, crate::proofs::Region::restored, mt_term::proofs::Passed::substitute_passed))]
    pub fn substitute(
        &mut self,
        alloc: Global,
        t: TermId,
        at: usize,
        u: TermId,
    ) -> Result<TermId, OutOfMemory>
        requires t { t.at < length self.old }
        requires u { u.at < length self.old }
        ensures kept { Kept self.old self.new }
        ensures tree { IfOk result (λ v. Denotes self.new v (substitute_of at (tree_at self.old u) (tree_at self.old t))) }
        ensures err { OnErr result (self.new ≡ self.old) }
    {
        let held = self.len();
        let made = self.substitute_within(alloc, t, at, Replacement::One(u), MAX_DEPTH);
        self.settle(held, made)
    }

    /// The term with the terms of `s`, the oldest first, for its free variables, each lifted by all
    /// that it passes. Prop stands for a variable past them. An index past the largest number
    /// counts as want of memory.
    #[tactic(auto, using(crate::proofs::Region::kept, crate::proofs::Region::restored, mt_term::proofs::Passed::under_passed))]
    pub fn under(&mut self, alloc: Global, t: TermId, s: &[TermId]) -> Result<TermId, OutOfMemory>
        requires t { t.at < length self.old }
        requires s { AllBelow (length self.old) s.now }
        ensures kept { Kept self.old self.new }
        ensures tree { IfOk result (λ v. Denotes self.new v (under_of (trees_at self.old s.now) (tree_at self.old t))) }
        ensures err { OnErr result (self.new ≡ self.old) }
    {
        let held = self.len();
        let made = self.substitute_within(alloc, t, 0, Replacement::Under(s), MAX_DEPTH);
        self.settle(held, made)
    }

    /// A branch's body with the terms of `s`, the oldest first, for its newest variables, the
    /// others going down by as many. An index past the largest number counts as want of memory.
    #[tactic(auto, using(crate::proofs::Region::kept, crate::proofs::Region::restored, mt_term::proofs::Passed::filled_passed))]
    pub fn fill(&mut self, alloc: Global, t: TermId, s: &[TermId]) -> Result<TermId, OutOfMemory>
        requires t { t.at < length self.old }
        requires s { AllBelow (length self.old) s.now }
        ensures kept { Kept self.old self.new }
        ensures tree { IfOk result (λ v. Denotes self.new v (sub (fill (trees_at self.old s.now) Var) (tree_at self.old t))) }
        ensures err { OnErr result (self.new ≡ self.old) }
    {
        let held = self.len();
        let made = self.substitute_within(alloc, t, 0, Replacement::Filled(s), MAX_DEPTH);
        self.settle(held, made)
    }

    #[cycle(substitute)]
    #[tactic(auto, using(crate::proofs::Region::kept, crate::proofs::Replaced::replaced))]
    fn substitute_within(
        &mut self,
        alloc: Global,
        t: TermId,
        binders: usize,
        by: Replacement<'_>,
        depth_left: usize,
    ) -> Result<TermId, OutOfMemory>
        requires t { t.at < length self.old }
        requires by { ReplacementBelow (length self.old) by }
        ensures kept { Kept self.old self.new }
        ensures tree { IfOk result (λ v. Denotes self.new v (sub_past binders (replacement_in self.old by.entry) (tree_at self.old t))) }
    {
        let depth_left = deeper(depth_left)?;
        match self.node(t) {
            Node::Var(i) => {
                let i = *i;
                if i < binders {
                    Ok(t)
                } else {
                    self.term_for_variable(alloc, by, i, binders, depth_left)
                }
            }
            Node::Prod(x, a, b) => {
                let x = x.clone()?;
                let a = *a;
                let b = *b;
                let a = self.substitute_within(alloc, a, binders, by, depth_left)?;
                let b = self.substitute_within(alloc, b, past(binders, 1)?, by, depth_left)?;
                self.put(Node::Prod(x, a, b))
            }
            Node::Lam(x, a, b) => {
                let x = x.clone()?;
                let a = *a;
                let b = *b;
                let a = self.substitute_within(alloc, a, binders, by, depth_left)?;
                let b = self.substitute_within(alloc, b, past(binders, 1)?, by, depth_left)?;
                self.put(Node::Lam(x, a, b))
            }
            Node::App(f, a) => {
                let f = *f;
                let a = *a;
                let f = self.substitute_within(alloc, f, binders, by, depth_left)?;
                let a = self.substitute_within(alloc, a, binders, by, depth_left)?;
                self.put(Node::App(f, a))
            }
            Node::Match(n, r, c, bs) => {
                let n = *n;
                let r = *r;
                let c = *c;
                let bs = copy_branches(alloc, bs, depth_left)?;
                let r = self.substitute_within(alloc, r, binders, by, depth_left)?;
                let c = self.substitute_within(alloc, c, binders, by, depth_left)?;
                let bs = self.substitute_branches(alloc, &bs, binders, by, depth_left)?;
                self.put(Node::Match(n, r, c, bs))
            }
            Node::Meta(n, s) => {
                let n = *n;
                let s = copy_ids(alloc, s, depth_left)?;
                let s = self.substitute_ids(alloc, &s, binders, by, depth_left)?;
                self.put(Node::Meta(n, s))
            }
            Node::Sort(_) | Node::Const(_) | Node::Ind(_) | Node::Con(_, _) => Ok(t),
        }
    }

    #[cycle(substitute)]
    #[tactic(auto, using(crate::proofs::Region::kept, crate::proofs::Replaced::replaced))]
    fn substitute_ids(
        &mut self,
        alloc: Global,
        ids: &TermIds,
        binders: usize,
        by: Replacement<'_>,
        depth_left: usize,
    ) -> Result<TermIds, OutOfMemory>
        requires ids { AllBelow (length self.old) (ids_of ids.now) }
        requires by { ReplacementBelow (length self.old) by }
        ensures kept { Kept self.old self.new }
        ensures held { IfOk result (λ ks. AllBelow (length self.new) (ids_of ks)) }
        ensures trees { IfOk result (λ ks. trees_at self.new (ids_of ks) ≡ sub_past_all binders (replacement_in self.old by.entry) (trees_at self.old (ids_of ids.now))) }
    {
        let depth_left = deeper(depth_left)?;
        match ids {
            TermIds::End => Ok(TermIds::End),
            TermIds::Item(t, ts) => {
                let t = self.substitute_within(alloc, *t, binders, by, depth_left)?;
                let ts = Box::new(
                    alloc,
                    self.substitute_ids(alloc, ts, binders, by, depth_left)?,
                )?;
                Ok(TermIds::Item(t, ts))
            }
        }
    }

    #[cycle(substitute)]
    #[tactic(auto, using(crate::proofs::Region::kept, crate::proofs::Replaced::replaced))]
    fn substitute_branches(
        &mut self,
        alloc: Global,
        branches: &BranchIds,
        binders: usize,
        by: Replacement<'_>,
        depth_left: usize,
    ) -> Result<BranchIds, OutOfMemory>
        requires branches { ArmsBelow (length self.old) (branches_of branches.now) }
        requires by { ReplacementBelow (length self.old) by }
        ensures kept { Kept self.old self.new }
        ensures held { IfOk result (λ bs. ArmsBelow (length self.new) (branches_of bs)) }
        ensures arms { IfOk result (λ bs. arms_at self.new (branches_of bs) ≡ sub_past_arms binders (replacement_in self.old by.entry) (arms_at self.old (branches_of branches.now))) }
    {
        let depth_left = deeper(depth_left)?;
        match branches {
            BranchIds::End => Ok(BranchIds::End),
            BranchIds::Item(names, body, bs) => {
                let inner = past(binders, names.len())?;
                let names = names.clone()?;
                let body = self.substitute_within(alloc, *body, inner, by, depth_left)?;
                let bs = Box::new(
                    alloc,
                    self.substitute_branches(alloc, bs, binders, by, depth_left)?,
                )?;
                Ok(BranchIds::Item(names, body, bs))
            }
        }
    }
}
