// Equality but for binder names, on ids.
ghost use Rattle.std.specs.Prelude.{◌≡◌, ◌<◌, length};
ghost use Rattle.mt_term.specs.Alike.{alike as alike_trees, alike_all, alike_arms, is_alike, same_atoms, same_sort};
ghost use Rattle.mt_pool.specs.Region.{tree_at, trees_at, arms_at, tree_in, ids_of, branches_of, AllBelow, ArmsBelow, Below};

use crate::nodes::{BranchIds, Node, TermId, TermIds};
use crate::pools::Pool;
use mt_term::{Atom, Sort};

fn have_same_atoms(a: &[Atom], b: &[Atom]) -> bool
    ensures { result ≡ same_atoms a.now b.now }
{
    let mut left = a;
    let mut right = b;
    while let [x, xs @ ..] = left {
        let [y, ys @ ..] = right else {
            return false;
        };
        if x.name != y.name || x.offset != y.offset {
            return false;
        }
        left = xs;
        right = ys;
    }
    right.is_empty()
}

fn are_same_sort(s: &Sort, r: &Sort) -> bool
    ensures { result ≡ same_sort s.now r.now }
{
    match (s, r) {
        (Sort::Prop, Sort::Prop) => true,
        (Sort::Typ(u), Sort::Typ(v)) => {
            u.base == v.base && have_same_atoms(u.atoms.as_slice(), v.atoms.as_slice())
        }
        _ => false,
    }
}

impl Pool {
    /// Whether the terms of two ids are equal but for binder names.
    #[tactic(auto, unfolding(mt_term::specs::Alike::is_alike))]
    pub fn alike(&self, t: TermId, u: TermId) -> bool
        requires t { t.at < length self.now }
        requires u { u.at < length self.now }
        ensures { result ≡ is_alike (tree_at self.now t) (tree_at self.now u) }
    {
        self.alike_ids(t, u)
    }

    #[cycle(alike)]
    #[tactic(auto, using(crate::proofs::Region::kept))]
    fn alike_ids(&self, t: TermId, u: TermId) -> bool
        requires t { t.at < length self.now }
        requires u { u.at < length self.now }
        ensures { result ≡ alike_trees (tree_at self.now t) (tree_at self.now u) }
    {
        self.alike_nodes(self.node(t), self.node(u))
    }

    #[cycle(alike)]
    #[tactic(auto, using(crate::proofs::Region::kept))]
    fn alike_nodes(&self, t: &Node, u: &Node) -> bool
        requires t { Below (length self.now) t.now }
        requires u { Below (length self.now) u.now }
        ensures { result ≡ alike_trees (tree_in self.now t.now) (tree_in self.now u.now) }
    {
        match (t, u) {
            (Node::Var(i), Node::Var(j)) => *i == *j,
            (Node::Sort(s), Node::Sort(r)) => are_same_sort(s, r),
            (Node::Prod(_, a, b), Node::Prod(_, c, d)) => {
                self.alike_ids(*a, *c) && self.alike_ids(*b, *d)
            }
            (Node::Lam(_, a, b), Node::Lam(_, c, d)) => {
                self.alike_ids(*a, *c) && self.alike_ids(*b, *d)
            }
            (Node::App(f, a), Node::App(g, b)) => {
                self.alike_ids(*f, *g) && self.alike_ids(*a, *b)
            }
            (Node::Const(c), Node::Const(d)) => *c == *d,
            (Node::Ind(e), Node::Ind(d)) => *e == *d,
            (Node::Con(e, k), Node::Con(d, j)) => *e == *d && *k == *j,
            (Node::Match(e, r, c, bs), Node::Match(d, p, t, cs)) => {
                *e == *d
                    && self.alike_ids(*r, *p)
                    && self.alike_ids(*c, *t)
                    && self.alike_branches(bs, cs)
            }
            (Node::Meta(n, s), Node::Meta(m, r)) => *n == *m && self.alike_lists(s, r),
            _ => false,
        }
    }

    #[cycle(alike)]
    #[tactic(auto, using(crate::proofs::Region::kept))]
    fn alike_lists(&self, ts: &TermIds, us: &TermIds) -> bool
        requires ts { AllBelow (length self.now) (ids_of ts.now) }
        requires us { AllBelow (length self.now) (ids_of us.now) }
        ensures { result ≡ alike_all (trees_at self.now (ids_of ts.now)) (trees_at self.now (ids_of us.now)) }
    {
        match (ts, us) {
            (TermIds::End, TermIds::End) => true,
            (TermIds::Item(t, ts), TermIds::Item(u, us)) => {
                self.alike_ids(*t, *u) && self.alike_lists(ts, us)
            }
            _ => false,
        }
    }

    #[cycle(alike)]
    #[tactic(auto, using(crate::proofs::Region::kept))]
    fn alike_branches(&self, bs: &BranchIds, cs: &BranchIds) -> bool
        requires bs { ArmsBelow (length self.now) (branches_of bs.now) }
        requires cs { ArmsBelow (length self.now) (branches_of cs.now) }
        ensures { result ≡ alike_arms (arms_at self.now (branches_of bs.now)) (arms_at self.now (branches_of cs.now)) }
    {
        match (bs, cs) {
            (BranchIds::End, BranchIds::End) => true,
            (BranchIds::Item(xs, b, bs), BranchIds::Item(ys, c, cs)) => {
                xs.len() == ys.len() && self.alike_ids(*b, *c) && self.alike_branches(bs, cs)
            }
            _ => false,
        }
    }
}
