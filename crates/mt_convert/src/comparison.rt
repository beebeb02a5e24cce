// The comparison of two terms.
ghost use Rattle.std.specs.Prelude.{◌≡◌, ◌<◌, ◌+◌, length, List, IfErr, IfOk};
ghost use Rattle.mt_layers.specs.Environments.{environment_in, EnvBelow};
ghost use Rattle.mt_layers.specs.Stops.{IsNoRefusal};
ghost use Rattle.mt_rules.specs.Answers.{Answers};
ghost use Rattle.mt_pool.specs.Region.{arms_at, branches_of, ids_of, tree_at, tree_in, trees_at, AllBelow, ArmsBelow, Below, Kept};
ghost use Rattle.mt_store.specs.Held.{store_in, StoreBelow};
ghost use Rattle.mt_rules_laws.proofs.ComparisonRules.{matches};
ghost use Rattle.mt_rules.specs.Comparison.{bodies, convert, heads, same_shapes, spines, terms};
ghost use Rattle.mt_term.specs.Trees.{Tree};

use crate::sorts::sorts_fit;
use mt_layers::{Whd, Work, copy_node};
use mt_pool::{BranchIds, Node, TermId, TermIds};
use mt_term::{Mode, OutOfMemory, Stop, deeper};
use mt_text::{Ledger, Steps};
use std::alloc::Global;

/// Whether the two are convertible in the mode. Recurses at most `depth_left` levels.
#[cycle(convert)]
#[tactic(auto, using(crate::proofs::Held::convert_held, mt_rules_laws::proofs::ComparisonRules::convert_rules))]
pub fn convert<W: Whd, L: Ledger>(
    h: &W,
    alloc: Global,
    w: &mut Work<'_>,
    mode: Mode,
    t: TermId,
    u: TermId,
    depth_left: usize,
    steps: &mut Steps<L>,
) -> Result<bool, Stop>
    requires first { t.at < length w.old.pool.now }
    requires second { u.at < length w.old.pool.now }
    requires env_held { EnvBelow (length w.old.pool.now) w.old.env.now }
    requires store_held { StoreBelow (length w.old.pool.now) w.old.store.now }
    ensures same_pool { w.new.pool.ghost_name ≡ w.old.pool.ghost_name }
    ensures env { w.new.env ≡ w.old.env }
    ensures store { w.new.store ≡ w.old.store }
    ensures kept { Kept w.old.pool.now w.new.pool.now }
    ensures outcome { Answers (λ b. b) (convert (environment_in w.old.pool.now w.old.env.now) (store_in w.old.pool.now w.old.store.now) mode (tree_at w.old.pool.now t) (tree_at w.old.pool.now u) w.old.left) w.new.left result }
    ensures unrefused { IfErr result (λ e. IsNoRefusal e) }
    ensures cost { steps.new + w.new.left ≡ steps.old + w.old.left }
{
    let depth_left = deeper(depth_left)?;
    w.charge(steps)?;
    if w.pool.alike(t, u) {
        return Ok(true);
    }
    let t = h.whd(alloc, w, t, steps)?;
    let u = h.whd(alloc, w, u, steps)?;
    same_heads_at(h, alloc, w, mode, t, u, depth_left, steps)
}

/// Whether two weak heads, by their ids, are convertible.
#[cycle(convert)]
#[tactic(auto, using(crate::proofs::Held::heads_held))]
fn same_heads_at<W: Whd, L: Ledger>(
    h: &W,
    alloc: Global,
    w: &mut Work<'_>,
    mode: Mode,
    t: TermId,
    u: TermId,
    depth_left: usize,
    steps: &mut Steps<L>,
) -> Result<bool, Stop>
    requires first { t.at < length w.old.pool.now }
    requires second { u.at < length w.old.pool.now }
    requires env_held { EnvBelow (length w.old.pool.now) w.old.env.now }
    requires store_held { StoreBelow (length w.old.pool.now) w.old.store.now }
    ensures same_pool { w.new.pool.ghost_name ≡ w.old.pool.ghost_name }
    ensures env { w.new.env ≡ w.old.env }
    ensures store { w.new.store ≡ w.old.store }
    ensures kept { Kept w.old.pool.now w.new.pool.now }
    ensures outcome { Answers (λ b. b) (heads (environment_in w.old.pool.now w.old.env.now) (store_in w.old.pool.now w.old.store.now) mode (tree_at w.old.pool.now t) (tree_at w.old.pool.now u) w.old.left) w.new.left result }
    ensures unrefused { IfErr result (λ e. IsNoRefusal e) }
    ensures cost { steps.new + w.new.left ≡ steps.old + w.old.left }
{
    let depth_left = deeper(depth_left)?;
    let head = copy_node(alloc, w.pool, t)?;
    let other = copy_node(alloc, w.pool, u)?;
    same_heads(h, alloc, w, mode, &head, &other, depth_left, steps)
}

/// Whether two weak heads are convertible.
#[cycle(convert)]
#[tactic(auto, using(crate::proofs::Held::convert_held, mt_rules_laws::proofs::ComparisonRules::heads_rules, mt_rules_laws::proofs::ComparisonApart::apart_rules))]
fn same_heads<W: Whd, L: Ledger>(
    h: &W,
    alloc: Global,
    w: &mut Work<'_>,
    mode: Mode,
    t: &Node,
    u: &Node,
    depth_left: usize,
    steps: &mut Steps<L>,
) -> Result<bool, Stop>
    requires first { Below (length w.old.pool.now) t.now }
    requires second { Below (length w.old.pool.now) u.now }
    requires env_held { EnvBelow (length w.old.pool.now) w.old.env.now }
    requires store_held { StoreBelow (length w.old.pool.now) w.old.store.now }
    ensures same_pool { w.new.pool.ghost_name ≡ w.old.pool.ghost_name }
    ensures env { w.new.env ≡ w.old.env }
    ensures store { w.new.store ≡ w.old.store }
    ensures kept { Kept w.old.pool.now w.new.pool.now }
    ensures outcome { Answers (λ b. b) (heads (environment_in w.old.pool.now w.old.env.now) (store_in w.old.pool.now w.old.store.now) mode (tree_in w.old.pool.now t.now) (tree_in w.old.pool.now u.now) w.old.left) w.new.left result }
    ensures unrefused { IfErr result (λ e. IsNoRefusal e) }
    ensures cost { steps.new + w.new.left ≡ steps.old + w.old.left }
{
    let depth_left = deeper(depth_left)?;
    match (t, u) {
        (Node::Sort(s), Node::Sort(r)) => Ok(sorts_fit(w.env, mode, s, r)),
        (Node::Prod(_, a, b), Node::Prod(_, c, d)) => {
            if !convert(h, alloc, w, Mode::Equal, *a, *c, depth_left, steps)? {
                return Ok(false);
            }
            convert(h, alloc, w, mode, *b, *d, depth_left, steps)
        }
        (Node::Lam(_, a, b), Node::Lam(_, c, d)) => {
            if !convert(h, alloc, w, Mode::Equal, *a, *c, depth_left, steps)? {
                return Ok(false);
            }
            convert(h, alloc, w, Mode::Equal, *b, *d, depth_left, steps)
        }
        (Node::Sort(_), _) => Ok(false),
        (Node::Prod(..), _) => Ok(false),
        (Node::Lam(..), _) => Ok(false),
        _ => same_spine(h, alloc, w, t, u, depth_left, steps),
    }
}

/// Whether two heads on arguments, by their ids, are the same head on convertible arguments.
#[cycle(convert)]
#[tactic(auto, using(crate::proofs::Held::spines_held))]
fn same_spine_at<W: Whd, L: Ledger>(
    h: &W,
    alloc: Global,
    w: &mut Work<'_>,
    t: TermId,
    u: TermId,
    depth_left: usize,
    steps: &mut Steps<L>,
) -> Result<bool, Stop>
    requires first { t.at < length w.old.pool.now }
    requires second { u.at < length w.old.pool.now }
    requires env_held { EnvBelow (length w.old.pool.now) w.old.env.now }
    requires store_held { StoreBelow (length w.old.pool.now) w.old.store.now }
    ensures same_pool { w.new.pool.ghost_name ≡ w.old.pool.ghost_name }
    ensures env { w.new.env ≡ w.old.env }
    ensures store { w.new.store ≡ w.old.store }
    ensures kept { Kept w.old.pool.now w.new.pool.now }
    ensures outcome { Answers (λ b. b) (spines (environment_in w.old.pool.now w.old.env.now) (store_in w.old.pool.now w.old.store.now) (tree_at w.old.pool.now t) (tree_at w.old.pool.now u) w.old.left) w.new.left result }
    ensures unrefused { IfErr result (λ e. IsNoRefusal e) }
    ensures cost { steps.new + w.new.left ≡ steps.old + w.old.left }
{
    let depth_left = deeper(depth_left)?;
    let head = copy_node(alloc, w.pool, t)?;
    let other = copy_node(alloc, w.pool, u)?;
    same_spine(h, alloc, w, &head, &other, depth_left, steps)
}

/// Whether two heads on arguments are the same head on convertible arguments.
#[cycle(convert)]
#[tactic(auto, using(crate::proofs::Held::convert_held, crate::proofs::Apart::spine_rules))]
fn same_spine<W: Whd, L: Ledger>(
    h: &W,
    alloc: Global,
    w: &mut Work<'_>,
    t: &Node,
    u: &Node,
    depth_left: usize,
    steps: &mut Steps<L>,
) -> Result<bool, Stop>
    requires first { Below (length w.old.pool.now) t.now }
    requires second { Below (length w.old.pool.now) u.now }
    requires env_held { EnvBelow (length w.old.pool.now) w.old.env.now }
    requires store_held { StoreBelow (length w.old.pool.now) w.old.store.now }
    ensures same_pool { w.new.pool.ghost_name ≡ w.old.pool.ghost_name }
    ensures env { w.new.env ≡ w.old.env }
    ensures store { w.new.store ≡ w.old.store }
    ensures kept { Kept w.old.pool.now w.new.pool.now }
    ensures outcome { Answers (λ b. b) (spines (environment_in w.old.pool.now w.old.env.now) (store_in w.old.pool.now w.old.store.now) (tree_in w.old.pool.now t.now) (tree_in w.old.pool.now u.now) w.old.left) w.new.left result }
    ensures unrefused { IfErr result (λ e. IsNoRefusal e) }
    ensures cost { steps.new + w.new.left ≡ steps.old + w.old.left }
{
    let depth_left = deeper(depth_left)?;
    match (t, u) {
        (Node::Var(i), Node::Var(j)) => Ok(*i == *j),
        (Node::Const(c), Node::Const(d)) => Ok(*c == *d),
        (Node::Ind(e), Node::Ind(d)) => Ok(*e == *d),
        (Node::Con(e, k), Node::Con(d, j)) => Ok(*e == *d && *k == *j),
        (Node::App(f, a), Node::App(g, b)) => {
            if !same_spine_at(h, alloc, w, *f, *g, depth_left, steps)? {
                return Ok(false);
            }
            convert(h, alloc, w, Mode::Equal, *a, *b, depth_left, steps)
        }
        (Node::Meta(n, s), Node::Meta(m, r)) => {
            if *n != *m {
                return Ok(false);
            }
            same_terms(h, alloc, w, s, r, depth_left, steps)
        }
        (Node::Match(e, r, c, bs), Node::Match(d, p, t, cs)) => {
            if *e != *d || !same_shapes(bs, cs, depth_left)? {
                return Ok(false);
            }
            if !convert(h, alloc, w, Mode::Equal, *r, *p, depth_left, steps)? {
                return Ok(false);
            }
            same_matched(h, alloc, w, *c, *t, bs, cs, depth_left, steps)
        }
        (Node::Var(_), _) => Ok(false),
        (Node::Const(_), _) => Ok(false),
        (Node::Ind(_), _) => Ok(false),
        (Node::Con(..), _) => Ok(false),
        (Node::App(..), _) => Ok(false),
        (Node::Meta(..), _) => Ok(false),
        (Node::Match(..), _) => Ok(false),
        (Node::Sort(_), _) => Ok(false),
        (Node::Prod(..), _) => Ok(false),
        (Node::Lam(..), _) => Ok(false),
    }
}

/// Whether the matched terms of two matches, and the bodies of their branches, are convertible.
#[cycle(convert)]
#[tactic(auto, using(crate::proofs::Held::convert_held, crate::proofs::Apart::spine_rules))]
fn same_matched<W: Whd, L: Ledger>(
    h: &W,
    alloc: Global,
    w: &mut Work<'_>,
    c: TermId,
    t: TermId,
    bs: &BranchIds,
    cs: &BranchIds,
    depth_left: usize,
    steps: &mut Steps<L>,
) -> Result<bool, Stop>
    requires first { c.at < length w.old.pool.now }
    requires second { t.at < length w.old.pool.now }
    requires first_held { ArmsBelow (length w.old.pool.now) (branches_of bs.now) }
    requires second_held { ArmsBelow (length w.old.pool.now) (branches_of cs.now) }
    requires env_held { EnvBelow (length w.old.pool.now) w.old.env.now }
    requires store_held { StoreBelow (length w.old.pool.now) w.old.store.now }
    ensures same_pool { w.new.pool.ghost_name ≡ w.old.pool.ghost_name }
    ensures env { w.new.env ≡ w.old.env }
    ensures store { w.new.store ≡ w.old.store }
    ensures kept { Kept w.old.pool.now w.new.pool.now }
    ensures outcome { Answers (λ b. b) (matches (environment_in w.old.pool.now w.old.env.now) (store_in w.old.pool.now w.old.store.now) (tree_at w.old.pool.now c) (tree_at w.old.pool.now t) (arms_at w.old.pool.now (branches_of bs.now)) (arms_at w.old.pool.now (branches_of cs.now)) w.old.left) w.new.left result }
    ensures unrefused { IfErr result (λ e. IsNoRefusal e) }
    ensures cost { steps.new + w.new.left ≡ steps.old + w.old.left }
{
    let depth_left = deeper(depth_left)?;
    if !convert(h, alloc, w, Mode::Equal, c, t, depth_left, steps)? {
        return Ok(false);
    }
    same_bodies(h, alloc, w, bs, cs, depth_left, steps)
}

/// Whether the terms of two lists are convertible, pairwise.
#[cycle(convert)]
#[tactic(auto, using(crate::proofs::Held::convert_held, mt_rules_laws::proofs::ComparisonRules::terms_rules))]
fn same_terms<W: Whd, L: Ledger>(
    h: &W,
    alloc: Global,
    w: &mut Work<'_>,
    s: &TermIds,
    r: &TermIds,
    depth_left: usize,
    steps: &mut Steps<L>,
) -> Result<bool, Stop>
    requires first { AllBelow (length w.old.pool.now) (ids_of s.now) }
    requires second { AllBelow (length w.old.pool.now) (ids_of r.now) }
    requires env_held { EnvBelow (length w.old.pool.now) w.old.env.now }
    requires store_held { StoreBelow (length w.old.pool.now) w.old.store.now }
    ensures same_pool { w.new.pool.ghost_name ≡ w.old.pool.ghost_name }
    ensures env { w.new.env ≡ w.old.env }
    ensures store { w.new.store ≡ w.old.store }
    ensures kept { Kept w.old.pool.now w.new.pool.now }
    ensures outcome { Answers (λ b. b) (terms (environment_in w.old.pool.now w.old.env.now) (store_in w.old.pool.now w.old.store.now) (trees_at w.old.pool.now (ids_of s.now)) (trees_at w.old.pool.now (ids_of r.now)) w.old.left) w.new.left result }
    ensures unrefused { IfErr result (λ e. IsNoRefusal e) }
    ensures cost { steps.new + w.new.left ≡ steps.old + w.old.left }
{
    let depth_left = deeper(depth_left)?;
    match (s, r) {
        (TermIds::End, TermIds::End) => Ok(true),
        (TermIds::Item(t, s), TermIds::Item(u, r)) => {
            if !convert(h, alloc, w, Mode::Equal, *t, *u, depth_left, steps)? {
                return Ok(false);
            }
            same_terms(h, alloc, w, s, r, depth_left, steps)
        }
        (TermIds::End, TermIds::Item(..)) => Ok(false),
        (TermIds::Item(..), TermIds::End) => Ok(false),
    }
}

/// Whether the bodies of two lists of branches are convertible, pairwise.
#[cycle(convert)]
#[tactic(auto, using(crate::proofs::Held::convert_held, mt_rules_laws::proofs::ComparisonRules::bodies_rules))]
fn same_bodies<W: Whd, L: Ledger>(
    h: &W,
    alloc: Global,
    w: &mut Work<'_>,
    bs: &BranchIds,
    cs: &BranchIds,
    depth_left: usize,
    steps: &mut Steps<L>,
) -> Result<bool, Stop>
    requires first { ArmsBelow (length w.old.pool.now) (branches_of bs.now) }
    requires second { ArmsBelow (length w.old.pool.now) (branches_of cs.now) }
    requires env_held { EnvBelow (length w.old.pool.now) w.old.env.now }
    requires store_held { StoreBelow (length w.old.pool.now) w.old.store.now }
    ensures same_pool { w.new.pool.ghost_name ≡ w.old.pool.ghost_name }
    ensures env { w.new.env ≡ w.old.env }
    ensures store { w.new.store ≡ w.old.store }
    ensures kept { Kept w.old.pool.now w.new.pool.now }
    ensures outcome { Answers (λ b. b) (bodies (environment_in w.old.pool.now w.old.env.now) (store_in w.old.pool.now w.old.store.now) (arms_at w.old.pool.now (branches_of bs.now)) (arms_at w.old.pool.now (branches_of cs.now)) w.old.left) w.new.left result }
    ensures unrefused { IfErr result (λ e. IsNoRefusal e) }
    ensures cost { steps.new + w.new.left ≡ steps.old + w.old.left }
{
    let depth_left = deeper(depth_left)?;
    match (bs, cs) {
        (BranchIds::End, BranchIds::End) => Ok(true),
        (BranchIds::Item(_, b, bs), BranchIds::Item(_, c, cs)) => {
            if !convert(h, alloc, w, Mode::Equal, *b, *c, depth_left, steps)? {
                return Ok(false);
            }
            same_bodies(h, alloc, w, bs, cs, depth_left, steps)
        }
        (BranchIds::End, BranchIds::Item(..)) => Ok(false),
        (BranchIds::Item(..), BranchIds::End) => Ok(false),
    }
}

/// Whether there are as many branches, with as many names in each.
fn same_shapes(bs: &BranchIds, cs: &BranchIds, depth_left: usize) -> Result<bool, OutOfMemory>
    ensures { IfOk result (λ b. (p : List Tree) → b ≡ same_shapes (arms_at p (branches_of bs.now)) (arms_at p (branches_of cs.now))) }
{
    let depth_left = deeper(depth_left)?;
    match (bs, cs) {
        (BranchIds::End, BranchIds::End) => Ok(true),
        (BranchIds::Item(xs, _, bs), BranchIds::Item(ys, _, cs)) => {
            if xs.len() != ys.len() {
                return Ok(false);
            }
            same_shapes(bs, cs, depth_left)
        }
        (BranchIds::End, BranchIds::Item(..)) => Ok(false),
        (BranchIds::Item(..), BranchIds::End) => Ok(false),
    }
}
