// The comparison of two terms.
ghost use Rattle.std.specs.Prelude.{◌≡◌, ◌+◌, IfOk};
ghost use Rattle.mt_rules.specs.Answers.{Answers};
ghost use Rattle.mt_rules_laws.proofs.ComparisonRules.{matches};
ghost use Rattle.mt_term.specs.EnvironmentOf.{environment_of};
ghost use Rattle.mt_rules.specs.Comparison.{bodies, convert, heads, same_shapes, spines, terms};
ghost use Rattle.mt_term.specs.Stores.{no_store};
ghost use Rattle.mt_term.specs.TreeOf.{arms_of, tree_of, trees_of};

use crate::charges::charge;
use crate::reduction::whd;
use crate::sorts::sorts_fit;
use mt_term::{Branches, Mode, OutOfMemory, PlainEnv, Stop, Term, Terms, alike, copy, deeper};
use mt_text::{Ledger, Steps};
use std::alloc::Global;

/// Whether the two are convertible in the mode. Recurses at most `depth_left` levels.
#[cycle(convert)]
#[tactic(auto, using(mt_rules_laws::proofs::ComparisonRules::convert_rules))]
pub fn convert<L: Ledger>(
    alloc: Global,
    env: &PlainEnv,
    mode: Mode,
    t: &Term,
    u: &Term,
    left: &mut u64,
    depth_left: usize,
    steps: &mut Steps<L>,
) -> Result<bool, Stop>
    ensures answer { Answers (λ b. b) (convert (environment_of env.now) no_store mode (tree_of t.now) (tree_of u.now) left.old) left.new result }
    ensures cost { steps.new + left.new ≡ steps.old + left.old }
{
    let _left = *left;
    let depth_left = deeper(depth_left)?;
    charge(left, steps)?;
    if alike(t, u) {
        return Ok(true);
    }
    let head = whd(alloc, env, copy(alloc, t)?, left, depth_left, steps)?;
    let other = whd(alloc, env, copy(alloc, u)?, left, depth_left, steps)?;
    same_heads(alloc, env, mode, &head, &other, left, depth_left, steps)
}

/// Whether two weak heads are convertible.
#[cycle(convert)]
#[tactic(auto, using(mt_rules_laws::proofs::ComparisonRules::heads_rules, mt_rules_laws::proofs::ComparisonApart::apart_rules))]
fn same_heads<L: Ledger>(
    alloc: Global,
    env: &PlainEnv,
    mode: Mode,
    t: &Term,
    u: &Term,
    left: &mut u64,
    depth_left: usize,
    steps: &mut Steps<L>,
) -> Result<bool, Stop>
    ensures answer { Answers (λ b. b) (heads (environment_of env.now) no_store mode (tree_of t.now) (tree_of u.now) left.old) left.new result }
    ensures cost { steps.new + left.new ≡ steps.old + left.old }
{
    let _left = *left;
    let depth_left = deeper(depth_left)?;
    match (t, u) {
        (Term::Sort(s), Term::Sort(r)) => Ok(sorts_fit(alloc, &env.below, mode, s, r)?),
        (Term::Prod(_, a, b), Term::Prod(_, c, d)) => {
            if !convert(alloc, env, Mode::Equal, a, c, left, depth_left, steps)? {
                return Ok(false);
            }
            convert(alloc, env, mode, b, d, left, depth_left, steps)
        }
        (Term::Lam(_, a, b), Term::Lam(_, c, d)) => {
            if !convert(alloc, env, Mode::Equal, a, c, left, depth_left, steps)? {
                return Ok(false);
            }
            convert(alloc, env, Mode::Equal, b, d, left, depth_left, steps)
        }
        (Term::Sort(_), _) => Ok(false),
        (Term::Prod(..), _) => Ok(false),
        (Term::Lam(..), _) => Ok(false),
        _ => same_spine(alloc, env, t, u, left, depth_left, steps),
    }
}

/// Whether two heads on arguments are the same head on convertible arguments.
#[cycle(convert)]
#[tactic(auto, using(crate::proofs::Apart::spine_rules))]
fn same_spine<L: Ledger>(
    alloc: Global,
    env: &PlainEnv,
    t: &Term,
    u: &Term,
    left: &mut u64,
    depth_left: usize,
    steps: &mut Steps<L>,
) -> Result<bool, Stop>
    ensures answer { Answers (λ b. b) (spines (environment_of env.now) no_store (tree_of t.now) (tree_of u.now) left.old) left.new result }
    ensures cost { steps.new + left.new ≡ steps.old + left.old }
{
    let _left = *left;
    let depth_left = deeper(depth_left)?;
    match (t, u) {
        (Term::Var(i), Term::Var(j)) => Ok(*i == *j),
        (Term::Const(c), Term::Const(d)) => Ok(*c == *d),
        (Term::Ind(e), Term::Ind(d)) => Ok(*e == *d),
        (Term::Con(e, k), Term::Con(d, j)) => Ok(*e == *d && *k == *j),
        (Term::App(f, a), Term::App(g, b)) => {
            if !same_spine(alloc, env, f, g, left, depth_left, steps)? {
                return Ok(false);
            }
            convert(alloc, env, Mode::Equal, a, b, left, depth_left, steps)
        }
        (Term::Meta(n, s), Term::Meta(m, r)) => {
            if *n != *m {
                return Ok(false);
            }
            same_terms(alloc, env, s, r, left, depth_left, steps)
        }
        (Term::Match(e, r, c, bs), Term::Match(d, p, t, cs)) => {
            if *e != *d || !same_shapes(bs, cs, depth_left)? {
                return Ok(false);
            }
            if !convert(alloc, env, Mode::Equal, r, p, left, depth_left, steps)? {
                return Ok(false);
            }
            same_matches(alloc, env, c, t, bs, cs, left, depth_left, steps)
        }
        (Term::Var(_), _) => Ok(false),
        (Term::Const(_), _) => Ok(false),
        (Term::Ind(_), _) => Ok(false),
        (Term::Con(..), _) => Ok(false),
        (Term::App(..), _) => Ok(false),
        (Term::Meta(..), _) => Ok(false),
        (Term::Match(..), _) => Ok(false),
        (Term::Sort(_), _) => Ok(false),
        (Term::Prod(..), _) => Ok(false),
        (Term::Lam(..), _) => Ok(false),
    }
}

/// Whether there are as many branches, with as many names in each.
fn same_shapes(bs: &Branches, cs: &Branches, depth_left: usize) -> Result<bool, OutOfMemory>
    ensures { IfOk result (λ b. b ≡ same_shapes (arms_of bs.now) (arms_of cs.now)) }
{
    let depth_left = deeper(depth_left)?;
    match (bs, cs) {
        (Branches::End, Branches::End) => Ok(true),
        (Branches::Item(b, bs), Branches::Item(c, cs)) => {
            if b.names.len() != c.names.len() {
                return Ok(false);
            }
            same_shapes(bs, cs, depth_left)
        }
        (Branches::End, Branches::Item(..)) => Ok(false),
        (Branches::Item(..), Branches::End) => Ok(false),
    }
}

/// Whether two matched terms are convertible, and then the bodies of the branches.
#[cycle(convert)]
#[tactic(auto, using(mt_rules_laws::proofs::ComparisonRules::spines_rules))]
fn same_matches<L: Ledger>(
    alloc: Global,
    env: &PlainEnv,
    c: &Term,
    t: &Term,
    bs: &Branches,
    cs: &Branches,
    left: &mut u64,
    depth_left: usize,
    steps: &mut Steps<L>,
) -> Result<bool, Stop>
    ensures answer { Answers (λ b. b) (matches (environment_of env.now) no_store (tree_of c.now) (tree_of t.now) (arms_of bs.now) (arms_of cs.now) left.old) left.new result }
    ensures cost { steps.new + left.new ≡ steps.old + left.old }
{
    let _left = *left;
    let depth_left = deeper(depth_left)?;
    if !convert(alloc, env, Mode::Equal, c, t, left, depth_left, steps)? {
        return Ok(false);
    }
    same_bodies(alloc, env, bs, cs, left, depth_left, steps)
}

/// Whether the bodies of two lists of branches are convertible, pairwise.
#[cycle(convert)]
#[tactic(auto, using(mt_rules_laws::proofs::ComparisonRules::bodies_rules))]
fn same_bodies<L: Ledger>(
    alloc: Global,
    env: &PlainEnv,
    bs: &Branches,
    cs: &Branches,
    left: &mut u64,
    depth_left: usize,
    steps: &mut Steps<L>,
) -> Result<bool, Stop>
    ensures answer { Answers (λ b. b) (bodies (environment_of env.now) no_store (arms_of bs.now) (arms_of cs.now) left.old) left.new result }
    ensures cost { steps.new + left.new ≡ steps.old + left.old }
{
    let _left = *left;
    let depth_left = deeper(depth_left)?;
    match (bs, cs) {
        (Branches::End, Branches::End) => Ok(true),
        (Branches::Item(b, bs), Branches::Item(c, cs)) => {
            if !convert(
                alloc,
                env,
                Mode::Equal,
                &b.body,
                &c.body,
                left,
                depth_left,
                steps,
            )? {
                return Ok(false);
            }
            same_bodies(alloc, env, bs, cs, left, depth_left, steps)
        }
        (Branches::End, Branches::Item(..)) => Ok(false),
        (Branches::Item(..), Branches::End) => Ok(false),
    }
}

/// Whether the terms of two lists are convertible, pairwise.
#[cycle(convert)]
#[tactic(auto, using(mt_rules_laws::proofs::ComparisonRules::terms_rules))]
fn same_terms<L: Ledger>(
    alloc: Global,
    env: &PlainEnv,
    s: &Terms,
    r: &Terms,
    left: &mut u64,
    depth_left: usize,
    steps: &mut Steps<L>,
) -> Result<bool, Stop>
    ensures answer { Answers (λ b. b) (terms (environment_of env.now) no_store (trees_of s.now) (trees_of r.now) left.old) left.new result }
    ensures cost { steps.new + left.new ≡ steps.old + left.old }
{
    let _left = *left;
    let depth_left = deeper(depth_left)?;
    match (s, r) {
        (Terms::End, Terms::End) => Ok(true),
        (Terms::Item(t, s), Terms::Item(u, r)) => {
            if !convert(alloc, env, Mode::Equal, t, u, left, depth_left, steps)? {
                return Ok(false);
            }
            same_terms(alloc, env, s, r, left, depth_left, steps)
        }
        (Terms::End, Terms::Item(..)) => Ok(false),
        (Terms::Item(..), Terms::End) => Ok(false),
    }
}
