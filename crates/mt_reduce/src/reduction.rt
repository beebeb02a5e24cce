// Weak heads, and what each of their steps costs.
ghost use Rattle.std.specs.Prelude.{◌≡◌, ◌<◌, ◌+◌, length, IfOk, IfErr};
ghost use Rattle.mt_layers.specs.Environments.{environment_in, found_in, EnvBelow, FoundBelow};
ghost use Rattle.mt_layers.specs.Stops.{IsNoRefusal};
ghost use Rattle.mt_rules.specs.Answers.{Answers};
ghost use Rattle.mt_pool.specs.Region.{tree_at, Kept};
ghost use Rattle.mt_reduce.specs.Arguments.{args_in, ArgsBelow};
ghost use Rattle.mt_store.specs.Held.{store_in, StoreBelow};
ghost use Rattle.mt_term.specs.Trees.{Const};
ghost use Rattle.mt_rules.specs.WeakHead.{look, whd};

use crate::arguments::{Args, apply, apply_with, argument, beta, on_args};
use crate::branches::{contract_match, is_full};
use crate::metavariables::body_under;
use mt_layers::{Work, copy_branches, copy_ids, entry};
use mt_pool::{Held, Node, TermId};
use mt_term::{Stop, deeper};
use mt_text::{Ledger, Steps};
use std::alloc::Global;

/// The weak head. Recurses at most `depth_left` levels.
#[cycle(whd)]
#[tactic(auto, using(crate::proofs::Held::reduce_rules, mt_rules_laws::proofs::WeakHeadRules::whd_rules))]
pub fn whd<L: Ledger>(
    alloc: Global,
    w: &mut Work<'_>,
    t: TermId,
    depth_left: usize,
    steps: &mut Steps<L>,
) -> Result<TermId, Stop>
    requires held { t.at < length w.old.pool.now }
    requires env_held { EnvBelow (length w.old.pool.now) w.old.env.now }
    requires store_held { StoreBelow (length w.old.pool.now) w.old.store.now }
    ensures same_pool { w.new.pool.ghost_name ≡ w.old.pool.ghost_name }
    ensures env { w.new.env ≡ w.old.env }
    ensures store { w.new.store ≡ w.old.store }
    ensures kept { Kept w.old.pool.now w.new.pool.now }
    ensures outcome { Answers (tree_at w.new.pool.now) (whd (environment_in w.old.pool.now w.old.env.now) (store_in w.old.pool.now w.old.store.now) (tree_at w.old.pool.now t) w.old.left) w.new.left result }
    ensures result_held { IfOk result (λ u. u.at < length w.new.pool.now) }
    ensures unrefused { IfErr result (λ e. IsNoRefusal e) }
    ensures cost { steps.new + w.new.left ≡ steps.old + w.old.left }
{
    let depth_left = deeper(depth_left)?;
    let mut head = t;
    while let Some(next) = look(alloc, w, head, &Args::End, depth_left, steps)? {
        w.charge(steps)?;
        head = next;
    }
    Ok(head)
}

/// What the term on the arguments becomes by a step, where there is one; the step's own charge is
/// not paid. Recurses at most `depth_left` levels.
#[cycle(whd)]
#[tactic(auto, using(crate::proofs::Held::reduce_rules, mt_rules_laws::proofs::WeakHeadRules::look_rules))]
pub fn look<L: Ledger>(
    alloc: Global,
    w: &mut Work<'_>,
    t: TermId,
    args: &Args<'_>,
    depth_left: usize,
    steps: &mut Steps<L>,
) -> Result<Option<TermId>, Stop>
    requires held { t.at < length w.old.pool.now }
    requires others { ArgsBelow (length w.old.pool.now) args.now }
    requires env_held { EnvBelow (length w.old.pool.now) w.old.env.now }
    requires store_held { StoreBelow (length w.old.pool.now) w.old.store.now }
    ensures same_pool { w.new.pool.ghost_name ≡ w.old.pool.ghost_name }
    ensures env { w.new.env ≡ w.old.env }
    ensures store { w.new.store ≡ w.old.store }
    ensures kept { Kept w.old.pool.now w.new.pool.now }
    ensures outcome { Answers (found_in w.new.pool.now) (look (environment_in w.old.pool.now w.old.env.now) (store_in w.old.pool.now w.old.store.now) (tree_at w.old.pool.now t) (args_in w.old.pool.now args.now) w.old.left) w.new.left result }
    ensures result_held { IfOk result (λ o. FoundBelow (length w.new.pool.now) o) }
    ensures unrefused { IfErr result (λ e. IsNoRefusal e) }
    ensures cost { steps.new + w.new.left ≡ steps.old + w.old.left }
{
    let depth_left = deeper(depth_left)?;
    match w.pool.node(t) {
        Node::App(f, a) => {
            let f = *f;
            let a = *a;
            look(alloc, w, f, &Args::More(a, &*args), depth_left, steps)
        }
        Node::Lam(_, _, b) => {
            let b = *b;
            let found = beta(w.pool, alloc, b, args)?;
            Ok(found)
        }
        Node::Const(c) => {
            let c = *c;
            unfold(alloc, w, c, args, depth_left, steps)
        }
        Node::Match(e, r, c, bs) => {
            let e = *e;
            let r = *r;
            let c = *c;
            let bs = copy_branches(alloc, bs, depth_left)?;
            let d = whd(alloc, w, c, depth_left, steps)?;
            let found = contract_match(w.pool, alloc, w.env, e, r, bs, d, depth_left)?;
            let found = on_args(w.pool, found, args)?;
            Ok(found)
        }
        Node::Meta(n, s) => {
            let n = *n;
            let s = copy_ids(alloc, s, depth_left)?;
            let found = body_under(w.pool, alloc, w.store, n, &s)?;
            let found = on_args(w.pool, found, args)?;
            Ok(found)
        }
        Node::Var(_) | Node::Sort(_) | Node::Prod(..) | Node::Ind(_) | Node::Con(..) => Ok(None),
    }
}

/// What a constant on the arguments becomes by a step, where there is one. Recurses at most
/// `depth_left` levels.
#[cycle(whd)]
#[tactic(auto, using(crate::proofs::Held::reduce_rules, mt_rules_laws::proofs::WeakHeadRules::look_rules))]
fn unfold<L: Ledger>(
    alloc: Global,
    w: &mut Work<'_>,
    c: usize,
    args: &Args<'_>,
    depth_left: usize,
    steps: &mut Steps<L>,
) -> Result<Option<TermId>, Stop>
    requires others { ArgsBelow (length w.old.pool.now) args.now }
    requires env_held { EnvBelow (length w.old.pool.now) w.old.env.now }
    requires store_held { StoreBelow (length w.old.pool.now) w.old.store.now }
    ensures same_pool { w.new.pool.ghost_name ≡ w.old.pool.ghost_name }
    ensures env { w.new.env ≡ w.old.env }
    ensures store { w.new.store ≡ w.old.store }
    ensures kept { Kept w.old.pool.now w.new.pool.now }
    ensures outcome { Answers (found_in w.new.pool.now) (look (environment_in w.old.pool.now w.old.env.now) (store_in w.old.pool.now w.old.store.now) (Const c) (args_in w.old.pool.now args.now) w.old.left) w.new.left result }
    ensures result_held { IfOk result (λ o. FoundBelow (length w.new.pool.now) o) }
    ensures unrefused { IfErr result (λ e. IsNoRefusal e) }
    ensures cost { steps.new + w.new.left ≡ steps.old + w.old.left }
{
    let depth_left = deeper(depth_left)?;
    match entry(w.env, c) {
        Some(Held::Definition { body, .. }) => {
            let u = apply(w.pool, *body, args)?;
            Ok(Some(u))
        }
        Some(
            Held::Recursive {
                co: false,
                place,
                body,
                ..
            },
        ) => {
            let place = *place;
            let body = *body;
            let Some(a) = argument(args, place) else {
                return Ok(None);
            };
            let d = whd(alloc, w, a, depth_left, steps)?;
            if !is_full(w.pool, w.env, d, &Args::End, depth_left)? {
                return Ok(None);
            }
            let u = apply_with(w.pool, body, args, place, d)?;
            Ok(Some(u))
        }
        None
        | Some(Held::Axiom { .. })
        | Some(Held::Inductive { .. })
        | Some(Held::Recursive { co: true, .. }) => Ok(None),
    }
}
