// Weak heads, and what each of their steps costs.
ghost use Rattle.std.specs.Prelude.{◌≡◌, ◌+◌, Some};
ghost use Rattle.mt_rules.specs.Answers.{Answers};
ghost use Rattle.mt_kernel.specs.Arguments.{args_of, tree_in};
ghost use Rattle.mt_term.specs.EnvironmentOf.{environment_of};
ghost use Rattle.mt_term.specs.Stores.{no_store};
ghost use Rattle.mt_term.specs.Trees.{Const};
ghost use Rattle.mt_term.specs.TreeOf.{tree_of};
ghost use Rattle.mt_rules.specs.WeakHead.{look, whd};

use crate::arguments::{Args, apply, beta, item_at, on_args};
use crate::charges::charge;
use crate::matching::{contract_match, recursive_step};
use mt_term::{Entry, PlainEnv, Stop, Term, copy, deeper};
use mt_text::{Ledger, Steps};
use std::alloc::Global;

/// The weak head. Recurses at most `depth_left` levels.
#[cycle(whd)]
#[tactic(auto, using(mt_rules_laws::proofs::WeakHeadRules::whd_rules))]
pub fn whd<L: Ledger>(
    alloc: Global,
    env: &PlainEnv,
    t: Term,
    left: &mut u64,
    depth_left: usize,
    steps: &mut Steps<L>,
) -> Result<Term, Stop>
    ensures answer { Answers tree_of (whd (environment_of env.now) no_store (tree_of t) left.old) left.new result }
    ensures cost { steps.new + left.new ≡ steps.old + left.old }
{
    let depth_left = deeper(depth_left)?;
    let mut head = t;
    while let Some(next) = look(alloc, env, &head, &Args::End, left, depth_left, steps)? {
        charge(left, steps)?;
        head = next;
    }
    Ok(head)
}

/// What the term on the arguments becomes by a step, where there is one; the step's own charge is
/// not paid.
#[cycle(whd)]
#[tactic(auto, using(crate::proofs::Unfolding::unfolding_rules))]
fn look<L: Ledger>(
    alloc: Global,
    env: &PlainEnv,
    t: &Term,
    args: &Args<'_>,
    left: &mut u64,
    depth_left: usize,
    steps: &mut Steps<L>,
) -> Result<Option<Term>, Stop>
    ensures answer { Answers tree_in (look (environment_of env.now) no_store (tree_of t.now) (args_of args.now) left.old) left.new result }
    ensures cost { steps.new + left.new ≡ steps.old + left.old }
{
    let depth_left = deeper(depth_left)?;
    let _left = *left;
    match t {
        Term::App(f, a) => look(
            alloc,
            env,
            &*f,
            &Args::More(&*a, &*args),
            left,
            depth_left,
            steps,
        ),
        Term::Lam(_, _, body) => Ok(beta(alloc, body, args)?),
        Term::Const(n) => unfold(alloc, env, *n, args, left, depth_left, steps),
        Term::Match(e, returns, c, branches) => {
            let head = whd(alloc, env, copy(alloc, c)?, left, depth_left, steps)?;
            let next = contract_match(
                alloc,
                &env.entries,
                *e,
                returns,
                branches,
                &head,
                depth_left,
            )?;
            Ok(on_args(alloc, next, args)?)
        }
        _ => Ok(None),
    }
}

/// The same of a constant.
#[cycle(whd)]
#[tactic(auto, using(crate::proofs::Unfolding::unfolding_rules))]
fn unfold<L: Ledger>(
    alloc: Global,
    env: &PlainEnv,
    n: usize,
    args: &Args<'_>,
    left: &mut u64,
    depth_left: usize,
    steps: &mut Steps<L>,
) -> Result<Option<Term>, Stop>
    ensures answer { Answers tree_in (look (environment_of env.now) no_store (Const n) (args_of args.now) left.old) left.new result }
    ensures cost { steps.new + left.new ≡ steps.old + left.old }
{
    let depth_left = deeper(depth_left)?;
    let _left = *left;
    match env.entries.get(n) {
        Some(Entry::Definition { body, .. }) => {
            let head = copy(alloc, body)?;
            Ok(Some(apply(alloc, head, args)?))
        }
        Some(
            Entry::Recursive {
                co,
                place,
                body,
                ..
            },
        ) => {
            if *co {
                return Ok(None);
            }
            let Some(opened) = item_at(args, *place) else {
                return Ok(None);
            };
            let head = whd(alloc, env, copy(alloc, opened)?, left, depth_left, steps)?;
            Ok(recursive_step(alloc, &env.entries, *place, body, args, &head, depth_left)?)
        }
        None | Some(Entry::Axiom { .. }) | Some(Entry::Inductive { .. }) => Ok(None),
    }
}
