// Which sort a motive answers in, by its type.
ghost use Rattle.std.specs.Prelude.{◌≡◌, ◌+◌};
ghost use Rattle.mt_rules.specs.Answers.{Answers};
ghost use Rattle.mt_kernel.specs.Contexts.{hypotheses_of};
ghost use Rattle.mt_term.specs.EnvironmentOf.{environment_of};
ghost use Rattle.mt_rules.specs.Inference.{eliminating, may_eliminate};
ghost use Rattle.mt_term.specs.Stores.{no_store};
ghost use Rattle.mt_term.specs.TreeOf.{tree_of};

use crate::arguments::on_newest;
use crate::contexts::Context;
use crate::expected::{agree, as_product, as_sort};
use mt_term::{Mode, PlainEnv, Refusal, Sort, Stop, Term, copy, deeper};
use mt_text::{Ledger, Steps};
use std::alloc::Global;

/// Whether a match on a type of the first sort may answer in the second.
fn may_eliminate(large: bool, from: &Sort, into: &Sort) -> bool
    ensures { result ≡ may_eliminate large from.now into.now }
{
    match (from, into) {
        (Sort::Prop, Sort::Typ(_)) => large,
        (Sort::Prop, Sort::Prop) => true,
        (Sort::Typ(_), _) => true,
    }
}

/// The sort that a motive of type `ty` answers in: `ty` has to be products over the indices of
/// `arity`, and over `family` on them, into a sort that is allowed.
#[tactic(auto, using(crate::proofs::Eliminating::eliminating_rules))]
pub fn elimination_sort<L: Ledger>(
    alloc: Global,
    env: &PlainEnv,
    context: &Context<'_>,
    large: bool,
    arity: &Term,
    family: &Term,
    ty: Term,
    left: &mut u64,
    depth_left: usize,
    steps: &mut Steps<L>,
) -> Result<Sort, Stop>
    ensures answer { Answers (λ s. s) (eliminating (environment_of env.now) no_store (hypotheses_of context.now) large (tree_of arity.now) (tree_of family.now) (tree_of ty) left.old) left.new result }
    ensures cost { steps.new + left.new ≡ steps.old + left.old }
{
    let _left = *left;
    let depth_left = deeper(depth_left)?;
    match arity {
        Term::Prod(_, index, rest) => {
            let product = as_product(alloc, env, ty, left, depth_left, steps)?;
            let domain = copy(alloc, &product.domain)?;
            agree(
                alloc,
                env,
                context,
                Mode::Equal,
                domain,
                index,
                left,
                depth_left,
                steps,
            )?;
            let on_index = on_newest(alloc, family)?;
            let codomain = copy(alloc, &product.codomain)?;
            let inner = Context::More(&product.name, &product.domain, &*context);
            elimination_sort(
                alloc, env, &inner, large, rest, &on_index, codomain, left, depth_left, steps,
            )
        }
        Term::Sort(from) => {
            let product = as_product(alloc, env, ty, left, depth_left, steps)?;
            let domain = copy(alloc, &product.domain)?;
            agree(
                alloc,
                env,
                context,
                Mode::Equal,
                domain,
                family,
                left,
                depth_left,
                steps,
            )?;
            let codomain = copy(alloc, &product.codomain)?;
            let into = as_sort(alloc, env, codomain, left, depth_left, steps)?;
            if !may_eliminate(large, from, &into) {
                return Err(Stop::Refused(Refusal::BadElimination));
            }
            Ok(into)
        }
        _ => Err(Stop::Refused(Refusal::BadElimination)),
    }
}
