// What a type has to be: a sort, a product, or a type that agrees with another.
ghost use Rattle.std.specs.Prelude.{◌≡◌, ◌+◌, []};
ghost use Rattle.mt_rules.specs.Answers.{Answers};
ghost use Rattle.mt_kernel.specs.Contexts.{hypotheses_of};
ghost use Rattle.mt_kernel.specs.Forms.{held, held_in, product_in, sort_in};
ghost use Rattle.mt_term.specs.EnvironmentOf.{environment_of};
ghost use Rattle.mt_rules.specs.Inference.{agreement, as_product, as_sort};
ghost use Rattle.mt_term.specs.Stores.{no_store};
ghost use Rattle.mt_term.specs.TreeOf.{tree_of};

use crate::comparison::convert;
use crate::contexts::{Context, hypotheses};
use crate::reduction::whd;
use mt_term::{Entries, Mode, Name, PlainEnv, Refusal, Sort, Stop, Term, copy};
use mt_text::{Ledger, Steps};
use std::alloc::Global;

/// A product.
#[derive(Drop)]
pub struct Product {
    pub name: Name,
    pub domain: Box<Term>,
    pub codomain: Box<Term>,
}

/// The weak head of a term, which has to be a sort.
#[tactic(auto, using(crate::proofs::Inferring::sort_rules))]
pub fn as_sort<L: Ledger>(
    alloc: Global,
    env: &PlainEnv,
    t: Term,
    left: &mut u64,
    depth_left: usize,
    steps: &mut Steps<L>,
) -> Result<Sort, Stop>
    ensures answer { Answers (λ s. s) (as_sort (environment_of env.now) no_store (tree_of t) left.old) left.new result }
    ensures cost { steps.new + left.new ≡ steps.old + left.old }
{
    let head = whd(alloc, env, t, left, depth_left, steps)?;
    sort_in(head).ok_or(Stop::Refused(Refusal::NotASort))
}

fn sort_in(t: Term) -> Option<Sort>
    ensures { result ≡ sort_in (tree_of t) }
{
    match t {
        Term::Sort(s) => Some(s),
        _ => None,
    }
}

/// The weak head of a term, which has to be a product.
#[tactic(auto, using(crate::proofs::Inferring::product_rules))]
pub fn as_product<L: Ledger>(
    alloc: Global,
    env: &PlainEnv,
    t: Term,
    left: &mut u64,
    depth_left: usize,
    steps: &mut Steps<L>,
) -> Result<Product, Stop>
    ensures answer { Answers held (as_product (environment_of env.now) no_store (tree_of t) left.old) left.new result }
    ensures cost { steps.new + left.new ≡ steps.old + left.old }
{
    let head = whd(alloc, env, t, left, depth_left, steps)?;
    product_in(head).ok_or(Stop::Refused(Refusal::NotAFunction))
}

fn product_in(t: Term) -> Option<Product>
    ensures { held_in result ≡ product_in (tree_of t) }
{
    match t {
        Term::Prod(name, domain, codomain) => Some(Product {
            name,
            domain,
            codomain,
        }),
        _ => None,
    }
}

/// Checks that an inferred type agrees with the expected one.
#[tactic(auto, using(crate::proofs::Inferring::agree_rules))]
pub fn agree<L: Ledger>(
    alloc: Global,
    env: &PlainEnv,
    context: &Context<'_>,
    mode: Mode,
    inferred: Term,
    expected: &Term,
    left: &mut u64,
    depth_left: usize,
    steps: &mut Steps<L>,
) -> Result<(), Stop>
    ensures answer { Answers (λ a. a) (agreement (environment_of env.now) no_store (hypotheses_of context.now) mode (tree_of inferred) (tree_of expected.now) left.old) left.new result }
    ensures cost { steps.new + left.new ≡ steps.old + left.old }
{
    if convert(
        alloc, env, mode, &inferred, expected, left, depth_left, steps,
    )? {
        return Ok(());
    }
    Err(Stop::Refused(Refusal::Mismatch {
        context: hypotheses(alloc, context)?,
        inferred,
        expected: copy(alloc, expected)?,
        known: Entries::new(alloc),
    }))
}
