// The inference of the types of metavariables.
ghost use Rattle.std.specs.Prelude.{◌≡◌, ◌<◌, ◌+◌, ℕ, List, length, IfOk};
ghost use Rattle.mt_infer.specs.Fitting.{fits};
ghost use Rattle.mt_infer.specs.Metavariables.{terms_fit, types_in};
ghost use Rattle.mt_infer.specs.Scopes.{scope_in, ScopeBelow};
ghost use Rattle.mt_layers.specs.Environments.{environment_in, EnvBelow};
ghost use Rattle.mt_rules.specs.Answers.{Answers};
ghost use Rattle.mt_pool.specs.Region.{ids_of, tree_at, trees_at, AllBelow, Kept};
ghost use Rattle.mt_store.specs.Held.{store_in, StoreBelow};
ghost use Rattle.mt_store.specs.Search.{types_held};
ghost use Rattle.mt_rules.specs.Inference.{infer};
ghost use Rattle.mt_term.specs.Substitution.{join, under};
ghost use Rattle.mt_term.specs.Trees.{End, Item, Meta, Tree};

use crate::inferrer::Inferrer;
use crate::matching::check_fit;
use crate::scopes::Scope;
use mt_layers::{Convert, Whd, Work, listed_ids};
use mt_pool::{HeldHyp, TermId, TermIds};
use mt_term::{Name, OutOfMemory, Refusal, Stop, deeper};
use mt_text::{Ledger, Steps};
use std::alloc::{AllocFailed, Global};

/// The type of a metavariable. Recurses at most `depth_left` levels.
#[cycle(infer)]
#[tactic(auto, using(crate::proofs::Held::infer_held, crate::proofs::TermByTerm::meta_rules))]
pub fn infer_metavariable<C: Convert, W: Whd, L: Ledger>(
    i: &Inferrer<C, W>,
    alloc: Global,
    w: &mut Work<'_>,
    scope: &Scope<'_>,
    n: usize,
    s: &TermIds,
    depth_left: usize,
    steps: &mut Steps<L>,
) -> Result<TermId, Stop>
    requires terms { AllBelow (length w.old.pool.now) (ids_of s.now) }
    requires scope_held { ScopeBelow (length w.old.pool.now) scope.now }
    requires env_held { EnvBelow (length w.old.pool.now) w.old.env.now }
    requires store_held { StoreBelow (length w.old.pool.now) w.old.store.now }
    ensures same_pool { w.new.pool.ghost_name ≡ w.old.pool.ghost_name }
    ensures env { w.new.env ≡ w.old.env }
    ensures store { w.new.store ≡ w.old.store }
    ensures kept { Kept w.old.pool.now w.new.pool.now }
    ensures outcome { Answers (tree_at w.new.pool.now) (infer (environment_in w.old.pool.now w.old.env.now) (store_in w.old.pool.now w.old.store.now) (scope_in w.old.pool.now scope.now) (Meta n (trees_at w.old.pool.now (ids_of s.now))) w.old.left) w.new.left result }
    ensures result_held { IfOk result (λ u. u.at < length w.new.pool.now) }
    ensures cost { steps.new + w.new.left ≡ steps.old + w.old.left }
{
    let depth_left = deeper(depth_left)?;
    w.charge(steps)?;
    if n >= w.store.count() {
        return Err(Stop::Refused(Refusal::Unbound(Name::new(alloc))));
    }
    let ty = w.store.type_of(n);
    let types = context_types(alloc, w.store.context(n).as_slice(), depth_left)?;
    infer_terms(
        i,
        alloc,
        w,
        scope,
        s,
        &types,
        Vec::new(alloc),
        depth_left,
        steps,
    )?;
    let terms = listed_ids(alloc, s)?;
    Ok(w.pool.under(alloc, ty, &terms)?)
}

/// Checks terms against the types of hypotheses, each type under the earlier terms. Recurses at
/// most `depth_left` levels.
#[cycle(infer)]
#[tactic(auto, using(crate::proofs::Held::infer_held, crate::proofs::TermByTerm::terms_rules))]
fn infer_terms<C: Convert, W: Whd, L: Ledger>(
    i: &Inferrer<C, W>,
    alloc: Global,
    w: &mut Work<'_>,
    scope: &Scope<'_>,
    s: &TermIds,
    types: &TermIds,
    earlier: Vec<TermId>,
    depth_left: usize,
    steps: &mut Steps<L>,
) -> Result<(), Stop>
    requires terms { AllBelow (length w.old.pool.now) (ids_of s.now) }
    requires types_held { AllBelow (length w.old.pool.now) (ids_of types.now) }
    requires earlier_held { AllBelow (length w.old.pool.now) earlier.items }
    requires scope_held { ScopeBelow (length w.old.pool.now) scope.now }
    requires env_held { EnvBelow (length w.old.pool.now) w.old.env.now }
    requires store_held { StoreBelow (length w.old.pool.now) w.old.store.now }
    ensures same_pool { w.new.pool.ghost_name ≡ w.old.pool.ghost_name }
    ensures env { w.new.env ≡ w.old.env }
    ensures store { w.new.store ≡ w.old.store }
    ensures kept { Kept w.old.pool.now w.new.pool.now }
    ensures outcome { Answers (λ a. a) (terms_fit (environment_in w.old.pool.now w.old.env.now) (store_in w.old.pool.now w.old.store.now) (scope_in w.old.pool.now scope.now) (trees_at w.old.pool.now (ids_of s.now)) (types_in w.old.pool.now (ids_of types.now)) (trees_at w.old.pool.now earlier.items) w.old.left) w.new.left result }
    ensures cost { steps.new + w.new.left ≡ steps.old + w.old.left }
{
    let depth_left = deeper(depth_left)?;
    match (s, types) {
        (TermIds::End, TermIds::End) => Ok(()),
        (TermIds::Item(t, rest), TermIds::Item(ty, more)) => {
            check_term(i, alloc, w, scope, *t, *ty, &earlier, depth_left, steps)?;
            let earlier = followed_by(earlier, *t)?;
            infer_terms(i, alloc, w, scope, rest, more, earlier, depth_left, steps)
        }
        (TermIds::End, TermIds::Item(..)) | (TermIds::Item(..), TermIds::End) => {
            Err(Stop::Refused(Refusal::Unbound(Name::new(alloc))))
        }
    }
}

/// Checks a term against the type of a hypothesis under the earlier terms. Recurses at most
/// `depth_left` levels.
#[cycle(infer)]
#[tactic(auto, using(crate::proofs::Held::infer_held, crate::proofs::TermByTerm::term_rules))]
fn check_term<C: Convert, W: Whd, L: Ledger>(
    i: &Inferrer<C, W>,
    alloc: Global,
    w: &mut Work<'_>,
    scope: &Scope<'_>,
    t: TermId,
    ty: TermId,
    earlier: &[TermId],
    depth_left: usize,
    steps: &mut Steps<L>,
) -> Result<(), Stop>
    requires held { t.at < length w.old.pool.now }
    requires ty { ty.at < length w.old.pool.now }
    requires earlier_held { AllBelow (length w.old.pool.now) earlier.now }
    requires scope_held { ScopeBelow (length w.old.pool.now) scope.now }
    requires env_held { EnvBelow (length w.old.pool.now) w.old.env.now }
    requires store_held { StoreBelow (length w.old.pool.now) w.old.store.now }
    ensures same_pool { w.new.pool.ghost_name ≡ w.old.pool.ghost_name }
    ensures env { w.new.env ≡ w.old.env }
    ensures store { w.new.store ≡ w.old.store }
    ensures kept { Kept w.old.pool.now w.new.pool.now }
    ensures outcome { Answers (λ a. a) (fits (environment_in w.old.pool.now w.old.env.now) (store_in w.old.pool.now w.old.store.now) (scope_in w.old.pool.now scope.now) (tree_at w.old.pool.now t) (under (trees_at w.old.pool.now earlier.now) (tree_at w.old.pool.now ty)) w.old.left) w.new.left result }
    ensures cost { steps.new + w.new.left ≡ steps.old + w.old.left }
{
    let depth_left = deeper(depth_left)?;
    let expected = w.pool.under(alloc, ty, earlier)?;
    check_fit(i, alloc, w, scope, t, expected, depth_left, steps)
}

// The ids with one after them.
fn followed_by(ids: Vec<TermId>, id: TermId) -> Result<Vec<TermId>, OutOfMemory>
    ensures trees { IfOk result (λ r. (p : List Tree) → trees_at p r.items ≡ join (trees_at p ids.items) (Item (tree_at p id) End)) }
    ensures held { IfOk result (λ r. (n : ℕ) → AllBelow n ids.items → id.at < n → AllBelow n r.items) }
{
    let mut ids = ids;
    ids.push(id)?;
    Ok(ids)
}

// The types of hypotheses. More than `depth_left` of them count as want of memory.
fn context_types(alloc: Global, hyps: &[HeldHyp], depth_left: usize) -> Result<TermIds, OutOfMemory>
    ensures { IfOk result (λ s. ids_of s ≡ types_held hyps.now) }
{
    let depth_left = deeper(depth_left)?;
    match hyps {
        [] => Ok(TermIds::End),
        [hyp, more @ ..] => {
            let rest = context_types(alloc, more, depth_left)?;
            Ok(TermIds::Item(hyp.ty, Box::new(alloc, rest)?))
        }
    }
}
