// The layers' answers.
ghost use Rattle.std.specs.Prelude.{◌≡◌, ◌<◌, ◌+◌, length, IfOk};
ghost use Rattle.mt_layers.specs.Environments.{EnvBelow};
ghost use Rattle.mt_pool.specs.Region.{Kept};
ghost use Rattle.mt_store.specs.Held.{StoreBelow};

use crate::answers::{ALLOWANCE, Answer, answer_of};
use crate::rows::{Asked, Form};
use mt_convert::Comparer;
use mt_env::Env;
use mt_infer::Inferrer;
use mt_layers::{Convert, Infer, Whd, Work};
use mt_pool::{Context, Node, Pool, TermId};
use mt_reduce::Reducer;
use mt_store::Store;
use mt_term::{Mode, Stop, Term};
use mt_text::{Ledger, PlainLedger, Steps};
use std::alloc::Global;
use std::sync::ledger::Blank;

// The type of a closed term.
#[tactic(auto, using(mt_pool::proofs::Region::kept, mt_layers::proofs::Kept::environment_rules))]
fn infer<L: Ledger>(
    alloc: Global,
    w: &mut Work<'_>,
    t: TermId,
    steps: &mut Steps<L>,
) -> Result<TermId, Stop>
    requires held { t.at < length w.old.pool.now }
    requires env_held { EnvBelow (length w.old.pool.now) w.old.env.now }
    requires store_held { StoreBelow (length w.old.pool.now) w.old.store.now }
    ensures same_pool { w.new.pool.ghost_name ≡ w.old.pool.ghost_name }
    ensures env { w.new.env ≡ w.old.env }
    ensures store { w.new.store ≡ w.old.store }
    ensures kept { Kept w.old.pool.now w.new.pool.now }
    ensures result_held { IfOk result (λ u. u.at < length w.new.pool.now) }
    ensures cost { steps.new + w.new.left ≡ steps.old + w.old.left }
{
    let context = Context::new(alloc);
    let layer = Inferrer::new(Comparer::new(Reducer::new()), Reducer::new());
    layer.infer(alloc, w, &context, t, steps)
}

// Whether the first has the second as its type, as the kernel asks it.
#[tactic(auto, using(mt_pool::proofs::Region::kept, mt_layers::proofs::Kept::environment_rules))]
fn has_type<L: Ledger>(
    alloc: Global,
    w: &mut Work<'_>,
    t: TermId,
    u: TermId,
    steps: &mut Steps<L>,
) -> Result<bool, Stop>
    requires first { t.at < length w.old.pool.now }
    requires second { u.at < length w.old.pool.now }
    requires env_held { EnvBelow (length w.old.pool.now) w.old.env.now }
    requires store_held { StoreBelow (length w.old.pool.now) w.old.store.now }
    ensures same_pool { w.new.pool.ghost_name ≡ w.old.pool.ghost_name }
    ensures env { w.new.env ≡ w.old.env }
    ensures store { w.new.store ≡ w.old.store }
    ensures kept { Kept w.old.pool.now w.new.pool.now }
    ensures cost { steps.new + w.new.left ≡ steps.old + w.old.left }
{
    let sort = infer(alloc, w, u, steps)?;
    let sort = Reducer::new().whd(alloc, w, sort, steps)?;
    if !matches!(w.pool.node(sort), Node::Sort(_)) {
        return Ok(false);
    }
    let found = infer(alloc, w, t, steps)?;
    Comparer::new(Reducer::new()).convert(alloc, w, Mode::AtMost, found, u, steps)
}

// The form of a term.
#[tactic(auto, using(mt_pool::proofs::Region::kept, mt_layers::proofs::Kept::environment_rules))]
fn form_of<L: Ledger>(
    alloc: Global,
    w: &mut Work<'_>,
    form: Form,
    t: TermId,
    steps: &mut Steps<L>,
) -> Result<TermId, Stop>
    requires held { t.at < length w.old.pool.now }
    requires env_held { EnvBelow (length w.old.pool.now) w.old.env.now }
    requires store_held { StoreBelow (length w.old.pool.now) w.old.store.now }
    ensures same_pool { w.new.pool.ghost_name ≡ w.old.pool.ghost_name }
    ensures env { w.new.env ≡ w.old.env }
    ensures store { w.new.store ≡ w.old.store }
    ensures kept { Kept w.old.pool.now w.new.pool.now }
    ensures result_held { IfOk result (λ u. u.at < length w.new.pool.now) }
    ensures cost { steps.new + w.new.left ≡ steps.old + w.old.left }
{
    match form {
        Form::WeakHead => Reducer::new().whd(alloc, w, t, steps),
        Form::Normal => Reducer::new().normal(alloc, w, t, steps),
        Form::Type => infer(alloc, w, t, steps),
        Form::Instance => Ok(w.instance(alloc, t)?),
    }
}

// Whether the second is this form of the first.
#[tactic(auto, using(mt_pool::proofs::Region::kept, mt_layers::proofs::Kept::environment_rules))]
fn has_form<L: Ledger>(
    alloc: Global,
    w: &mut Work<'_>,
    form: Form,
    t: TermId,
    u: TermId,
    steps: &mut Steps<L>,
) -> Result<bool, Stop>
    requires first { t.at < length w.old.pool.now }
    requires second { u.at < length w.old.pool.now }
    requires env_held { EnvBelow (length w.old.pool.now) w.old.env.now }
    requires store_held { StoreBelow (length w.old.pool.now) w.old.store.now }
    ensures same_pool { w.new.pool.ghost_name ≡ w.old.pool.ghost_name }
    ensures env { w.new.env ≡ w.old.env }
    ensures store { w.new.store ≡ w.old.store }
    ensures kept { Kept w.old.pool.now w.new.pool.now }
    ensures cost { steps.new + w.new.left ≡ steps.old + w.old.left }
{
    let found = form_of(alloc, w, form, t, steps)?;
    Ok(w.pool.alike(found, u))
}

// Whether what is asked is so.
#[tactic(auto, using(mt_pool::proofs::Region::kept, mt_layers::proofs::Kept::environment_rules))]
fn is_so<L: Ledger>(
    alloc: Global,
    w: &mut Work<'_>,
    asked: Asked,
    t: TermId,
    u: TermId,
    steps: &mut Steps<L>,
) -> Result<bool, Stop>
    requires first { t.at < length w.old.pool.now }
    requires second { u.at < length w.old.pool.now }
    requires env_held { EnvBelow (length w.old.pool.now) w.old.env.now }
    requires store_held { StoreBelow (length w.old.pool.now) w.old.store.now }
    ensures same_pool { w.new.pool.ghost_name ≡ w.old.pool.ghost_name }
    ensures env { w.new.env ≡ w.old.env }
    ensures store { w.new.store ≡ w.old.store }
    ensures kept { Kept w.old.pool.now w.new.pool.now }
    ensures cost { steps.new + w.new.left ≡ steps.old + w.old.left }
{
    match asked {
        Asked::Has(form) => has_form(alloc, w, form, t, u, steps),
        Asked::Compared(mode) => {
            Comparer::new(Reducer::new()).convert(alloc, w, mode, t, u, steps)
        }
        Asked::Checked => has_type(alloc, w, t, u, steps),
    }
}

// The answer, with a counter of its own.
#[tactic(auto, using(mt_pool::proofs::Region::kept, mt_layers::proofs::Kept::environment_rules))]
fn answered<L: Ledger>(
    alloc: Global,
    pool: &mut Pool,
    env: &Env,
    store: &mut Store,
    asked: Asked,
    t: &Term,
    u: &Term,
    blank: Blank,
) -> Result<Answer, Stop>
    requires env { EnvBelow (length pool.old) env.now }
    requires store { StoreBelow (length pool.old) store.old }
    requires name { blank.name ≡ L.name }
    requires parts { blank.parts ≡ L.parts }
    requires some { 0 < L.parts }
    ensures env { EnvBelow (length pool.new) env.now }
    ensures store { StoreBelow (length pool.new) store.new }
{
    let mut steps = Steps::<L>::new(blank);
    let t = pool.import(alloc, t)?;
    let u = pool.import(alloc, u)?;
    let mut w = Work {
        pool: &mut *pool,
        env,
        store: &mut *store,
        left: ALLOWANCE,
    };
    let found = is_so(alloc, &mut w, asked, t, u, &mut steps);
    answer_of(found, ALLOWANCE - w.left)
}

/// The answer to what is asked of two terms; where types are inferred, they are closed.
///
/// # Errors
///
/// `Spent` where the allowance does not suffice to say, and want of memory.
pub fn ask(
    alloc: Global,
    pool: &mut Pool,
    env: &Env,
    store: &mut Store,
    asked: Asked,
    t: &Term,
    u: &Term,
) -> Result<Answer, Stop>
    requires env { EnvBelow (length pool.old) env.now }
    requires store { StoreBelow (length pool.old) store.old }
    ensures env { EnvBelow (length pool.new) env.now }
    ensures store { StoreBelow (length pool.new) store.new }
{
    answered::<PlainLedger>(alloc, pool, env, store, asked, t, u, Blank::new(1))
}
