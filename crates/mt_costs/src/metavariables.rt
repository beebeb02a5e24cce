// The store that the tables speak of.
ghost use Rattle.std.specs.Prelude.{◌<◌, ℕ, length, IfOk};
ghost use Rattle.mt_pool.specs.HeldOf.{ContextBelow};
ghost use Rattle.mt_pool.specs.Region.{Kept};
ghost use Rattle.mt_store.specs.Held.{StoreBelow};

use crate::entries::{NAT, next, zero};
use crate::terms::{ind, var};
use mt_pool::{Context, HeldHyp, Pool, TermId};
use mt_store::Store;
use mt_term::{Name, OutOfMemory, Term};
use std::alloc::Global;

/// An open number, in the empty context.
pub const OPEN: usize = 0;

/// `S O`, in the empty context.
pub const GIVEN: usize = 1;

/// `S x`, in the context of one number.
pub const NEXT: usize = 2;

/// An open number, in the context of one number.
pub const OPEN_UNDER: usize = 3;

// A context of one number, or of none.
fn numbers(alloc: Global, nat: TermId, one: bool) -> Result<Context, OutOfMemory>
    ensures { IfOk result (λ c. (n : ℕ) → nat.at < n → ContextBelow n c) }
{
    let mut context = Context::new(alloc);
    if one {
        context.push(HeldHyp {
            name: Name::new(alloc),
            ty: nat,
        })?;
    }
    Ok(context)
}

// Adds an open number, in the context of one number or of none.
#[tactic(auto, using(mt_pool::proofs::Region::kept, mt_layers::proofs::Kept::environment_rules))]
fn add(alloc: Global, pool: &mut Pool, store: &mut Store, under: bool) -> Result<(), OutOfMemory>
    requires { StoreBelow (length pool.old) store.old }
    ensures kept { Kept pool.old pool.new }
    ensures held { StoreBelow (length pool.new) store.new }
{
    let nat = pool.import(alloc, &ind(NAT))?;
    let context = numbers(alloc, nat, under)?;
    store.declare(pool, &context, nat)?;
    Ok(())
}

// Gives an open metavariable its body.
#[tactic(auto, using(mt_pool::proofs::Region::kept, mt_layers::proofs::Kept::environment_rules))]
fn give(
    alloc: Global,
    pool: &mut Pool,
    store: &mut Store,
    n: usize,
    body: &Term,
) -> Result<(), OutOfMemory>
    requires { StoreBelow (length pool.old) store.old }
    ensures kept { Kept pool.old pool.new }
    ensures held { StoreBelow (length pool.new) store.new }
{
    let body = pool.import(alloc, body)?;
    if store.is_open(n) {
        store.assign(pool, n, body)?;
    }
    Ok(())
}

// Adds the metavariables, all of them open.
#[tactic(auto, using(mt_pool::proofs::Region::kept, mt_layers::proofs::Kept::environment_rules))]
fn add_all(alloc: Global, pool: &mut Pool, store: &mut Store) -> Result<(), OutOfMemory>
    requires { StoreBelow (length pool.old) store.old }
    ensures kept { Kept pool.old pool.new }
    ensures held { StoreBelow (length pool.new) store.new }
{
    add(alloc, pool, store, false)?;
    add(alloc, pool, store, false)?;
    add(alloc, pool, store, true)?;
    add(alloc, pool, store, true)
}

/// The store.
#[tactic(auto, using(mt_pool::proofs::Region::kept, mt_layers::proofs::Kept::environment_rules, mt_layers::proofs::Kept::added_rules))]
pub fn metavariables(alloc: Global, pool: &mut Pool) -> Result<Store, OutOfMemory>
    ensures kept { Kept pool.old pool.new }
    ensures held { IfOk result (λ s. StoreBelow (length pool.new) s) }
{
    let given = next(alloc, zero())?;
    let after = next(alloc, var(0))?;
    let mut store = Store::new(alloc);
    add_all(alloc, pool, &mut store)?;
    give(alloc, pool, &mut store, GIVEN, &given)?;
    give(alloc, pool, &mut store, NEXT, &after)?;
    Ok(store)
}
