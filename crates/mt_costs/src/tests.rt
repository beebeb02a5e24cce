// The tables, run on the layers and on the kernel.
ghost use Rattle.std.specs.Prelude.{length};
ghost use Rattle.mt_layers.specs.Environments.{EnvBelow};
ghost use Rattle.mt_store.specs.Held.{StoreBelow};

use crate::answers::Answer;
use crate::checks::CHECKS;
use crate::comparisons::COMPARISONS;
use crate::environment::environment;
use crate::inferences::INFERENCES;
use crate::metavariables::metavariables;
use crate::reading::read;
use crate::reductions::REDUCTIONS;
use crate::rows::{Asked, Row};
use crate::{kernel, layers};
use mt_env::Env;
use mt_pool::Pool;
use mt_store::Store;
use mt_term::{PlainEnv, Stop};
use std::alloc::Global;
use std::test::Fail;

// Whether the layers, and the kernel where it is asked, give the row's answer at its cost.
fn holds(
    alloc: Global,
    pool: &mut Pool,
    env: &Env,
    store: &mut Store,
    plain: &PlainEnv,
    row: &Row,
) -> Result<bool, Stop>
    requires env { EnvBelow (length pool.old) env.now }
    requires store { StoreBelow (length pool.old) store.old }
    ensures env { EnvBelow (length pool.new) env.now }
    ensures store { StoreBelow (length pool.new) store.new }
{
    let t = read(alloc, row.t)?;
    let u = read(alloc, row.u)?;
    let expected = Answer {
        yes: row.yes,
        cost: row.cost,
    };
    let on_layers = layers::ask(alloc, pool, env, store, row.asked, &t, &u)?;
    let on_kernel = match row.asked {
        Asked::Checked => kernel::check(alloc, plain, &t, &u)?,
        _ => on_layers,
    };
    Ok(on_layers == expected && on_kernel == expected)
}

// The number of the first row that does not hold, or for which memory or charges are wanting, from
// this number on.
fn first_wrong(
    alloc: Global,
    pool: &mut Pool,
    env: &Env,
    store: &mut Store,
    plain: &PlainEnv,
    rows: &[Row],
    at: u64,
) -> Option<u64>
    requires env { EnvBelow (length pool.old) env.now }
    requires store { StoreBelow (length pool.old) store.old }
    ensures env { EnvBelow (length pool.new) env.now }
    ensures store { StoreBelow (length pool.new) store.new }
{
    match rows {
        [] => None,
        [row, rest @ ..] => {
            if !matches!(holds(alloc, pool, env, store, plain, row), Ok(true)) {
                return Some(at);
            }
            first_wrong(alloc, pool, env, store, plain, rest, at.wrapping_add(1))
        }
    }
}

// The first row of each table that does not hold.
fn wrong_rows(
    alloc: Global,
    pool: &mut Pool,
    env: &Env,
    store: &mut Store,
    plain: &PlainEnv,
) -> [Option<u64>; 4]
    requires env { EnvBelow (length pool.old) env.now }
    requires store { StoreBelow (length pool.old) store.old }
{
    [
        first_wrong(alloc, pool, env, store, plain, &REDUCTIONS, 0),
        first_wrong(alloc, pool, env, store, plain, &COMPARISONS, 0),
        first_wrong(alloc, pool, env, store, plain, &INFERENCES, 0),
        first_wrong(alloc, pool, env, store, plain, &CHECKS, 0),
    ]
}

#[test]
#[tactic(auto, using(mt_pool::proofs::Region::kept, mt_layers::proofs::Kept::environment_rules, mt_layers::proofs::Kept::added_rules))]
fn each_row_holds(rt: HostRuntime) -> Result<(), Fail> {
    let alloc = rt.alloc();
    let mut pool = Pool::new(alloc);
    let env = environment(alloc, &mut pool)?;
    let mut store = metavariables(alloc, &mut pool)?;
    let plain = env.plain(alloc, &pool, &env.mark())?;
    assert_eq!(rt;
        wrong_rows(alloc, &mut pool, &env, &mut store, &plain),
        [None; 4]
    );
    Ok(())
}
