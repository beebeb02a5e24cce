// The environment that the tables speak of.
ghost use Rattle.std.specs.Prelude.{length, IfOk};
ghost use Rattle.mt_layers.specs.Environments.{EnvBelow};

use crate::entries::{COUNT, entry};
use mt_env::{Env, EnvStop};
use mt_pool::Pool;
use mt_term::Entry;
use std::alloc::Global;

#[tactic(auto, using(mt_layers::proofs::Kept::environment_rules))]
fn add(alloc: Global, pool: &mut Pool, env: &mut Env, entry: &Entry) -> Result<(), EnvStop>
    requires { EnvBelow (length pool.old) env.old }
    ensures { EnvBelow (length pool.new) env.new }
{
    env.add(alloc, pool, entry)?;
    Ok(())
}

// Adds the entry of a number.
fn add_entry(alloc: Global, pool: &mut Pool, env: &mut Env, number: usize) -> Result<(), EnvStop>
    requires { EnvBelow (length pool.old) env.old }
    ensures { EnvBelow (length pool.new) env.new }
{
    let entry = entry(alloc, number)?;
    add(alloc, pool, env, &entry)
}

/// The entries, in the order of their numbers.
#[tactic(auto, using(mt_layers::proofs::Kept::added_rules))]
pub fn environment(alloc: Global, pool: &mut Pool) -> Result<Env, EnvStop>
    ensures { IfOk result (λ env. EnvBelow (length pool.new) env) }
{
    let mut env = Env::new(alloc);
    for number in 0..COUNT {
        add_entry(alloc, pool, &mut env, number)?;
    }
    Ok(env)
}
