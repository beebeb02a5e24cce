// Entries of an environment, where they are there.
ghost use Rattle.std.specs.Prelude.{◌≡◌, ℕ, List, slice_get};
ghost use Rattle.mt_layers.specs.Environments.{declaration_seen, environment_in, found_in, EnvBelow, FoundBelow, SeenBelow};
ghost use Rattle.mt_pool.specs.HeldOf.{constructors_in, ConstructorsBelow};
ghost use Rattle.mt_term.specs.Declarations.{constructor_at};
ghost use Rattle.mt_rules.specs.Inference.{constructor_type};
ghost use Rattle.mt_term.specs.Seen.{seen};
ghost use Rattle.mt_term.specs.Trees.{Tree};

use mt_env::Env;
use mt_pool::{Held, HeldCons, HeldConstructor, TermId};

#[tactic(auto, using(crate::proofs::Kept::past_end))]
fn held_at(env: &Env, n: usize) -> Option<&Held>
    ensures { seen result ≡ slice_get env.now.entries n }
{
    if n < env.len() {
        Some(env.entry(n))
    } else {
        None
    }
}

/// The entry of a number.
pub fn entry(env: &Env, n: usize) -> Option<&Held>
    ensures tree { (p : List Tree) → declaration_seen p result ≡ slice_get (environment_in p env.now).entries n }
    ensures held { (m : ℕ) → EnvBelow m env.now → SeenBelow m result }
{
    held_at(env, n)
}

fn constructor_at(constructors: &HeldCons, k: usize) -> Option<&HeldConstructor>
    ensures { seen result ≡ slice_get constructors.now k }
{
    constructors.get(k)
}

/// The type of a constructor of these.
pub fn type_of_constructor(constructors: &HeldCons, k: usize) -> Option<TermId>
    ensures tree { (p : List Tree) → found_in p result ≡ constructor_type (slice_get (constructors_in p constructors.now) k) }
    ensures held { (m : ℕ) → ConstructorsBelow m constructors.now → FoundBelow m result }
{
    match constructor_at(constructors, k) {
        Some(constructor) => Some(constructor.ty),
        None => None,
    }
}

/// The type of constructor `k` of entry `e`.
pub fn constructor_type(env: &Env, e: usize, k: usize) -> Option<TermId>
    ensures tree { (p : List Tree) → found_in p result ≡ constructor_type (constructor_at (environment_in p env.now).entries e k) }
    ensures held { (m : ℕ) → EnvBelow m env.now → FoundBelow m result }
{
    match entry(env, e) {
        Some(Held::Inductive { cons, .. }) => type_of_constructor(cons, k),
        None
        | Some(Held::Axiom { .. })
        | Some(Held::Definition { .. })
        | Some(Held::Recursive { .. }) => None,
    }
}
