// The types of entries.
ghost use Rattle.std.specs.Prelude.{◌≡◌, ℕ, List, slice_get};
ghost use Rattle.mt_layers.specs.Environments.{environment_in, found_in, EnvBelow, FoundBelow};
ghost use Rattle.mt_rules.specs.Inference.{constant_type, inductive_type};
ghost use Rattle.mt_term.specs.Trees.{Tree};

use mt_env::Env;
use mt_layers::entry;
use mt_pool::{Held, TermId};

/// The type of a constant.
pub fn constant_type(env: &Env, c: usize) -> Option<TermId>
    ensures tree { (p : List Tree) → found_in p result ≡ constant_type (slice_get (environment_in p env.now).entries c) }
    ensures held { (m : ℕ) → EnvBelow m env.now → FoundBelow m result }
{
    match entry(env, c) {
        None | Some(Held::Inductive { .. }) => None,
        Some(Held::Axiom { ty, .. }) => Some(*ty),
        Some(Held::Definition { ty, .. }) => Some(*ty),
        Some(Held::Recursive { ty, .. }) => Some(*ty),
    }
}

/// The type of an inductive type.
pub fn inductive_type(env: &Env, e: usize) -> Option<TermId>
    ensures tree { (p : List Tree) → found_in p result ≡ inductive_type (slice_get (environment_in p env.now).entries e) }
    ensures held { (m : ℕ) → EnvBelow m env.now → FoundBelow m result }
{
    match entry(env, e) {
        Some(Held::Inductive { ty, .. }) => Some(*ty),
        None
        | Some(Held::Axiom { .. })
        | Some(Held::Definition { .. })
        | Some(Held::Recursive { .. }) => None,
    }
}
