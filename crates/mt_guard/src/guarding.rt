// The guard of an entry.
ghost use Rattle.std.specs.Prelude.{◌≡◌, ◌<◌, ◌↔◌, length, IfOk, IsTrue};
ghost use Rattle.mt_env.specs.Environments.{environment_in, EntriesBelow};
ghost use Rattle.mt_guard.specs.Entries.{guards_entry, GuardedEntry};
ghost use Rattle.mt_pool.specs.HeldOf.{declaration_in, HeldBelow};

use crate::corecursion::is_co_guarded;
use crate::recursion::{Function, is_guarded};
use mt_env::Env;
use mt_pool::{Held, Pool};
use mt_term::OutOfMemory;

/// Whether a recursive or corecursive function, entry `n`, is guarded, where the environment holds
/// all entries before it. Another entry is none.
///
/// # Errors
///
/// `OutOfMemory` where memory is wanting, or a term is deeper than the bound.
#[tactic(auto, using(crate::proofs::Entries::entry_decides))]
pub fn is_entry_guarded(pool: &Pool, env: &Env, n: usize, entry: &Held) -> Result<bool, OutOfMemory>
    requires entries { EntriesBelow (length pool.now) env.now.entries }
    requires held { HeldBelow (length pool.now) entry.now }
    ensures test { IfOk result (λ b. b ≡ guards_entry (environment_in pool.now env.now) n (declaration_in pool.now entry.now)) }
    ensures guard { IfOk result (λ b. IsTrue b ↔ GuardedEntry (environment_in pool.now env.now) n (declaration_in pool.now entry.now)) }
{
    match entry {
        Held::Recursive {
            co: false,
            binders,
            place,
            body,
            ..
        } => {
            let of = Function {
                number: n,
                place: *place,
            };
            is_guarded(pool, env, of, *binders, *body)
        }
        Held::Recursive {
            co: true,
            binders,
            ty,
            body,
            ..
        } => is_co_guarded(pool, env, n, *binders, *ty, *body),
        Held::Axiom { .. } | Held::Definition { .. } | Held::Inductive { .. } => Ok(false),
    }
}
