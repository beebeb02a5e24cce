// Bodies of metavariables under their terms.
ghost use Rattle.std.specs.Prelude.{◌≡◌, ◌<◌, length, IfOk};
ghost use Rattle.mt_layers.specs.Environments.{found_in, FoundBelow};
ghost use Rattle.mt_pool.specs.Region.{ids_of, trees_at, AllBelow, Kept};
ghost use Rattle.mt_store.specs.Held.{store_in, StoreBelow};
ghost use Rattle.mt_rules.specs.WeakHead.{body_under};
ghost use Rattle.mt_term.specs.Stores.{body_of};

use mt_layers::listed_ids;
use mt_pool::{Pool, TermId, TermIds};
use mt_store::Store;
use mt_term::OutOfMemory;
use std::alloc::Global;

/// The body of a metavariable under its terms, where it has one.
#[tactic(auto, using(crate::proofs::Held::reduce_rules, crate::proofs::Bodies::body_rules))]
pub fn body_under(
    pool: &mut Pool,
    alloc: Global,
    store: &Store,
    n: usize,
    s: &TermIds,
) -> Result<Option<TermId>, OutOfMemory>
    requires terms { AllBelow (length pool.old) (ids_of s.now) }
    requires store_held { StoreBelow (length pool.old) store.now }
    ensures kept { Kept pool.old pool.new }
    ensures held { IfOk result (λ o. FoundBelow (length pool.new) o) }
    ensures tree { IfOk result (λ o. found_in pool.new o ≡ body_under (body_of ((store_in pool.old store.now).at n)) (trees_at pool.old (ids_of s.now))) }
{
    match store.body(n) {
        None => Ok(None),
        Some(body) => {
            let s = listed_ids(alloc, s)?;
            let t = pool.under(alloc, body, &s)?;
            Ok(Some(t))
        }
    }
}
