// Copies of the lists in nodes, and indices past binders.
ghost use Rattle.std.specs.Prelude.{◌≡◌, ◌+◌, IfOk};
ghost use Rattle.mt_pool.specs.Region.{ids_of, branches_of};

use crate::nodes::{BranchIds, TermIds};
use mt_term::{OutOfMemory, deeper};
use std::alloc::Global;

/// A copy of the ids of a metavariable's terms. A list longer than `depth_left` counts as want of
/// memory.
pub fn copy_ids(alloc: Global, ids: &TermIds, depth_left: usize) -> Result<TermIds, OutOfMemory>
    ensures { IfOk result (λ copied. ids_of copied ≡ ids_of ids.now) }
{
    let depth_left = deeper(depth_left)?;
    match ids {
        TermIds::End => Ok(TermIds::End),
        TermIds::Item(id, ids) => {
            let ids = Box::new(alloc, copy_ids(alloc, ids, depth_left)?)?;
            Ok(TermIds::Item(*id, ids))
        }
    }
}

/// A copy of the branches of a match. A list longer than `depth_left` counts as want of memory.
pub fn copy_branches(
    alloc: Global,
    branches: &BranchIds,
    depth_left: usize,
) -> Result<BranchIds, OutOfMemory>
    ensures { IfOk result (λ copied. branches_of copied ≡ branches_of branches.now) }
{
    let depth_left = deeper(depth_left)?;
    match branches {
        BranchIds::End => Ok(BranchIds::End),
        BranchIds::Item(names, body, branches) => {
            let names = names.clone()?;
            let branches = Box::new(alloc, copy_branches(alloc, branches, depth_left)?)?;
            Ok(BranchIds::Item(names, *body, branches))
        }
    }
}

// An index past further binders. Where no number is so large, memory is wanting.
pub(crate) fn past(index: usize, binders: usize) -> Result<usize, OutOfMemory>
    ensures { IfOk result (λ further. further ≡ index + binders) }
{
    index.checked_add(binders).ok_or(OutOfMemory)
}
