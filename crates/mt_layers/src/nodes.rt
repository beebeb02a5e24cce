// Nodes, copied out of a pool that is then changed.
ghost use Rattle.std.specs.Prelude.{◌≡◌, ◌<◌, ◌++◌, length, IfOk, OnOk};
ghost use Rattle.mt_pool.specs.Region.{branches_of, ids_of, tree_at, tree_in, Below};

use mt_pool::{BranchIds, Node, Pool, TermId, TermIds};
use mt_term::{MAX_DEPTH, OutOfMemory, deeper};
use std::alloc::{AllocFailed, Global};
use std::clone::Clone;

/// The same ids. A list of more than `depth_left` counts as want of memory.
pub fn copy_ids(alloc: Global, s: &TermIds, depth_left: usize) -> Result<TermIds, OutOfMemory>
    ensures { IfOk result (λ r. ids_of r ≡ ids_of s.now) }
{
    let depth_left = deeper(depth_left)?;
    match s {
        TermIds::End => Ok(TermIds::End),
        TermIds::Item(t, rest) => {
            let rest = Box::new(alloc, copy_ids(alloc, rest, depth_left)?)?;
            Ok(TermIds::Item(*t, rest))
        }
    }
}

/// The ids in a row. More than a bound of them count as want of memory.
pub fn listed_ids(alloc: Global, s: &TermIds) -> Result<Vec<TermId>, OutOfMemory>
    ensures { IfOk result (λ v. v.items ≡ ids_of s.now) }
{
    let mut listed = Vec::new(alloc);
    push_ids(&mut listed, s, MAX_DEPTH)?;
    Ok(listed)
}

fn push_ids(listed: &mut Vec<TermId>, s: &TermIds, depth_left: usize) -> Result<(), OutOfMemory>
    ensures { OnOk result (listed.new.items ≡ listed.old.items ++ ids_of s.now) }
{
    let depth_left = deeper(depth_left)?;
    match s {
        TermIds::End => Ok(()),
        TermIds::Item(t, rest) => {
            listed.push(*t)?;
            push_ids(listed, rest, depth_left)
        }
    }
}

/// The same branches. More than `depth_left` of them count as want of memory.
pub fn copy_branches(
    alloc: Global,
    bs: &BranchIds,
    depth_left: usize,
) -> Result<BranchIds, OutOfMemory>
    ensures { IfOk result (λ cs. branches_of cs ≡ branches_of bs.now) }
{
    let depth_left = deeper(depth_left)?;
    match bs {
        BranchIds::End => Ok(BranchIds::End),
        BranchIds::Item(names, body, rest) => {
            let rest = Box::new(alloc, copy_branches(alloc, rest, depth_left)?)?;
            Ok(BranchIds::Item(names.clone()?, *body, rest))
        }
    }
}

/// A copy of the node of an id.
#[tactic(auto, using(mt_pool::proofs::Region::kept))]
pub fn copy_node(alloc: Global, pool: &Pool, id: TermId) -> Result<Node, OutOfMemory>
    requires { id.at < length pool.now }
    ensures tree { IfOk result (λ node. tree_at pool.now id ≡ tree_in pool.now node) }
    ensures below { IfOk result (λ node. Below (length pool.now) node) }
{
    match pool.node(id) {
        Node::Var(i) => Ok(Node::Var(*i)),
        Node::Sort(s) => Ok(Node::Sort(s.clone()?)),
        Node::Prod(x, a, b) => Ok(Node::Prod(x.clone()?, *a, *b)),
        Node::Lam(x, a, b) => Ok(Node::Lam(x.clone()?, *a, *b)),
        Node::App(f, a) => Ok(Node::App(*f, *a)),
        Node::Const(c) => Ok(Node::Const(*c)),
        Node::Ind(e) => Ok(Node::Ind(*e)),
        Node::Con(e, k) => Ok(Node::Con(*e, *k)),
        Node::Match(e, r, c, bs) => {
            let bs = copy_branches(alloc, bs, MAX_DEPTH)?;
            Ok(Node::Match(*e, *r, *c, bs))
        }
        Node::Meta(n, s) => {
            let s = copy_ids(alloc, s, MAX_DEPTH)?;
            Ok(Node::Meta(*n, s))
        }
    }
}
