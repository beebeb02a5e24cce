// How deep the trees of nodes are.
ghost use Rattle.std.specs.Prelude.{◌≡◌, ◌+◌, ◌≤◌, length, IfOk, OnErr};
ghost use Rattle.mt_term.specs.Depth.{depth as depth_of, depth_all, depth_arms};
ghost use Rattle.mt_pool.specs.Region.{trees_at, arms_at, tree_in, ids_of, branches_of, AllBelow, ArmsBelow, Below};

use crate::nodes::{BranchIds, Node, TermIds};
use crate::pools::Pool;
use mt_term::{MAX_DEPTH, OutOfMemory, deeper};

// One step above what is so deep. Past `MAX_DEPTH` memory is wanting.
fn above(depth: usize) -> Result<usize, OutOfMemory>
    ensures depth { IfOk result (λ raised. raised ≡ depth + 1) }
    ensures most { IfOk result (λ raised. raised ≤ 2000) }
    ensures err { OnErr result (2000 ≤ depth) }
{
    if MAX_DEPTH <= depth {
        return Err(OutOfMemory);
    }
    Ok(depth + 1)
}

impl Pool {
    // How deep a node's tree is. Past `MAX_DEPTH` memory is wanting.
    pub(crate) fn node_depth(&self, node: &Node) -> Result<usize, OutOfMemory>
        requires { Below (length self.now) node.now }
        ensures depth { IfOk result (λ d. d ≡ depth_of (tree_in self.now node.now)) }
        ensures most { IfOk result (λ d. d ≤ 2000) }
    {
        match node {
            Node::Var(_) | Node::Sort(_) | Node::Const(_) | Node::Ind(_) | Node::Con(_, _) => Ok(1),
            Node::Prod(_, a, b) => above(self.depth(*a).max(self.depth(*b))),
            Node::Lam(_, a, b) => above(self.depth(*a).max(self.depth(*b))),
            Node::App(f, a) => above(self.depth(*f).max(self.depth(*a))),
            Node::Match(_, r, c, bs) => {
                let arms = self.branches_depth(bs, MAX_DEPTH)?;
                above(self.depth(*r).max(self.depth(*c)).max(arms))
            }
            Node::Meta(_, s) => above(self.ids_depth(s, MAX_DEPTH)?),
        }
    }

    fn ids_depth(&self, ids: &TermIds, depth_left: usize) -> Result<usize, OutOfMemory>
        requires { AllBelow (length self.now) (ids_of ids.now) }
        ensures { IfOk result (λ d. d ≡ depth_all (trees_at self.now (ids_of ids.now))) }
    {
        let depth_left = deeper(depth_left)?;
        match ids {
            TermIds::End => Ok(1),
            TermIds::Item(t, ts) => {
                let rest = self.ids_depth(ts, depth_left)?;
                above(self.depth(*t).max(rest))
            }
        }
    }

    fn branches_depth(&self, branches: &BranchIds, depth_left: usize) -> Result<usize, OutOfMemory>
        requires { ArmsBelow (length self.now) (branches_of branches.now) }
        ensures { IfOk result (λ d. d ≡ depth_arms (arms_at self.now (branches_of branches.now))) }
    {
        let depth_left = deeper(depth_left)?;
        match branches {
            BranchIds::End => Ok(1),
            BranchIds::Item(_, body, bs) => {
                let rest = self.branches_depth(bs, depth_left)?;
                above(self.depth(*body).max(rest))
            }
        }
    }
}
