// The pool.
ghost use Rattle.std.specs.Prelude.{◌≡◌, ◌<◌, ◌≤◌, [], length, take, IfOk, OnOk, OnErr};
ghost use Rattle.mt_term.specs.Depth.{depth as depth_of};
ghost use Rattle.mt_pool.specs.Region.{tree_at, tree_in, Below, Kept, Denotes};

use crate::nodes::{Node, NodeAtDepth, TermId};
use mt_term::OutOfMemory;
use std::alloc::{AllocFailed, Global};
use std::marker::Model;

/// Terms, each built of those before it, seen as the list of the trees that their ids name. No tree
/// is deeper than `MAX_DEPTH`.
#[derive(Drop)]
pub struct Pool {
    nodes: Vec<NodeAtDepth>,
}

impl Model for Pool {
    ghost use Rattle.std.specs.Prelude.{List, []};
    ghost use Rattle.std.specs.Coded.{coded_list};
    ghost use Rattle.mt_term.specs.Trees.{Tree};
    ghost use Rattle.mt_term.specs.TreeCode.{tree_code};
    ghost use Rattle.mt_pool.specs.Region.{built};
    ghost use Rattle.mt_pool.specs.Depths.{nodes_of, IsPlaced};

    ghost Value = { List Tree };

    ghost coded = { coded_list tree_code };

    ghost view = { λ p. built [] (nodes_of p.nodes.items) };

    ghost invariant = { λ p. IsPlaced p.nodes.items };
}

impl Pool {
    /// No term.
    pub fn new(alloc: Global) -> Pool
        ensures { result ≡ [] }
    {
        Pool {
            nodes: Vec::new(alloc),
        }
    }

    /// The node of an id. Its own ids are below the id.
    pub fn node(&self, id: TermId) -> &Node
        requires { id.at < length self.now }
        ensures tree { tree_at self.now id ≡ tree_in self.now result.now }
        ensures below { Below id.at result.now }
    {
        &self.nodes[id.at].node
    }

    /// How deep the tree of an id is.
    pub fn depth(&self, id: TermId) -> usize
        requires { id.at < length self.now }
        ensures depth { result ≡ depth_of (tree_at self.now id) }
        ensures most { result ≤ 2000 }
    {
        self.nodes[id.at].depth
    }

    /// Appends a node, which gets a new id. Where its tree is deeper than `MAX_DEPTH`, memory is
    /// wanting.
    #[tactic(auto, using(crate::proofs::Region::kept))]
    pub fn put(&mut self, node: Node) -> Result<TermId, OutOfMemory>
        requires { Below (length self.old) node }
        ensures kept { Kept self.old self.new }
        ensures tree { IfOk result (λ id. Denotes self.new id (tree_in self.old node)) }
        ensures new { IfOk result (λ id. id.at ≡ length self.old) }
        ensures err { OnErr result (self.new ≡ self.old) }
    {
        let depth = self.node_depth(&node)?;
        let at = self.nodes.len();
        self.nodes.push(NodeAtDepth { node, depth })?;
        Ok(TermId { at })
    }

    /// How many ids are held.
    pub fn len(&self) -> usize
        ensures { result ≡ length self.now }
    {
        self.nodes.len()
    }

    // What was made, or after want of memory the pool with as many ids as were held before.
    pub(crate) fn settle(
        &mut self,
        held: usize,
        made: Result<TermId, OutOfMemory>,
    ) -> Result<TermId, OutOfMemory>
        requires { held ≤ length self.old }
        ensures same { result ≡ made }
        ensures ok { OnOk made (self.new ≡ self.old) }
        ensures err { OnErr made (self.new ≡ take held self.old) }
    {
        if made.is_err() {
            self.nodes.truncate(held);
        }
        made
    }
}
