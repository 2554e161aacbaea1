ghost use Rattle.std.specs.Prelude.{◌≡◌, ◌<◌, ◌≤◌, ◌++◌, ◌∷◌, [], length};
ghost use Rattle.journal_text.specs.LineRuns.{nodes_ahead, nodes_of_line, pairs_ahead, pairs_of_line, is_above as is_above_of};

use crate::fields::{next_node, next_number};
use road_graph::NodeNo;
use std::marker::Model;

/// The most nodes on a line.
pub(crate) const NODES_ON_LINE: usize = 64;

/// The most pairs of a node and its value on a line.
pub(crate) const PAIRS_ON_LINE: usize = 32;

/// The largest value of a potential.
pub(crate) const LARGEST_VALUE: u64 = (1 << 53) - 1;

/// The nodes that stand on one line, at most 64.
#[derive(Drop)]
pub(crate) struct NodeRun {
    held: [NodeNo; NODES_ON_LINE],
    count: usize,
}

impl Model for NodeRun {
    ghost use Rattle.std.specs.Prelude.{List, take, ◌≤◌};
    ghost use Rattle.road_graph.specs.declared.road.NodeNo.{NodeNo as Node};

    ghost Value = { List Node };

    ghost view = { λ a. take a.count a.held };

    ghost invariant = { λ a. a.count ≤ 64 };
}

impl NodeRun {
    fn new() -> NodeRun
        ensures { result ≡ [] }
    {
        NodeRun {
            held: [NodeNo(0); NODES_ON_LINE],
            count: 0,
        }
    }

    fn len(&self) -> usize
        ensures { result ≡ length self.now }
    {
        self.as_slice().len()
    }

    /// Puts a node at the end.
    fn put(&mut self, node: NodeNo)
        requires { length self.old < 64 }
        ensures { self.new ≡ self.old ++ node ∷ [] }
    {
        self.held[self.count] = node;
        self.count += 1;
    }

    pub(crate) fn as_slice(&self) -> &[NodeNo]
        ensures { result.now ≡ self.now }
    {
        &self.held[..self.count]
    }
}

/// The nodes, each behind a space, that the bytes spell. None exactly where they spell none, something else or more than 64.
pub(crate) fn nodes_on_line(bytes: &[u8]) -> Option<NodeRun>
    ensures { result ≡ nodes_of_line bytes.now }
{
    let run = next_nodes(bytes)?;
    if run.len() == 0 { None } else { Some(run) }
}

/// The same where they may spell none.
fn next_nodes(bytes: &[u8]) -> Option<NodeRun>
    ensures { result ≡ nodes_ahead 64 bytes.now }
{
    let mut run = NodeRun::new();
    let mut rest = bytes;
    while !rest.is_empty() {
        if run.len() == NODES_ON_LINE {
            return None;
        }
        let (node, behind) = next_node(rest)?;
        run.put(node);
        rest = behind;
    }
    Some(run)
}

/// The pairs that stand on one line, at most 32.
#[derive(Drop)]
pub(crate) struct PairRun {
    held: [(NodeNo, u64); PAIRS_ON_LINE],
    count: usize,
}

impl Model for PairRun {
    ghost use Rattle.std.specs.Prelude.{List, ℕ, take, ◌≤◌};
    ghost use Rattle.road_graph.specs.declared.road.NodeNo.{NodeNo as Node};

    ghost Value = { List (Node × ℕ) };

    ghost view = { λ a. take a.count a.held };

    ghost invariant = { λ a. a.count ≤ 32 };
}

impl PairRun {
    fn new() -> PairRun
        ensures { result ≡ [] }
    {
        PairRun {
            held: [(NodeNo(0), 0); PAIRS_ON_LINE],
            count: 0,
        }
    }

    fn len(&self) -> usize
        ensures { result ≡ length self.now }
    {
        self.as_slice().len()
    }

    /// Puts a pair at the end.
    fn put(&mut self, node: NodeNo, value: u64)
        requires { length self.old < 32 }
        ensures { self.new ≡ self.old ++ (node, value) ∷ [] }
    {
        self.held[self.count] = (node, value);
        self.count += 1;
    }

    pub(crate) fn as_slice(&self) -> &[(NodeNo, u64)]
        ensures { result.now ≡ self.now }
    {
        &self.held[..self.count]
    }
}

/// The pairs of a node and its value, each number behind a space, that the bytes spell. The nodes rise, and are above the last one
/// before them. None exactly where they spell none, something else or more than 32.
pub(crate) fn pairs_on_line(bytes: &[u8], last: Option<NodeNo>) -> Option<PairRun>
    ensures { result ≡ pairs_of_line bytes.now last }
{
    let run = next_pairs(bytes, last)?;
    if run.len() == 0 { None } else { Some(run) }
}

/// The same where they may spell none.
fn next_pairs(bytes: &[u8], last: Option<NodeNo>) -> Option<PairRun>
    ensures { result ≡ pairs_ahead 32 last bytes.now }
{
    let mut run = PairRun::new();
    let mut last = last;
    let mut rest = bytes;
    while !rest.is_empty() {
        if run.len() == PAIRS_ON_LINE {
            return None;
        }
        let (node, behind) = next_node(rest)?;
        let (value, behind) = next_number(behind, LARGEST_VALUE)?;
        if !is_above(node, last) {
            return None;
        }
        run.put(node, value);
        last = Some(node);
        rest = behind;
    }
    Some(run)
}

/// Whether a node is above the last one, where there is one.
fn is_above(node: NodeNo, last: Option<NodeNo>) -> bool
    ensures { result ≡ is_above_of node last }
{
    match last {
        Some(last) => last.0 < node.0,
        None => true,
    }
}
