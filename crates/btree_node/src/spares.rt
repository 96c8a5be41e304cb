//! Nodes made before an insertion.
ghost use Rattle.std.specs.Prelude.{◌≡◌, ◌+◌, ◌<◌, IfOk, IfErr, vec_len};
ghost use Rattle.std.specs.List.{All};
ghost use Rattle.btree_node.specs.Grown.{AreEnough, AreExactly};
ghost use Rattle.node_parts.specs.Tree.{an_empty_inner, an_empty_leaf};

use node_parts::Node;
use record_values::Error;
use std::alloc::Allocator;
use std::marker::Model;

/// Empty nodes for the splits of one insertion.
#[derive(Drop)]
pub struct Spares<A: Allocator> {
    leaf: Option<Box<Node<A>, A>>,
    inner: Vec<Box<Node<A>, A>, A>,
}

impl<A: Allocator> Model for Spares<A> {
    ghost use Rattle.std.specs.Prelude.{◌≡◌, vec_len};
    ghost use Rattle.std.specs.List.{All};
    ghost use Rattle.node_parts.specs.Tree.{an_empty_inner};
    ghost use Rattle.btree_node.specs.Grown.{Nodes, leaves_in, IsSpareLeaf};

    ghost Value = { Nodes };

    ghost view = { λ s. record { leaves = leaves_in s.leaf; inners = vec_len s.inner } };

    ghost invariant = { λ s. IsSpareLeaf s.leaf × All (λ b. b.value ≡ an_empty_inner) s.inner.items };
}

impl<A: Allocator> Spares<A> {
    /// An empty leaf.
    pub fn take_leaf(&mut self) -> Box<Node<A>, A>
        requires some { 0 < self.old.leaves }
        ensures leaf { result.value ≡ an_empty_leaf }
        ensures leaves { self.new.leaves + 1 ≡ self.old.leaves }
        ensures inners { self.new.inners ≡ self.old.inners }
    {
        self.leaf.take().unwrap()
    }

    /// An empty inner node.
    pub fn take_inner(&mut self) -> Box<Node<A>, A>
        requires some { 0 < self.old.inners }
        ensures inner { result.value ≡ an_empty_inner }
        ensures inners { self.new.inners + 1 ≡ self.old.inners }
        ensures leaves { self.new.leaves ≡ self.old.leaves }
    {
        self.inner.pop().unwrap()
    }
}

impl<A: Allocator + Clone> Spares<A> {
    /// So many nodes, the first of them a leaf.
    pub fn new(alloc: &A, count: usize) -> Result<Self, Error>
        ensures enough { IfOk result (AreEnough count) }
        ensures exactly { IfOk result (AreExactly count) }
        ensures no_memory { IfErr result (λ e. e ≡ Error.NoMemory) }
    {
        if count == 0 {
            return Ok(Spares {
                leaf: None,
                inner: Vec::new(alloc.clone()?),
            });
        }
        let node = Node::leaf(alloc.clone()?)?;
        Ok(Spares {
            leaf: Some(Box::new(alloc.clone()?, node)?),
            inner: inner_nodes(alloc, count - 1)?,
        })
    }
}

/// So many empty inner nodes.
fn inner_nodes<A: Allocator + Clone>(
    alloc: &A,
    count: usize,
) -> Result<Vec<Box<Node<A>, A>, A>, Error>
    ensures count { IfOk result (λ nodes. vec_len nodes ≡ count) }
    ensures empty { IfOk result (λ nodes. All (λ b. b.value ≡ an_empty_inner) nodes.items) }
    ensures no_memory { IfErr result (λ e. e ≡ Error.NoMemory) }
{
    let mut nodes = Vec::with_capacity(alloc.clone()?, count)?;
    for _ in 0..count {
        let node = Node::inner(alloc.clone()?)?;
        nodes.push_reserved(Box::new(alloc.clone()?, node)?);
    }
    Ok(nodes)
}
