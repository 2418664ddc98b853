use model::page::Mapping;

/// A node's number. That it is one of the table's is a fact of the tree, which says it of every child: a type would say it twice.
pub type NodeId = u16;

/// What a slot of a node has. Above a leaf, a value stands for every page of its block.
#[derive(Clone, Copy)]
pub enum Slot {
    Vacant,
    Child(NodeId),
    Value(Mapping),
}

/// Where a node hangs: at slot `place` of its parent.
#[derive(Clone, Copy, Default)]
pub struct Link {
    /// The root has level 1, a leaf 3, a free node 0. A number, and of a free node no None: a child's is its node's and one more, with nothing to test.
    pub level: u8,
    pub parent: NodeId,
    pub place: u8,
}
