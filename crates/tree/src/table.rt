use super::pool::Pool;
use super::slot::{Link, Slot};
use std::marker::Model;

/// The radix tree. Slot s of node n is at n × 64 + s; nodes are numbered from 1, and node 0 is none.
/// Every tree is sound: links, slots and pool agree whenever a call begins or ends.
// Nodes go by number in a fixed table: a rule of the project, 64 nodes and no heap on a call.
// The slots are flat: the borrow check has no rule yet for a struct with an array of arrays of them.
// The links upward stand apart: in one array of nodes, each slot that is written would owe that all links stay.
#[derive(Clone, Copy)]
pub struct Tree {
    pub slots: [Slot; 4160],
    pub links: [Link; 65],
    pub pool: Pool<64>,
}

impl Model for Tree {
    ghost use Rattle.tree.specs.Shape.{Shape};

    ghost Value = { Shape };

    ghost use Rattle.tree.specs.Soundness.{Sound};

    ghost view = { λ t. record { slots = t.slots; links = t.links; pool = t.pool } };

    ghost inverse = { λ v. record { slots = v.slots; links = v.links; pool = v.pool } };

    ghost invariant = { λ t. Sound (record { slots = t.slots; links = t.links; pool = t.pool }) };
}

impl Tree {
    ghost use Rattle.tree.specs.Soundness.{Sound};

    // A walk begins with this, which runs nothing: its proof learns that the tree is sound, and contracts need not ask it.
    pub(super) fn sound(&self)
        ensures { Sound self.now }
    {
        let _ = &self.slots;
    }
}
