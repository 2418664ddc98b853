ghost use Rattle.std.specs.Prelude.{◌≡◌, ℕ, ◌+◌, ◌-◌, ◌*◌, ◌/◌, ◌%◌, ◌<◌, ◌≤◌};
ghost use Rattle.tree.specs.declared.slot.Slot.TheVariants.{Vacant, Child, Value};
ghost use Rattle.tree.specs.Pools.{next_object};
ghost use Rattle.tree.specs.Nodes.{slot_at, link_at, slot_of};
ghost use Rattle.tree.specs.Soundness.{Sound, left};
ghost use Rattle.tree.specs.Changes.{planted, written, grown};
ghost use Rattle.tree.specs.Walks.{Hung};
ghost use Rattle.model.specs.Pages.{Within};

use super::pool::Pool;
use super::slot::{Link, NodeId, Slot};
use super::table::Tree;
use model::page::Mapping;

// Where slot s of node n lies.
fn row(n: NodeId, s: u32) -> usize
    requires { (n < 65) × (s < 64) }
    ensures is { result ≡ n * 64 + s }
    ensures small { result < 4160 }
{
    n as usize * 64 + s as usize
}

impl Tree {
    /// A root with vacant slots, and as many nodes as `nodes` says, the root among them.
    pub fn new(nodes: usize) -> Tree
        requires { (0 < nodes) × (nodes ≤ 64) }
        ensures exact { result ≡ planted nodes }
        ensures sound { Sound result }
    {
        let mut pool = Pool::full(nodes);
        let root = pool.draw().place();
        let mut links = [Link::default(); 65];
        links[root as usize] = Link {
            level: 1,
            parent: 0,
            place: 0,
        };
        Tree {
            slots: [Slot::Vacant; 4160],
            links,
            pool,
        }
    }

    /// Slot s of node n. They stay two numbers: a walk would make a new pair at each step down, with the same bounds to show.
    pub(super) fn at(&self, n: NodeId, s: u32) -> Slot
        requires { (n < 65) × (s < 64) }
        ensures { result ≡ slot_at self.now.slots n s }
    {
        self.slots[row(n, s)]
    }

    /// Slot s of node n comes to hold a value.
    pub(super) fn put(&mut self, n: NodeId, s: u32, e: Mapping)
        requires node { n < 65 }
        requires place { s < 64 }
        requires live { 0 < (link_at self.old.links n).level }
        requires vacant { slot_at self.old.slots n s ≡ Vacant }
        requires fits { Within e }
        ensures { self.new ≡ written n s (Value e) self.old }
    {
        self.slots[row(n, s)] = Slot::Value(e);
    }

    /// A vacant slot above the leaves gets a child with vacant slots.
    pub(super) fn grow(&mut self, n: NodeId, s: u32) -> NodeId
        requires some { 0 < left self.old }
        requires node { n < 65 }
        requires place { s < 64 }
        requires live { 0 < (link_at self.old.links n).level }
        requires above { (link_at self.old.links n).level < 3 }
        requires vacant { slot_at self.old.slots n s ≡ Vacant }
        ensures child { result ≡ next_object self.old.pool }
        ensures exact { self.new ≡ grown n s self.old }
        ensures hung { Hung n s result self.old self.new }
    {
        let k = self.pool.draw().place();
        let level = self.links[n as usize].level + 1;
        self.links[k as usize] = Link {
            level,
            parent: n,
            place: s as u8,
        };
        self.slots[row(n, s)] = Slot::Child(k);
        k
    }
}
