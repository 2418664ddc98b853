ghost use Rattle.std.specs.Prelude.{◌≡◌, ℕ, ◌+◌, ◌-◌, ◌*◌, ◌/◌, ◌%◌, ◌<◌, ◌≤◌};
ghost use Rattle.tree.specs.declared.slot.Slot.TheVariants.{Vacant, Child, Value};
ghost use Rattle.tree.specs.Nodes.{slot_at, link_at};
ghost use Rattle.tree.specs.Soundness.{Sound, left};
ghost use Rattle.tree.specs.Need.{part, need_mid, root_part, need};
ghost use Rattle.tree.specs.Room.{room_for};
ghost use Rattle.tree.specs.Pools.{in_use};

use super::pages::Pages;
use super::slot::{NodeId, Slot};
use super::table::Tree;
use model::fault::TreeFault;

impl Slot {
    // How many children a slot above a leaf draws, where its block of 64 pages is met in these.
    fn need(self, pages: Pages) -> usize
        ensures is { result ≡ part self (pages.last - pages.first) }
        ensures few { result ≤ 1 }
    {
        match self {
            Slot::Vacant => { if pages.len() == 64 { 0 } else { 1 } }
            Slot::Child(_) | Slot::Value(_) => 0,
        }
    }
}

impl Tree {
    /// How many nodes can be drawn.
    pub fn free_nodes(&self) -> usize
        ensures { result ≡ left self.now }
    {
        self.pool.free()
    }

    /// How many nodes are drawn, the root among them.
    pub fn nodes_in_use(&self) -> usize
        ensures { result ≡ in_use self.now.pool }
    {
        self.pool.in_use()
    }

    // The children that a fill under a middle node draws: only the first and the last block can be met in part.
    // Node 0 stands for one with vacant slots, and no Option does: the same look reads it.
    fn need_of_middle(&self, m: NodeId, pages: Pages) -> usize
        requires node { m < 65 }
        ensures is { result ≡ need_mid self.now.slots m pages.first pages.last }
        ensures few { result ≤ 2 }
    {
        pages.at_ends::<64, _>(|part| self.at(m, part.first / 64 % 64).need(part))
    }

    // Under one slot of the root. Not one function with a slot's above a leaf: a new middle node draws children of its own.
    fn need_of_top(&self, pages: Pages) -> usize
        ensures is { result ≡ root_part self.now.slots (slot_at self.now.slots 1 (pages.first / 4096)) pages.first pages.last }
        ensures few { result ≤ 3 }
    {
        self.sound();
        match self.at(1, pages.first / 4096) {
            Slot::Vacant => {
                if pages.len() == 4096 {
                    return 0;
                }
                1 + self.need_of_middle(0, pages)
            }
            Slot::Child(m) => self.need_of_middle(m, pages),
            Slot::Value(_) => 0,
        }
    }

    // How many children a fill of the range draws, inside new nodes too.
    fn need(&self, pages: Pages) -> usize
        ensures { result ≡ need self.now.slots pages.first pages.last }
    {
        pages.at_ends::<4096, _>(|part| self.need_of_top(part))
    }

    /// Refuses a fill that needs more nodes than are free.
    pub fn check_room(&self, pages: Pages) -> Result<(), TreeFault>
        ensures { result ≡ room_for pages.first pages.last self.now }
    {
        if self.free_nodes() < self.need(pages) {
            return Err(TreeFault::TooFewNodes {
                place: Some(pages.first),
            });
        }
        Ok(())
    }
}
