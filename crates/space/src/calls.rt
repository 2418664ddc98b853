ghost use Rattle.std.specs.Prelude.{◌≡◌};
ghost use Rattle.space.specs.Calls.{set_up_answer, set_up_after, map_answer, map_after, look_answer_of};
ghost use Rattle.space.specs.Memories.{memory_state, WasSetUp, Mapped};
ghost use Rattle.tree.specs.Pools.{in_use};
ghost use Rattle.space.specs.States.{before_set_up};

use super::memory::Memory;
use super::space::Space;
use model::fault::SpaceFault;
use model::page::{Core, Epoch, Label, Page};

// The numbers of a call and its answer stay plain, as the records have them: a struct would only repeat the call.
// Each call passes on to the space, and has a contract that names no counter.
impl Memory {
    /// A memory before set up: no cores, epoch 0, all pages vacant.
    pub fn new() -> Memory
        ensures { memory_state result ≡ before_set_up }
    {
        Memory {
            space: Space::new(),
        }
    }

    /// Begins anew with 1 to 16 cores, 1 to 1,024 frames, 1 to 64 nodes and a starting epoch. Answer: 0.
    pub fn set_up(
        &mut self,
        cores: u8,
        frames: u32,
        nodes: u32,
        epoch: Epoch,
    ) -> Result<u32, SpaceFault>
        ensures answer { result ≡ set_up_answer cores frames nodes }
        ensures state { memory_state self.new ≡ set_up_after cores frames nodes epoch (memory_state self.old) }
        ensures law { WasSetUp result cores epoch self.old self.new }
    {
        self.space.set_up(cores, frames, nodes, epoch)
    }

    /// Maps the pages of a range with a label, no frame and an empty core set. Answer: 0.
    pub fn map(
        &mut self,
        core: Core,
        label: Label,
        first: Page,
        count: u32,
    ) -> Result<u32, SpaceFault>
        ensures answer { result ≡ map_answer core label first count (memory_state self.old) }
        ensures state { memory_state self.new ≡ map_after core label first count (memory_state self.old) }
        ensures law { Mapped result core label first count self.old self.new }
    {
        self.space.map(core, label, first, count)
    }

    /// What is told of a page: label + 256 × frame + 16,777,216 × (owner + 1), an absent part counting 0.
    pub fn look(&self, page: Page) -> Result<u32, SpaceFault>
        ensures { result ≡ look_answer_of page (memory_state self.now) }
    {
        self.space.look(page)
    }

    pub fn epoch(&self) -> Epoch
        ensures { result ≡ (memory_state self.now).epoch }
    {
        self.space.epoch
    }

    /// How many frames are out of their pool.
    pub fn frames_in_use(&self) -> usize
        ensures { result ≡ in_use (memory_state self.now).frames }
    {
        self.space.frames.in_use()
    }

    /// How many nodes are out of their pool, the root among them.
    pub fn nodes_in_use(&self) -> usize
        ensures { result ≡ in_use (memory_state self.now).tree.pool }
    {
        self.space.tree.nodes_in_use()
    }
}
