ghost use Rattle.std.specs.Prelude.{◌≡◌, ◌<◌, ◌≤◌, true};
ghost use Rattle.counter.specs.Meaning.{begun, given};
ghost use Rattle.space.specs.Checks.{set_up_check};
ghost use Rattle.space.specs.Calls.{set_up_answer, set_up_after};
ghost use Rattle.space.specs.Laws.{SetUp, Accepted};
ghost use Rattle.space.specs.States.{set_up_state, before_set_up};
ghost use Rattle.space.specs.View.{state};

use super::check::check_set_up;
use super::space::Space;
use counter::counter::Counter;
use counter::kind::Nodes;
use model::fault::SpaceFault;
use model::page::Epoch;
use tree::pool::Pool;
use tree::table::Tree;

// A counter that knows the root, which is held once by being the root.
fn rooted<N: Counter<Nodes>>(cores: u8, epoch: Epoch) -> N
    requires { cores ≤ 16 }
    ensures { N.Counter.meaning result ≡ given 1 1 (begun cores epoch) }
{
    let mut nodes = N::start(cores, epoch);
    nodes.give(1, 1);
    nodes
}

impl<N: Counter<Nodes> + Drop> Space<N> {
    // A space with all pages vacant, and pools that are full but for the root. No type has its bounds:
    // before set up there are no cores and no frames, which a set up may not ask for.
    fn begun(cores: u8, frames: u32, nodes: u32, epoch: Epoch) -> Space<N>
        requires cores { cores ≤ 16 }
        requires frames { frames ≤ 1024 }
        requires nodes { (0 < nodes) × (nodes ≤ 64) }
        ensures state { state result ≡ set_up_state cores frames nodes epoch }
        ensures nodes { N.Counter.meaning result.nodes ≡ given 1 1 (begun cores epoch) }
    {
        Space {
            cores,
            epoch,
            frames: Pool::full(frames as usize),
            tree: Tree::new(nodes as usize),
            nodes: rooted(cores, epoch),
        }
    }

    /// A space before set up: no cores, epoch 0, all pages vacant.
    pub fn new() -> Space<N>
        ensures { state result ≡ before_set_up }
    {
        Space::begun(0, 0, 1, 0)
    }

    /// Begins anew with 1 to 16 cores, 1 to 1,024 frames, 1 to 64 nodes and a starting epoch. Answer: 0, as of a map.
    pub fn set_up(
        &mut self,
        cores: u8,
        frames: u32,
        nodes: u32,
        epoch: Epoch,
    ) -> Result<u32, SpaceFault>
        ensures answer { result ≡ set_up_answer cores frames nodes }
        ensures state { state self.new ≡ set_up_after cores frames nodes epoch (state self.old) }
        ensures accepted { Accepted result (SetUp cores epoch (N.Counter.meaning self.new.nodes) (state self.new)) self.old self.new }
    {
        check_set_up(cores, frames, nodes)?;
        *self = Space::begun(cores, frames, nodes, epoch);
        Ok(0)
    }
}
