ghost use Rattle.std.specs.Prelude.{◌≡◌, ◌+◌, ◌<◌, ◌≤◌};
ghost use Rattle.space.specs.Calls.{map_answer, map_after};
ghost use Rattle.space.specs.Laws.{Maps, Accepted};
ghost use Rattle.space.specs.View.{state};

use super::space::Space;
use counter::counter::Counter;
use counter::kind::Nodes;
use model::fault::SpaceFault;
use model::page::{Core, Label, Mapping, Page};

impl<N: Counter<Nodes> + Drop> Space<N> {
    /// Maps the pages of a range with a label, no frame and an empty core set. Answer: 0, the number that a record is answered.
    pub fn map(
        &mut self,
        core: Core,
        label: Label,
        first: Page,
        count: u32,
    ) -> Result<u32, SpaceFault>
        ensures answer { result ≡ map_answer core label first count (state self.old) }
        ensures state { state self.new ≡ map_after core label first count (state self.old) }
        ensures accepted { Accepted result (Maps core label first count self.old self.new) self.old self.new }
    {
        let pages = self.check_map(core, label, first, count)?;
        self.tree
            .fill(&mut self.nodes, core, pages, Mapping::fresh(label));
        Ok(0)
    }
}
