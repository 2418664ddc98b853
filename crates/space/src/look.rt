ghost use Rattle.std.specs.Prelude.{◌≡◌};
ghost use Rattle.space.specs.Calls.{look_answer_of};
ghost use Rattle.space.specs.View.{state};

use super::check::check_page;
use super::space::Space;
use counter::counter::Counter;
use counter::kind::Nodes;
use model::fault::SpaceFault;
use model::page::{Page, answer};

impl<N: Counter<Nodes> + Drop> Space<N> {
    /// What is told of a page: label + 256 × frame + 16,777,216 × (owner + 1).
    pub fn look(&self, page: Page) -> Result<u32, SpaceFault>
        ensures { result ≡ look_answer_of page (state self.now) }
    {
        check_page(page)?;
        Ok(answer(self.tree.look(page)))
    }
}
