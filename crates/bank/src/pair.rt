ghost use Rattle.std.specs.Prelude.{◌≡◌, ◌<◌};

use model::page::{Core, Page};

/// A page on a core: what a bank may have a frame for.
#[derive(Clone, Copy)]
pub struct Pair {
    pub core: Core,
    pub page: Page,
    ghost a_core: { core < 16 },
    ghost a_page: { page < 262144 },
}

impl Pair {
    pub fn new(core: Core, page: Page) -> Pair
        requires core { core < 16 }
        requires page { page < 262144 }
        ensures core { result.core ≡ core }
        ensures page { result.page ≡ page }
    {
        Pair { core, page }
    }
}
