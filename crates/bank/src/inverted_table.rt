ghost use Rattle.std.specs.Prelude.{◌≡◌, ℕ};
ghost use Rattle.bank.specs.Layouts.{all_cores};
ghost use Rattle.std.proofs.Common.{refl, arith};
ghost use Rattle.std.proofs.lemmas.Bool.Decides.{nat_tests};

use super::pair::Pair;
use super::table::{Occupant, Table};
use model::page::{Core, Frame, Page};

/// One table of 256 entries for all cores together.
pub type InvertedTable = Table<Tagged, 256>;

/// A page with its frame on the core that it names: the pages of several cores share an entry.
#[derive(Clone, Copy)]
pub struct Tagged {
    pub core: Core,
    pub page: Page,
    pub frame: Frame,
}

impl Occupant<256> for Tagged {
    ghost layout = { all_cores };

    // It names both, so the place tells nothing.
    ghost lawful = { record {
      own = λ c p f. Prim.grind (arith, nat_tests);
      frame = λ c p f. refl;
      alone = λ e c p d q is same apart. Prim.grind (arith, nat_tests);
    } };

    // Cores are 16 entries apart, so that one page does not meet itself.
    fn place(pair: Pair) -> usize {
        (pair.page as usize + 16 * pair.core as usize) % 256
    }

    fn new(pair: Pair, frame: Frame) -> Tagged {
        Tagged {
            core: pair.core,
            page: pair.page,
            frame,
        }
    }

    fn is_of(self, pair: Pair) -> bool {
        self.core == pair.core && self.page == pair.page
    }

    fn frame(self) -> Frame {
        self.frame
    }
}
