ghost use Rattle.std.specs.Prelude.{◌≡◌, ℕ};
ghost use Rattle.bank.specs.Layouts.{per_core};
ghost use Rattle.std.proofs.Common.{refl, arith};
ghost use Rattle.std.proofs.lemmas.Bool.Decides.{nat_tests};

use super::pair::Pair;
use super::table::{Occupant, Table};
use super::translation::Translation;
use model::page::Frame;

/// Page tables: 256 entries for each of 16 cores, one core after another.
pub type PageTables = Table<Translation, 4096>;

// A translation need not name its core: each core has entries of its own.
impl Occupant<4096> for Translation {
    ghost layout = { per_core };

    // The same page at the same place is on the same core.
    ghost lawful = { record {
      own = λ c p f. Prim.grind (arith, nat_tests);
      frame = λ c p f. refl;
      alone = λ e c p d q is same apart. Prim.grind (arith, nat_tests);
    } };

    fn place(pair: Pair) -> usize {
        pair.core as usize * 256 + pair.page as usize % 256
    }

    fn new(pair: Pair, frame: Frame) -> Translation {
        Translation {
            page: pair.page,
            frame,
        }
    }

    fn is_of(self, pair: Pair) -> bool {
        self.page == pair.page
    }

    fn frame(self) -> Frame {
        self.frame
    }
}
