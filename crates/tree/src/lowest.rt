ghost use Rattle.std.specs.Prelude.{◌≡◌, ℕ, ◌+◌, ◌-◌, ◌*◌, ◌/◌, ◌%◌, ◌<◌, ◌≤◌, Bool};
ghost use Rattle.model.specs.Pages.{PageState};
ghost use Rattle.model.specs.Flat.{lowest};
ghost use Rattle.tree.specs.Soundness.{Sound};
ghost use Rattle.tree.specs.Search.{Tells, found_at};

use super::pages::Pages;
use super::slot::Slot;
use super::table::Tree;
use model::page::{Mapping, Page};

impl Tree {
    // Both levels have their match in one nested walk, left by a label: the form that is wanted here.
    // Not inlined: within a large caller the loop over a leaf's pages took nearly twice the time.
    /// The lowest page of the range that is in use and fits.
    #[inline(never)]
    pub fn lowest<F: Fn(Mapping) -> bool>(&self, pages: Pages, fits: F) -> Option<Page>
        requires calls { F.IsAlwaysCallable fits }
        ensures { (test : PageState → Bool) → Tells (F.post fits) test → result ≡ lowest (found_at test self.now) pages.first (pages.last - pages.first) }
    {
        self.sound();
        let found = 'walk: {
            for top in pages.first_block::<4096>()..pages.end_block::<4096>() {
                let under = pages.in_block::<4096>(top);
                let middle = match self.at(1, top) {
                    Slot::Vacant => continue,
                    Slot::Value(mapping) if fits(mapping) => break 'walk Some(under.first),
                    Slot::Value(_) => continue,
                    Slot::Child(middle) => middle,
                };
                for block in under.first_block::<64>()..under.end_block::<64>() {
                    let part = under.in_block::<64>(block);
                    let leaf = match self.at(middle, block % 64) {
                        Slot::Vacant => continue,
                        Slot::Value(mapping) if fits(mapping) => break 'walk Some(part.first),
                        Slot::Value(_) => continue,
                        Slot::Child(leaf) => leaf,
                    };
                    for page in part.first..part.last {
                        if self.at(leaf, page % 64).state().is_some_and(&fits) {
                            break 'walk Some(page);
                        }
                    }
                }
            }
            None
        };
        found
    }
}
