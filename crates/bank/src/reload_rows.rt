ghost use Rattle.std.specs.Prelude.{◌≡◌, ℕ, ◌<◌, Some, None};
ghost use Rattle.bank.specs.Meaning.{Dropped, Empty};
ghost use Rattle.bank.specs.ReloadRows.{held, Bare, Displaced, Took, Vacates};

use super::pair::Pair;
use super::reload_row::ReloadRow;
use super::translation::Translation;
use model::page::{Core, Frame, Page};

/// A row for each core.
// A pair would ask more of a caller of what tells or empties than these do: a page that there is.
#[derive(Drop)]
pub struct ReloadRows {
    rows: [ReloadRow; 16],
}

impl ReloadRows {
    /// No entry, and every turn at the first one.
    pub fn new() -> ReloadRows
        ensures bare { Bare result.rows }
        ensures empty { Empty (held result.rows) }
    {
        ReloadRows {
            rows: [ReloadRow::new(); 16],
        }
    }

    /// The frame that the core's own row has for the page.
    pub fn frame_of(&self, core: Core, page: Page) -> Option<Frame>
        requires { core < 16 }
        ensures { result ≡ held self.now.rows core page }
    {
        self.rows[core as usize].frame_of(page)
    }

    /// Takes the page in at the core's row, and answers what it displaced.
    pub fn take(&mut self, pair: Pair, frame: Frame) -> Option<Translation>
        ensures here { held self.new.rows pair.core pair.page ≡ Some frame }
        ensures rest { Displaced pair.core pair.page result (held self.old.rows) (held self.new.rows) }
        ensures exact { Took pair.core (record { page = pair.page; frame = frame }) result self.old.rows self.new.rows }
    {
        let newcomer = Translation {
            page: pair.page,
            frame,
        };
        self.rows[pair.core as usize].take(newcomer)
    }

    /// Empties the entry with the page at the core's row, if there is one.
    pub fn vacate(&mut self, core: Core, page: Page)
        requires { core < 16 }
        ensures means { Dropped core page (held self.old.rows) (held self.new.rows) }
        ensures exact { Vacates core page self.old.rows self.new.rows }
    {
        self.rows[core as usize].vacate(page);
    }
}
