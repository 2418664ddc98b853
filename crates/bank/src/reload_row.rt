ghost use Rattle.std.specs.Prelude.{◌≡◌, ℕ, ◌<◌, true, length, replicate, Some, None, slice_index_or};
ghost use Rattle.std.specs.List.{position};
ghost use Rattle.bank.specs.ReloadEntries.{own, once, paged, has_page, Taken, Vacated, Displaces};

use super::translation::Translation;
use model::page::{Frame, Page};

/// The entries of one core, which newcomers take in turn.
#[derive(Clone, Copy)]
pub struct ReloadRow {
    entries: [Option<Translation>; 8],
    /// The entry that the next newcomer takes.
    turn: u8,
    ghost within: { turn < 8 },
    ghost single: { once entries ≡ true },
    // What is displaced goes to a bank that takes only such pages.
    ghost pages: { (k : ℕ) → paged (slice_index_or entries k None) < 262144 },
}

impl ReloadRow {
    /// No entry, and the turn at the first one.
    pub fn new() -> ReloadRow
        ensures empty { result.entries ≡ replicate 8 None }
        ensures turn { result.turn ≡ 0 }
    {
        ReloadRow {
            entries: [None; 8],
            turn: 0,
        }
    }

    /// The frame that the row has for the page.
    pub fn frame_of(&self, page: Page) -> Option<Frame>
        ensures { result ≡ own self.now.entries page }
    {
        self.entries[self.place_of(page)?].map(|entry| entry.frame)
    }

    /// The place of the entry with the page.
    fn place_of(&self, page: Page) -> Option<usize>
        ensures { result ≡ position (has_page page) self.now.entries }
    {
        self.entries
            .iter()
            .position(|slot| slot.is_some_and(|entry| entry.page == page))
    }

    /// Takes a newcomer in, and answers what it displaced.
    pub fn take(&mut self, newcomer: Translation) -> Option<Translation>
        requires { newcomer.page < 262144 }
        ensures here { own self.new.entries newcomer.page ≡ Some newcomer.frame }
        ensures rest { Displaces newcomer.page result self.old.entries self.new.entries }
        ensures inside { paged result < 262144 }
        ensures exact { Taken newcomer result self.old.entries self.new.entries self.old.turn self.new.turn }
    {
        match self.place_of(newcomer.page) {
            Some(i) => {
                self.entries[i] = Some(newcomer);
                None
            }
            None => {
                let slot = &mut self.entries[self.turn as usize];
                let displaced = slot.replace(newcomer);
                self.turn = (self.turn + 1) % 8;
                displaced
            }
        }
    }

    /// Empties the entry with the page, if there is one.
    pub fn vacate(&mut self, page: Page)
        ensures here { own self.new.entries page ≡ None }
        ensures rest { Displaces page None self.old.entries self.new.entries }
        ensures turn { self.new.turn ≡ self.old.turn }
        ensures exact { Vacated page self.old.entries self.new.entries }
    {
        if let Some(i) = self.place_of(page) {
            self.entries[i] = None;
        }
    }
}
