ghost use Rattle.std.specs.Prelude.{◌≡◌, ℕ, Option};
ghost use Rattle.bank.specs.Meaning.{Installed, Dropped, Empty, Operation};
ghost use Rattle.bank.specs.Meaning.Operation.{Install, DropPage, Clear};

use super::pair::Pair;
use model::page::Frame;

/// A bank of translations.
// A pair and its frame stay two: every other operation takes the pair alone.
pub trait Bank {
    // The frame that a core has for a page, if it has one.
    ghost shows: { Self → ℕ → ℕ → Option ℕ };
    // What exactly one operation makes of the bank; each implementation gives its own equation.
    ghost steps: { Self → Operation → Self → Type 0 };

    /// The pair shows the frame; every other pair is as before or gone.
    fn install(&mut self, pair: Pair, frame: Frame)
        ensures means { Installed pair.core pair.page frame (shows self.old) (shows self.new) }
        ensures exact { steps self.old (Install pair.core pair.page frame) self.new };

    /// The pair is gone; every other pair is as before.
    fn drop_page(&mut self, pair: Pair)
        ensures means { Dropped pair.core pair.page (shows self.old) (shows self.new) }
        ensures exact { steps self.old (DropPage pair.core pair.page) self.new };

    /// The frame of the pair.
    fn show(&self, pair: Pair) -> Option<Frame>
        ensures { result ≡ shows self.now pair.core pair.page };

    /// Every pair is gone.
    fn clear(&mut self)
        ensures means { Empty (shows self.new) }
        ensures exact { steps self.old Clear self.new };
}
