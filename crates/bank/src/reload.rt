ghost use Rattle.std.specs.Prelude.{◌≡◌, ℕ};
ghost use Rattle.bank.specs.ReloadRows.{held, over, Bare, Steps};

use super::bank::Bank;
use super::pair::Pair;
use super::reload_rows::ReloadRows;
use model::page::Frame;

/// Eight entries for each core over any bank, itself included.
#[derive(Drop)]
pub struct ReloadBuffer<B> {
    own: ReloadRows,
    below: B,
}

impl<B: Bank> ReloadBuffer<B> {
    /// An empty buffer, which shows what the bank below shows.
    pub fn new(below: B) -> ReloadBuffer<B>
        ensures bare { Bare result.own.rows }
        ensures below { result.below ≡ below }
        ensures shows { (c p : ℕ) → over (held result.own.rows) (B.Bank.shows result.below) c p ≡ B.Bank.shows below c p }
    {
        ReloadBuffer {
            own: ReloadRows::new(),
            below,
        }
    }
}

impl<B: Bank> Bank for ReloadBuffer<B> {
    ghost shows = { λ b. over (held b.own.rows) (B.Bank.shows b.below) };

    ghost steps = { λ b o a. Steps B B.Bank.steps b.own.rows b.below o a.own.rows a.below };

    fn install(&mut self, pair: Pair, frame: Frame) {
        // The own entry hides an older frame of the page below; only what leaves the buffer goes down.
        if let Some(displaced) = self.own.take(pair, frame) {
            let leaves = Pair::new(pair.core, displaced.page);
            self.below.install(leaves, displaced.frame);
        }
    }

    fn drop_page(&mut self, pair: Pair) {
        self.own.vacate(pair.core, pair.page);
        // An older frame of the page may still be below.
        self.below.drop_page(pair);
    }

    fn show(&self, pair: Pair) -> Option<Frame> {
        self.own
            .frame_of(pair.core, pair.page)
            .or_else(|| self.below.show(pair))
    }

    fn clear(&mut self) {
        self.own = ReloadRows::new();
        self.below.clear();
    }
}
