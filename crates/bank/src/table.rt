ghost use Rattle.std.specs.Prelude.{◌≡◌, ◌<◌};
ghost use Rattle.bank.specs.Meaning.{Empty};
ghost use Rattle.bank.specs.Tables.{Layout, Lawful, shown, Stepped, Vacant};

use super::bank::Bank;
use super::pair::Pair;
use model::page::Frame;

/// What stands in an entry of a table with N entries that is not empty.
pub trait Occupant<const N: usize>: Copy {
    // Where a pair has its entry, what stands there, which pair it is of, and the frame that it gives.
    ghost layout: { Layout N Self };

    /// The only entry that may have the pair.
    fn place(pair: Pair) -> usize
        ensures place { result ≡ layout.place pair.core pair.page }
        ensures within { result < N };

    /// What stands there for the pair with its frame.
    fn new(pair: Pair, frame: Frame) -> Self
        ensures { result ≡ layout.made pair.core pair.page frame };

    /// Whether it is of this very pair.
    fn is_of(self, pair: Pair) -> bool
        ensures { result ≡ layout.is_of self pair.core pair.page };

    /// The frame that it gives.
    fn frame(self) -> Frame
        ensures { result ≡ layout.gives self };

    ghost lawful: { Lawful layout };
}

/// A table of N entries, in which each pair has one.
#[derive(Drop)]
pub struct Table<E, const N: usize> {
    entries: [Option<E>; N],
}

impl<E: Occupant<N>, const N: usize> Table<E, N> {
    /// Every entry is empty.
    pub fn new() -> Table<E, N>
        ensures means { Empty (shown E.layout result.entries) }
        ensures exact { Vacant E.layout result.entries }
    {
        Table { entries: [None; N] }
    }
}

impl<E: Occupant<N>, const N: usize> Bank for Table<E, N> {
    ghost shows = { λ t. shown E.layout t.entries };

    ghost steps = { λ old o new. Stepped E.layout old.entries o new.entries };

    // The newcomer displaces the occupant.
    fn install(&mut self, pair: Pair, frame: Frame) {
        self.entries[E::place(pair)] = Some(E::new(pair, frame));
    }

    fn drop_page(&mut self, pair: Pair) {
        let at = E::place(pair);
        if let Some(occupant) = self.entries[at]
            && occupant.is_of(pair)
        {
            self.entries[at] = None;
        }
    }

    fn show(&self, pair: Pair) -> Option<Frame> {
        let occupant = self.entries[E::place(pair)]?;
        occupant.is_of(pair).then_some(occupant.frame())
    }

    fn clear(&mut self) {
        *self = Table::new();
    }
}
