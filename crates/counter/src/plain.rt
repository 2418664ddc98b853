ghost use Rattle.std.specs.Prelude.{◌≡◌, ◌<◌, ◌≤◌};
ghost use Rattle.counter.specs.Meaning.{how_many, begun};
ghost use Rattle.counter.specs.Plain.{table_meaning, blank_table, count_at, one_more, TableSteps, TableTimely};
ghost use Rattle.counter.specs.PlainView.{table_of};
ghost use Rattle.counter.specs.Timeline.{Timeline};
ghost use Rattle.std.proofs.Common.{arith};
ghost use Rattle.counter.specs.PlainTime.{plain_means, plain_onward};

use super::count::PlainCount;
use super::counter::Counter;
use super::epoch::Clock;
use super::kind::Kind;
use std::marker::PhantomData;

impl<K> PlainCount<K> {
    /// How many hold the object; nobody holds a free one.
    fn holders_of(&self, object: u16) -> u32
        requires { object ≤ 1024 }
        ensures { result ≡ how_many (count_at (table_of self.now) object) }
    {
        self.counts[object as usize].unwrap_or(0)
    }

    /// One holder more.
    fn raise(&mut self, object: u16)
        requires known { object ≤ 1024 }
        requires room { how_many (count_at (table_of self.old) object) < 65536 }
        ensures { table_of self.new ≡ one_more object (table_of self.old) }
    {
        self.counts[object as usize] = Some(self.holders_of(object) + 1);
    }
}

/// Judges dead any object in use that nobody holds.
impl<K: Kind> Counter<K> for PlainCount<K> {
    ghost meaning = { λ s. table_meaning (table_of s) };

    ghost steps = { λ s op t. TableSteps (table_of s) op (table_of t) };

    ghost timely = { λ s p. TableTimely K.Kind.CAPACITY (table_of s) p };

    ghost prompt = { Unit {0} };

    ghost means = { λ s t op may step. plain_means K.Kind.CAPACITY K.Kind.REVIVES (table_of s) (table_of t) op (omega (arith, s.full, K.Kind.small.1)) may step };

    ghost onward = { λ s t op p may step turn timely. plain_onward K.Kind.CAPACITY K.Kind.REVIVES (table_of s) (table_of t) op p (omega (arith, s.full, K.Kind.small.1)) may step turn timely };

    ghost bound = { λ prompt s p timely o is z. omega (arith, (timely o is z).soon) };

    fn start(cores: u8, epoch: u32) -> PlainCount<K>
        requires few { cores ≤ 16 }
        ensures means { table_meaning (table_of result) ≡ begun cores epoch }
        ensures timely { (p : Timeline) → TableTimely K.Kind.CAPACITY (table_of result) p }
        ensures exact { table_of result ≡ blank_table cores epoch }
    {
        PlainCount {
            kind: PhantomData,
            counts: [None; 1025],
            clock: Clock::start(cores, epoch),
        }
    }

    fn give(&mut self, object: u16, holders: u32) {
        self.counts[object as usize] = Some(holders);
    }

    fn up(&mut self, core: u8, object: u16) {
        self.raise(object);
    }

    fn down(&mut self, core: u8, object: u16) {
        self.counts[object as usize] = Some(self.holders_of(object) - 1);
    }

    fn revive(&mut self, core: u8, object: u16) {
        self.raise(object);
    }

    fn fold(&mut self, core: u8) {
        self.clock.fold(core);
    }

    fn judge(&mut self, core: u8, object: u16) -> bool {
        let entry = self.counts[object as usize];
        match entry {
            Some(0) => {
                self.counts[object as usize] = None;
                true
            }
            _ => false,
        }
    }

    fn close(&mut self, core: u8) {
        self.clock.close(core);
    }
}
