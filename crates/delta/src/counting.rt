ghost use Rattle.std.specs.Prelude.{◌≡◌, ◌<◌, ◌≤◌};
ghost use Rattle.counter.specs.Meaning.{begun};
ghost use Rattle.counter.specs.Timeline.{Timeline};
ghost use Rattle.ledger.specs.States.{started, StateSteps};
ghost use Rattle.delta.specs.Safety.{delta_meaning};
ghost use Rattle.delta.specs.Promptness.{OnTime};
ghost use Rattle.delta.specs.View.{tables};
ghost use Rattle.delta.specs.Keeps.{keeps_meaning};
ghost use Rattle.delta.specs.Onward.{keeps_time};
ghost use Rattle.delta.specs.Onward;

use super::cache::DeltaCache;
use counter::counter::Counter;
use counter::kind::Kind;
use ledger::ledger::Ledger;
use ledger::spot::Spot;
use std::marker::PhantomData;

/// Each core reports its changes late; an object is found dead after two quiet epochs on a review list.
impl<K: Kind> Counter<K> for DeltaCache<K> {
    ghost meaning = { λ s. delta_meaning (tables s) };

    ghost steps = { λ s op t. StateSteps (tables s) op (tables t) };

    ghost timely = { λ s p. OnTime K.Kind.CAPACITY (tables s) p };

    ghost prompt = { Unit {0} };

    ghost means = { λ s t op may step. keeps_meaning K.Kind.CAPACITY K.Kind.REVIVES (tables s) (tables t) op K.Kind.small.1 may step s.sound };

    ghost onward = { λ s t op p may step turn timely. keeps_time K.Kind.CAPACITY K.Kind.REVIVES (tables s) (tables t) op p K.Kind.small.1 may step s.sound turn timely };

    ghost bound = { λ prompt s. Onward.bound K.Kind.CAPACITY (tables s) };

    fn start(cores: u8, epoch: u32) -> DeltaCache<K>
        requires few { cores ≤ 16 }
        ensures means { delta_meaning (tables result) ≡ begun cores epoch }
        ensures timely { (p : Timeline) → OnTime K.Kind.CAPACITY (tables result) p }
        ensures exact { tables result ≡ started cores epoch }
    {
        DeltaCache {
            kind: PhantomData,
            ledger: Ledger::new(cores, epoch),
        }
    }

    fn give(&mut self, object: u16, holders: u32) {
        self.ledger.give(object, holders);
    }

    fn up(&mut self, core: u8, object: u16) {
        self.ledger.up(Spot { core, object });
    }

    fn down(&mut self, core: u8, object: u16) {
        self.ledger.down(Spot { core, object });
    }

    fn revive(&mut self, core: u8, object: u16) {
        self.ledger.revive(Spot { core, object });
    }

    fn fold(&mut self, core: u8) {
        self.ledger.fold(core);
    }

    fn judge(&mut self, core: u8, object: u16) -> bool {
        self.ledger.judge(core, object)
    }

    fn close(&mut self, core: u8) {
        self.ledger.close(core);
    }
}
