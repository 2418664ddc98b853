ghost use Rattle.std.specs.Prelude.{◌≡◌, ◌<◌, ◌≤◌};
ghost use Rattle.counter.specs.Clocks.{clock_started, clock_folds, clock_closes};

use super::epoch::Clock;
use model::cores::CoreSet;

impl Clock {
    /// No core has folded or closed.
    pub fn start(cores: u8, epoch: u32) -> Clock
        ensures { result ≡ clock_started cores epoch }
    {
        Clock {
            cores,
            epoch,
            folded: CoreSet::empty(),
            closed: CoreSet::empty(),
        }
    }

    /// The core has folded.
    pub fn fold(&mut self, core: u8)
        requires { core < 16 }
        ensures { self.new ≡ clock_folds core self.old }
    {
        self.folded = self.folded.with(core);
    }

    /// The core has closed. With the last core in service the epoch grows.
    pub fn close(&mut self, core: u8)
        requires core { core < 16 }
        requires few { self.old.cores ≤ 16 }
        requires later { self.old.epoch < 4294967295 }
        ensures { self.new ≡ clock_closes core self.old }
    {
        self.closed = self.closed.with(core);
        if self.closed.holds_all(self.cores) {
            self.epoch += 1;
            self.folded = CoreSet::empty();
            self.closed = CoreSet::empty();
        }
    }
}
