ghost use Rattle.std.specs.Prelude.{◌≡◌, ℕ, ◌+◌, ◌%◌, ◌<◌, ◌≤◌, pos, negsuc, ◌+ℤ◌, None, unsigned_abs};
ghost use Rattle.counter.specs.Meaning.{Operation};
ghost use Rattle.counter.specs.Meaning.Operation.{Give, Up, Down, Revive, Fold, Judge, Close};
ghost use Rattle.ledger.specs.Slots.{change_in, by_of};
ghost use Rattle.ledger.specs.States.{Ready, StateSteps, started, reported, at_limit, is_full, make_room, moved, shift, slot_at, slot_of};
ghost use Rattle.ledger.specs.View.{state};

use super::ledger::{Ledger, Records};
use super::record::{Record, Visit};
use super::slot::{DELTA_LIMIT, Delta, Move};
use super::slots::{DeltaSlots, row_of};
use super::spot::Spot;
use counter::epoch::Clock;
use model::page::Core;

impl Delta {
    /// Whether the change is as far this way as it may be.
    fn at_limit(self, way: Move) -> bool
        ensures { result ≡ at_limit way self.change }
    {
        // With `step` this would need a wider type, or a change known to be within the limit.
        match way {
            Move::Gain => self.change >= DELTA_LIMIT,
            Move::Loss => self.change <= -DELTA_LIMIT,
        }
    }
}

impl Move {
    /// What it adds to a change.
    fn step(self) -> i8
        ensures { result ≡ by_of self }
    {
        match self {
            Move::Gain => 1,
            Move::Loss => -1,
        }
    }
}

// Whether a slot has another object, or its change cannot move.
fn is_full(slot: Option<Delta>, object: u16, way: Move) -> bool
    ensures { result ≡ is_full way object slot }
{
    slot.is_some_and(|delta| delta.object != object || delta.at_limit(way))
}

// The change in a slot, moved by one. An empty slot has none.
fn next_change(slot: Option<Delta>, way: Move) -> i8
    requires { unsigned_abs (change_in slot +ℤ by_of way) ≤ 100 }
    ensures { result ≡ change_in slot +ℤ by_of way }
{
    slot.map_or(0, |delta| delta.change) + way.step()
}

// `Ready` is asked of calls for one fact, that no object's total passes 65,536: an up can break it here, and only what `delta` knows keeps it.
impl Ledger {
    /// Every object free, every slot empty.
    pub fn new(cores: u8, epoch: u32) -> Ledger
        ensures { state result ≡ started cores epoch }
    {
        Ledger {
            records: Records {
                entries: [Record::BLANK; 1025],
            },
            slots: DeltaSlots::new(),
            clock: Clock::start(cores, epoch),
        }
    }

    // The core comes now.
    fn visit(&self, core: Core) -> Visit
        ensures core { result.core ≡ core }
        ensures epoch { result.epoch ≡ self.now.clock.epoch }
    {
        Visit {
            core,
            epoch: self.clock.epoch,
        }
    }

    // What a slot of a core has goes into the record of its object.
    fn fold_slot(&mut self, core: Core, row: u8)
        requires { Ready (state self.old) }
        ensures { state self.new ≡ reported core row (slot_at (state self.old) row) (state self.old) }
    {
        let Some(delta) = self.slots.at(row) else {
            return;
        };
        let by = self.visit(core);
        self.records.entries[delta.object as usize].fold(by, delta.change);
        self.slots.clear(row);
    }

    // Folds the slot of an object where the change cannot move in it.
    #[tactic(auto, unfolding(crate::specs::States::fold_slot, crate::specs::States::make_room))]
    fn make_room(&mut self, spot: Spot, way: Move)
        requires { Ready (state self.old) }
        ensures { state self.new ≡ make_room way spot.core spot.object (state self.old) }
    {
        let row = spot.row();
        let slot = self.slots.at(row);
        if is_full(slot, spot.object, way) {
            self.fold_slot(spot.core, row);
        }
    }

    // Moves the change in the slot of an object, which is its own or empty.
    fn move_change(&mut self, spot: Spot, way: Move)
        requires { unsigned_abs (change_in (slot_at (state self.old) (slot_of spot.core spot.object)) +ℤ by_of way) ≤ 100 }
        ensures { state self.new ≡ moved way spot.core spot.object (state self.old) }
    {
        let row = spot.row();
        let slot = self.slots.at(row);
        let change = next_change(slot, way);
        let object = spot.object;
        self.slots.put(row, Delta { object, change });
    }

    // One holder more or fewer, in the core's slot.
    fn shift(&mut self, spot: Spot, way: Move)
        requires { Ready (state self.old) }
        ensures { state self.new ≡ shift way spot.core spot.object (state self.old) }
    {
        self.make_room(spot, way);
        self.move_change(spot, way);
    }

    /// Puts an object in use.
    pub fn give(&mut self, object: u16, holders: u32)
        requires object { object ≤ 1024 }
        requires few { holders ≤ 64 }
        ensures { StateSteps (state self.old) (Give object holders) (state self.new) }
    {
        self.records.entries[object as usize].give(holders);
    }

    /// One holder more, in the core's slot.
    pub fn up(&mut self, spot: Spot)
        requires { Ready (state self.old) }
        ensures { StateSteps (state self.old) (Up spot.core spot.object) (state self.new) }
    {
        self.shift(spot, Move::Gain);
    }

    /// One holder fewer, in the core's slot.
    pub fn down(&mut self, spot: Spot)
        requires { Ready (state self.old) }
        ensures { StateSteps (state self.old) (Down spot.core spot.object) (state self.new) }
    {
        self.shift(spot, Move::Loss);
    }

    /// One holder more, also where there is none: the object is no longer condemned.
    pub fn revive(&mut self, spot: Spot)
        requires { Ready (state self.old) }
        ensures { StateSteps (state self.old) (Revive spot.core spot.object) (state self.new) }
    {
        self.records.entries[spot.object as usize].spare();
        self.up(spot);
    }

    /// Reports all changes of a core.
    #[tactic(auto, unfolding(crate::specs::States::fold_slot, crate::specs::States::fold_first))]
    pub fn fold(&mut self, core: Core)
        requires core { core < 16 }
        requires ready { Ready (state self.old) }
        ensures { StateSteps (state self.old) (Fold core) (state self.new) }
    {
        for index in 0..16 {
            self.fold_slot(core, row_of(core, index));
        }
        self.clock.fold(core);
    }

    /// Whether the object is dead, as far as the core's list tells.
    // No `Spot`, which would ask more of a caller: a core that there is, and no object 0.
    pub fn judge(&mut self, core: Core, object: u16) -> bool
        requires object { object ≤ 1024 }
        ensures { StateSteps (state self.old) (Judge core object result) (state self.new) }
    {
        let by = self.visit(core);
        self.records.entries[object as usize].judge(by)
    }

    /// The core has closed. With the last core in service the epoch grows.
    pub fn close(&mut self, core: Core)
        requires core { core < 16 }
        requires few { self.old.clock.cores ≤ 16 }
        requires later { self.old.clock.epoch < 4294967295 }
        ensures { StateSteps (state self.old) (Close core) (state self.new) }
    {
        self.clock.close(core);
    }
}
