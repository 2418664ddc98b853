ghost use Rattle.std.specs.Prelude.{◌≡◌, ℕ, ◌<◌, ◌≤◌, replicate, Some, None, slice_index_or, slice_set, unsigned_abs};
ghost use Rattle.ledger.specs.Slots.{Within, Named, Known, Homed, Fits, place, change_in};

use super::slot::Delta;

/// The delta slots of sixteen cores, sixteen to a core. An object has slot `object % 16` of each.
#[derive(Clone, Copy)]
pub struct DeltaSlots {
    pub rows: [Option<Delta>; 256],
    ghost within: { Within rows },
    ghost named: { Named rows },
    ghost known: { Known rows },
    ghost homed: { Homed rows },
}

/// The row of slot `index` of a core. A byte numbers each of the 256 rows.
pub(super) fn row_of(core: u8, index: u8) -> u8
    requires { (core < 16) × (index < 16) }
    ensures { result ≡ place core index }
{
    16 * core + index
}

impl DeltaSlots {
    /// Every slot empty.
    pub fn new() -> DeltaSlots
        ensures { result.rows ≡ replicate 256 None }
    {
        DeltaSlots { rows: [None; 256] }
    }

    /// What a slot has.
    pub fn at(&self, row: u8) -> Option<Delta>
        ensures value { result ≡ slice_index_or self.now.rows row None }
        ensures within { unsigned_abs (change_in result) ≤ 100 }
    {
        let at = row as usize;
        self.rows[at]
    }

    /// Puts a change into a slot, in the place of what it has.
    pub fn put(&mut self, row: u8, delta: Delta)
        requires { Fits row delta }
        ensures { self.new.rows ≡ slice_set self.old.rows row (Some delta) }
    {
        self.rows[row as usize] = Some(delta);
    }

    /// Empties a slot.
    pub fn clear(&mut self, row: u8)
        ensures { self.new.rows ≡ slice_set self.old.rows row None }
    {
        self.rows[row as usize] = None;
    }
}
