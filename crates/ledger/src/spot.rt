ghost use Rattle.std.specs.Prelude.{◌≡◌, ◌<◌, ◌≤◌};
ghost use Rattle.ledger.specs.States.{slot_of};

use super::slots::row_of;
use model::page::Core;

/// An object at a core, which has one delta slot for it.
#[derive(Clone, Copy)]
pub struct Spot {
    pub core: Core,
    pub object: u16,
    ghost serves: { core < 16 },
    ghost named: { 1 ≤ object },
    ghost known: { object ≤ 1024 },
}

impl Spot {
    /// The row of the slot.
    pub(super) fn row(self) -> u8
        ensures { result ≡ slot_of self.core self.object }
    {
        row_of(self.core, (self.object % 16) as u8)
    }
}
