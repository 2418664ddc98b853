ghost use Rattle.std.specs.Prelude.{◌≡◌, ◌≤◌, length};

use super::epoch::Clock;
use std::marker::PhantomData;

/// The number of holders of each object, and nothing beside it.
#[derive(Drop)]
pub struct PlainCount<K> {
    pub(crate) kind: PhantomData<K>,
    /// By object number, with room for the largest kind. There is no object 0; a free one has no count.
    pub(crate) counts: [Option<u32>; 1025],
    pub(crate) clock: Clock,
    // The laws of the impl read it: there a table is a list.
    ghost full: { length counts ≡ 1025 },
    ghost few: { clock.cores ≤ 16 },
}
