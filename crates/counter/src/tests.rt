ghost use Rattle.std.specs.Prelude.{◌≤◌};

use super::count::PlainCount;
use super::counter::Counter;
use super::kind::{Frames, Kind, Nodes};

/// The life of one object under any counter: whether it is dead in the epoch of its last holder.
fn dead_at_once<K: Kind, C: Counter<K> + Drop>(object: u16) -> bool
    requires { (1 ≤ object) × (object ≤ K.Kind.CAPACITY) }
{
    let mut counter = C::start(1, 7);
    counter.give(object, 1);
    counter.up(0, object);
    counter.down(0, object);
    counter.down(0, object);
    counter.fold(0);
    let dead = counter.judge(0, object);
    counter.close(0);
    dead
}

#[test]
fn plain_count_finds_the_dead(rt: HostRuntime) {
    assert!(rt; dead_at_once::<Frames, PlainCount<Frames>>(1024));
    assert!(rt; dead_at_once::<Nodes, PlainCount<Nodes>>(64));
}
