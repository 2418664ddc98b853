ghost use Rattle.std.specs.Prelude.{◌≡◌, ◌<◌, ◌≤◌, true, is_some, None};
ghost use Rattle.counter.specs.Meaning.{Meaning, how_many, begun, given, raised, lowered, has_folded, closes, Judged, Operation};
ghost use Rattle.counter.specs.Meaning.Operation.{Give, Up, Down, Revive, Fold, Judge, Close};
ghost use Rattle.counter.specs.Operations.{Allowed, Does};
ghost use Rattle.counter.specs.Timeline.{Timeline, noted, InTurn, Prompt};

use super::kind::Kind;

/// Counts the holders of the objects of a kind. A call comes only where its conditions hold.
// Core and object stay two numbers: the bound on an object is its kind's, and that a core serves is a fact of the counter, so no type has both.
pub trait Counter<K: Kind>: Sized {
    ghost meaning: { Self → Meaning };
    // What exactly one operation makes of the counter; each implementation gives its own equation.
    ghost steps: { Self → Operation → Self → Type 0 };
    // Whether the counter is on time, for what its run of operations tells of time.
    ghost timely: { Self → Timeline → Type 0 };
    // Whether being on time keeps the bound. A counter that promises no bound says that this is false.
    ghost prompt: { Type 0 };

    /// A counter of free objects.
    fn start(cores: u8, epoch: u32) -> Self
        requires few { cores ≤ 16 }
        ensures means { meaning result ≡ begun cores epoch }
        ensures timely { (p : Timeline) → timely result p };

    /// Puts a free object in use.
    fn give(&mut self, object: u16, holders: u32)
        requires exists { (1 ≤ object) × (object ≤ K.Kind.CAPACITY) }
        requires free { (meaning self.old).holders object ≡ None }
        requires some { (1 ≤ holders) × (holders ≤ 64) }
        ensures means { meaning self.new ≡ given object holders (meaning self.old) }
        ensures exact { steps self.old (Give object holders) self.new };

    /// One holder more of an object that is held.
    fn up(&mut self, core: u8, object: u16)
        requires exists { (1 ≤ object) × (object ≤ K.Kind.CAPACITY) }
        requires serves { core < (meaning self.old).cores }
        requires held { 1 ≤ how_many ((meaning self.old).holders object) }
        requires room { how_many ((meaning self.old).holders object) < 65536 }
        ensures means { meaning self.new ≡ raised object (meaning self.old) }
        ensures exact { steps self.old (Up core object) self.new };

    /// One holder fewer.
    fn down(&mut self, core: u8, object: u16)
        requires exists { (1 ≤ object) × (object ≤ K.Kind.CAPACITY) }
        requires serves { core < (meaning self.old).cores }
        requires held { 1 ≤ how_many ((meaning self.old).holders object) }
        ensures means { meaning self.new ≡ lowered object (meaning self.old) }
        ensures exact { steps self.old (Down core object) self.new };

    /// One holder more of an object in use, also of one that nobody holds.
    fn revive(&mut self, core: u8, object: u16)
        requires exists { (1 ≤ object) × (object ≤ K.Kind.CAPACITY) }
        requires serves { core < (meaning self.old).cores }
        requires used { is_some ((meaning self.old).holders object) ≡ true }
        requires room { how_many ((meaning self.old).holders object) < 65536 }
        requires allowed { K.Kind.REVIVES ≡ true }
        ensures means { meaning self.new ≡ raised object (meaning self.old) }
        ensures exact { steps self.old (Revive core object) self.new };

    /// The core has folded.
    fn fold(&mut self, core: u8)
        requires serves { core < (meaning self.old).cores }
        ensures means { meaning self.new ≡ has_folded core (meaning self.old) }
        ensures exact { steps self.old (Fold core) self.new };

    /// Whether the object is dead. A dead one is in use without holders, and is free from here on.
    fn judge(&mut self, core: u8, object: u16) -> bool
        requires exists { (1 ≤ object) × (object ≤ K.Kind.CAPACITY) }
        requires serves { core < (meaning self.old).cores }
        ensures means { Judged (meaning self.old) object result (meaning self.new) }
        ensures exact { steps self.old (Judge core object result) self.new };

    /// The core has closed. With the last core in service the epoch grows.
    fn close(&mut self, core: u8)
        requires serves { core < (meaning self.old).cores }
        requires folded { (meaning self.old).folded core ≡ true }
        requires later { (meaning self.old).epoch < 4294967295 }
        ensures means { meaning self.new ≡ closes core (meaning self.old) }
        ensures exact { steps self.old (Close core) self.new };

    ghost means: { (s t : Self) (op : Operation) → Allowed K.Kind.CAPACITY K.Kind.REVIVES (meaning s) op → steps s op t → Does op (meaning s) (meaning t) };

    ghost onward: { (s t : Self) (op : Operation) (p : Timeline) → Allowed K.Kind.CAPACITY K.Kind.REVIVES (meaning s) op → steps s op t → InTurn K.Kind.CAPACITY op p → timely s p → timely t (noted op (meaning s) p) };

    ghost bound: { prompt → (s : Self) (p : Timeline) → timely s p → Prompt K.Kind.CAPACITY (meaning s) p };
}
