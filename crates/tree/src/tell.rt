ghost use Rattle.std.specs.Prelude.{◌≡◌, ℕ, ◌+◌, ◌<◌, ◌≤◌, true, false, is_some, Some, None};
ghost use Rattle.counter.specs.Meaning.{how_many};
ghost use Rattle.tree.specs.Holders.{Changed, Told, Aside, Follows};
ghost use Rattle.tree.specs.Fill.{revivals, gain};

use super::slot::NodeId;
use counter::counter::Counter;
use counter::kind::Nodes;
use model::page::Core;

// The counter and its core stay two parameters: a struct that lent them would owe two clauses more everywhere, that it keeps both.

// `times` slots gained by an older node.
pub(super) fn revive_all<C: Counter<Nodes>>(counter: &mut C, core: Core, node: NodeId, times: u32)
    requires core { core < (C.Counter.meaning counter.old).cores }
    requires node { (1 ≤ node) × (node ≤ 64) }
    requires known { is_some ((C.Counter.meaning counter.old).holders node) ≡ true }
    requires few { how_many ((C.Counter.meaning counter.old).holders node) + times ≤ 65 }
    ensures changed { Changed node (Some (how_many ((C.Counter.meaning counter.old).holders node) + times)) (C.Counter.meaning counter.old).holders (C.Counter.meaning counter.new).holders }
    ensures aside { Aside (C.Counter.meaning counter.old) (C.Counter.meaning counter.new) }
    ensures told { Follows C.Counter.steps (revivals core node times) counter.old counter.new }
{
    for _ in 0..times {
        counter.revive(core, node);
    }
}

// A slot gained by a node, of which the counter is told if the node is older.
// The flag stays: the node is needed either way, so no Option holds it, and an enum of old and new would hold it twice.
pub(super) fn tell<C: Counter<Nodes>>(counter: &mut C, older: bool, core: Core, node: NodeId)
    requires core { core < (C.Counter.meaning counter.old).cores }
    requires node { (1 ≤ node) × (node ≤ 64) }
    requires known { older ≡ true → is_some ((C.Counter.meaning counter.old).holders node) ≡ true }
    requires few { older ≡ true → how_many ((C.Counter.meaning counter.old).holders node) < 65 }
    ensures changed { Told older node (C.Counter.meaning counter.old).holders (C.Counter.meaning counter.new).holders }
    ensures aside { Aside (C.Counter.meaning counter.old) (C.Counter.meaning counter.new) }
    ensures told { Follows C.Counter.steps (gain older core node) counter.old counter.new }
{
    if !older {
        return;
    }
    counter.revive(core, node);
}
