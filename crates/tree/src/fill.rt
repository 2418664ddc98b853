ghost use Rattle.std.specs.Prelude.{◌≡◌, ℕ, ◌+◌, ◌-◌, ◌*◌, ◌/◌, ◌%◌, ◌<◌, ◌≤◌, true, false, ◌≢◌};
ghost use Rattle.model.specs.Pages.{Within};
ghost use Rattle.tree.specs.declared.slot.Slot.TheVariants.{Vacant, Child, Value};
ghost use Rattle.tree.specs.Nodes.{slot_at, link_at};
ghost use Rattle.tree.specs.Soundness.{Sound, left};
ghost use Rattle.tree.specs.Need.{covers, part, need_mid, root_part, need};
ghost use Rattle.tree.specs.Holders.{Counted, CountedBut, Idle, Tallied, Aside, Follows, holders};
ghost use Rattle.tree.specs.Filled.{Filled, Free};
ghost use Rattle.tree.specs.Walks.{Others, LeafOf, Beside, Goes};
ghost use Rattle.tree.specs.Fill.{fill_leaf, fill_block, fill_middle, fill_top, fill, told_block, told_middle, told_top, told};

use super::pages::Pages;
use super::slot::{NodeId, Slot};
use super::table::Tree;
use super::tell::{revive_all, tell};
use counter::counter::Counter;
use counter::kind::Nodes;
use model::page::{Core, Mapping};

impl Slot {
    // Whether the slot is vacant and its block of SIZE pages is met in all of them.
    fn whole<const SIZE: u32>(self, pages: Pages) -> bool
        ensures { result ≡ covers self (pages.last - pages.first) SIZE }
    {
        match self {
            Slot::Vacant => pages.len() == SIZE,
            Slot::Child(_) | Slot::Value(_) => false,
        }
    }
}

// Two facts stay clauses of each: that the value names cores and frames that there are, since definitions make mappings freely
// and a proof in the type would stand in each; and that the range is free, which is of tree and range together.
impl Tree {
    // Fills pages of one leaf. Not inlined: the walk over blocks would bear the numbers of its loop at each block.
    #[inline(never)]
    fn fill_leaf(&mut self, n: NodeId, pages: Pages, e: Mapping)
        requires fits { Within e }
        requires node { n < 65 }
        requires block { (pages.last - 1) / 64 ≡ pages.first / 64 }
        requires path { LeafOf self.old pages.first n }
        requires free { Free self.old pages.first pages.last }
        ensures exact { self.new ≡ fill_leaf n pages.first e (pages.last - pages.first) self.old }
        ensures filled { Filled pages.first pages.last e self.old self.new }
        ensures left { left self.new ≡ left self.old }
        ensures others { Others (λ a t. a ≢ n) self.old self.new }
        ensures links { self.new.links ≡ self.old.links }
        ensures gained { holders self.new.slots n ≡ holders self.old.slots n + (pages.last - pages.first) }
    {
        self.sound();
        for page in pages.first..pages.last {
            self.put(n, page % 64, e);
        }
    }

    // Fills pages of one block of the middle node m, and tells the counter; of m itself only if it is older, by a flag as for `tell`.
    fn fill_block<C: Counter<Nodes>>(
        &mut self,
        counter: &mut C,
        core: Core,
        older: bool,
        m: NodeId,
        pages: Pages,
        e: Mapping,
    )
        requires fits { Within e }
        requires node { m < 65 }
        requires block { (pages.last - 1) / 64 ≡ pages.first / 64 }
        requires path { slot_at self.old.slots 1 (pages.first / 4096) ≡ Child m }
        requires free { Free self.old pages.first pages.last }
        requires room { part (slot_at self.old.slots m (pages.first / 64 % 64)) (pages.last - pages.first) ≤ left self.old }
        requires core { core < (C.Counter.meaning counter.old).cores }
        requires counted { CountedBut older m (C.Counter.meaning counter.old).holders self.old }
        requires idle { Idle (C.Counter.meaning counter.old).holders self.old }
        ensures exact { self.new ≡ fill_block m pages.first pages.last e self.old }
        ensures told { Follows C.Counter.steps (told_block older core m pages.first pages.last self.old) counter.old counter.new }
        ensures filled { Filled pages.first pages.last e self.old self.new }
        ensures left { left self.new + part (slot_at self.old.slots m (pages.first / 64 % 64)) (pages.last - pages.first) ≡ left self.old }
        ensures others { Others (λ a t. ((link_at self.old.links a).level < 3) × (a ≡ m → t ≢ pages.first / 64 % 64)) self.old self.new }
        ensures counted { CountedBut older m (C.Counter.meaning counter.new).holders self.new }
        ensures idle { Idle (C.Counter.meaning counter.new).holders self.new }
        ensures aside { Aside (C.Counter.meaning counter.old) (C.Counter.meaning counter.new) }
        ensures quiet { older ≡ false → (C.Counter.meaning counter.new).holders m ≡ (C.Counter.meaning counter.old).holders m }
        ensures gained { slot_at self.old.slots m (pages.first / 64 % 64) ≡ Vacant → holders self.new.slots m ≡ holders self.old.slots m + 1 }
    {
        self.sound();
        let s = pages.first / 64 % 64;
        let slot = self.at(m, s);
        if slot.whole::<64>(pages) {
            self.put(m, s, e);
            tell(counter, older, core, m);
            return;
        }
        match slot {
            Slot::Vacant => {
                let n = self.grow(m, s);
                tell(counter, older, core, m);
                counter.give(n, pages.len());
                self.fill_leaf(n, pages, e);
            }
            Slot::Child(n) => {
                self.fill_leaf(n, pages, e);
                revive_all(counter, core, n, pages.len());
            }
            Slot::Value(_) => unreachable(),
        }
    }

    // Fills pages under the middle node m. Not one with `fill`: under this there are blocks, under that whole middle nodes.
    fn fill_middle<C: Counter<Nodes>>(
        &mut self,
        counter: &mut C,
        core: Core,
        older: bool,
        m: NodeId,
        pages: Pages,
        e: Mapping,
    )
        requires fits { Within e }
        requires node { m < 65 }
        requires block { (pages.last - 1) / 4096 ≡ pages.first / 4096 }
        requires path { slot_at self.old.slots 1 (pages.first / 4096) ≡ Child m }
        requires free { Free self.old pages.first pages.last }
        requires room { need_mid self.old.slots m pages.first pages.last ≤ left self.old }
        requires core { core < (C.Counter.meaning counter.old).cores }
        requires counted { CountedBut older m (C.Counter.meaning counter.old).holders self.old }
        requires idle { Idle (C.Counter.meaning counter.old).holders self.old }
        ensures exact { self.new ≡ fill_middle m pages.first pages.last e self.old }
        ensures told { Follows C.Counter.steps (told_middle older core m pages.first pages.last e self.old) counter.old counter.new }
        ensures filled { Filled pages.first pages.last e self.old self.new }
        ensures left { left self.new + need_mid self.old.slots m pages.first pages.last ≡ left self.old }
        ensures others { Others (λ a t. ((link_at self.old.links a).level < 3) × (a ≢ m)) self.old self.new }
        ensures counted { CountedBut older m (C.Counter.meaning counter.new).holders self.new }
        ensures idle { Idle (C.Counter.meaning counter.new).holders self.new }
        ensures aside { Aside (C.Counter.meaning counter.old) (C.Counter.meaning counter.new) }
        ensures quiet { older ≡ false → (C.Counter.meaning counter.new).holders m ≡ (C.Counter.meaning counter.old).holders m }
        ensures goes { Goes m pages.first pages.last ((pages.last - 1) / 64 + 1) self.old self.new }
    {
        self.sound();
        for block in pages.first_block::<64>()..pages.end_block::<64>() {
            self.fill_block(counter, core, older, m, pages.in_block::<64>(block), e);
        }
    }

    // Fills pages under one slot of the root. Not one with a block's: what a middle node
    // gains is told as it is filled, a leaf's after, and the order of what the counter is told is promised.
    fn fill_top<C: Counter<Nodes>>(&mut self, counter: &mut C, core: Core, pages: Pages, e: Mapping)
        requires fits { Within e }
        requires block { (pages.last - 1) / 4096 ≡ pages.first / 4096 }
        requires free { Free self.old pages.first pages.last }
        requires room { root_part self.old.slots (slot_at self.old.slots 1 (pages.first / 4096)) pages.first pages.last ≤ left self.old }
        requires core { core < (C.Counter.meaning counter.old).cores }
        requires counted { Counted (C.Counter.meaning counter.old).holders self.old }
        requires idle { Idle (C.Counter.meaning counter.old).holders self.old }
        ensures exact { self.new ≡ fill_top pages.first pages.last e self.old }
        ensures told { Follows C.Counter.steps (told_top core pages.first pages.last e self.old) counter.old counter.new }
        ensures filled { Filled pages.first pages.last e self.old self.new }
        ensures left { left self.new + root_part self.old.slots (slot_at self.old.slots 1 (pages.first / 4096)) pages.first pages.last ≡ left self.old }
        ensures others { Others (Beside self.old (pages.first / 4096)) self.old self.new }
        ensures counted { Counted (C.Counter.meaning counter.new).holders self.new }
        ensures idle { Idle (C.Counter.meaning counter.new).holders self.new }
        ensures aside { Aside (C.Counter.meaning counter.old) (C.Counter.meaning counter.new) }
    {
        self.sound();
        let s = pages.first / 4096;
        let slot = self.at(1, s);
        if slot.whole::<4096>(pages) {
            self.put(1, s, e);
            counter.revive(core, 1);
            return;
        }
        match slot {
            Slot::Vacant => {
                let m = self.grow(1, s);
                counter.revive(core, 1);
                counter.give(m, pages.blocks_met::<64>());
                self.fill_middle(counter, core, false, m, pages, e);
            }
            Slot::Child(m) => {
                self.fill_middle(counter, core, true, m, pages, e);
            }
            Slot::Value(_) => unreachable(),
        }
    }

    /// Every page of the range, all vacant, comes to be as e says, and the counter has the holders of every node.
    pub fn fill<C: Counter<Nodes>>(&mut self, counter: &mut C, core: Core, pages: Pages, e: Mapping)
        requires fits { Within e }
        requires free { Free self.old pages.first pages.last }
        requires room { need self.old.slots pages.first pages.last ≤ left self.old }
        requires core { core < (C.Counter.meaning counter.old).cores }
        requires tallied { Tallied (C.Counter.meaning counter.old) self.old }
        ensures exact { self.new ≡ fill pages.first pages.last e self.old }
        ensures told { Follows C.Counter.steps (told core pages.first pages.last e self.old) counter.old counter.new }
        ensures filled { Filled pages.first pages.last e self.old self.new }
        ensures left { left self.new + need self.old.slots pages.first pages.last ≡ left self.old }
        ensures tallied { Tallied (C.Counter.meaning counter.new) self.new }
        ensures aside { Aside (C.Counter.meaning counter.old) (C.Counter.meaning counter.new) }
    {
        self.sound();
        for top in pages.first_block::<4096>()..pages.end_block::<4096>() {
            self.fill_top(counter, core, pages.in_block::<4096>(top), e);
        }
    }
}
