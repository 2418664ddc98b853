ghost use Rattle.std.specs.Prelude.{◌≡◌};
ghost use Rattle.model.specs.Faults.{reason_number, number_of, part_of, part_number, place_of};
ghost use Rattle.model.specs.declared.fault.TreeFault.TheVariants.{Pool};
ghost use Rattle.model.specs.declared.fault.SpaceFault.TheVariants.{Tree};
ghost use Rattle.model.specs.declared.fault.Fault.TheVariants.{Space};

use super::page::Page;

/// The part of the system that turned a call down, with the number under which it is reported.
#[derive(Clone, Copy, PartialEq, Eq, Debug)]
pub enum Part {
    Space = 1,
    Tree = 2,
    FramePool = 3,
    Script = 4,
}

/// A fault of a pool of frames.
#[derive(Clone, Copy, PartialEq, Eq, Debug)]
pub enum PoolFault {
    NoFreeFrame { place: Option<Page> },
}

/// A fault of the tree, which keeps that of the pool.
#[derive(Clone, Copy, PartialEq, Eq, Debug)]
pub enum TreeFault {
    Pool(PoolFault),
    TooFewNodes { place: Option<Page> },
}

/// Why the space itself turned a call down, with the number under which it is reported. The parts below have 8, 9 and 15.
#[derive(Clone, Copy, PartialEq, Eq, Debug)]
pub enum Reason {
    CoreNotInService = 1,
    BadRange = 2,
    NoLabel = 3,
    Mapped = 4,
    Closing = 5,
    Vacant = 6,
    NoFrame = 7,
    AlreadyOpen = 10,
    NoneOpen = 11,
    StillWaiting = 12,
    LastEpoch = 13,
    BadSetUp = 14,
}

/// A fault of the space, which keeps that of the tree.
#[derive(Clone, Copy, PartialEq, Eq, Debug)]
pub enum SpaceFault {
    Tree(TreeFault),
    Refused { reason: Reason, place: Option<Page> },
}

/// A fault as the script's answers have it: the space's, or a record that says nothing.
#[derive(Clone, Copy, PartialEq, Eq, Debug)]
pub enum Fault {
    Space(SpaceFault),
    BadRecord,
}

// By hand: a derived `From` would not promise which fault a `?` makes, and contracts name it.
impl From<PoolFault> for TreeFault {
    ghost from_gives = { λ e r. r ≡ Pool e };

    fn from(fault: PoolFault) -> TreeFault {
        TreeFault::Pool(fault)
    }
}

impl From<TreeFault> for SpaceFault {
    ghost from_gives = { λ e r. r ≡ Tree e };

    fn from(fault: TreeFault) -> SpaceFault {
        SpaceFault::Tree(fault)
    }
}

impl From<SpaceFault> for Fault {
    ghost from_gives = { λ e r. r ≡ Space e };

    fn from(fault: SpaceFault) -> Fault {
        Fault::Space(fault)
    }
}

impl Reason {
    /// The number under which the reason is reported.
    pub fn number(self) -> u8
        ensures { result ≡ reason_number self }
    {
        self as u8
    }
}

impl Part {
    /// The number under which the part is reported.
    pub fn number(self) -> u8
        ensures { result ≡ part_number self }
    {
        self as u8
    }
}

impl Fault {
    // 8, 9 and 15 stand here: no variant of an enum with values can have a number of its own.
    pub fn number(self) -> u8
        ensures { result ≡ number_of self }
    {
        match self {
            Fault::Space(SpaceFault::Refused { reason, .. }) => reason.number(),
            Fault::Space(SpaceFault::Tree(TreeFault::Pool(PoolFault::NoFreeFrame { .. }))) => 8,
            Fault::Space(SpaceFault::Tree(TreeFault::TooFewNodes { .. })) => 9,
            Fault::BadRecord => 15,
        }
    }

    pub fn part(self) -> Part
        ensures { result ≡ part_of self }
    {
        match self {
            Fault::Space(SpaceFault::Refused { .. }) => Part::Space,
            Fault::Space(SpaceFault::Tree(TreeFault::Pool(_))) => Part::FramePool,
            Fault::Space(SpaceFault::Tree(TreeFault::TooFewNodes { .. })) => Part::Tree,
            Fault::BadRecord => Part::Script,
        }
    }

    pub fn place(self) -> Option<Page>
        ensures { result ≡ place_of self }
    {
        match self {
            Fault::Space(SpaceFault::Refused { place, .. }) => place,
            Fault::Space(SpaceFault::Tree(TreeFault::Pool(PoolFault::NoFreeFrame { place }))) =>
                place,
            Fault::Space(SpaceFault::Tree(TreeFault::TooFewNodes { place })) => place,
            Fault::BadRecord => None,
        }
    }
}
