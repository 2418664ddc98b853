ghost use Rattle.std.specs.Prelude.{◌≡◌, ℕ, ◌+◌, ◌<◌, ◌≤◌, pos, unsigned_abs};
ghost use Rattle.ledger.specs.Records.{after_fold, after_judge, verdict, enlisted, unlisted, is_due, given_to, spared};

use model::page::Core;

/// A core that comes to a record, and the epoch in which it does.
#[derive(Clone, Copy)]
pub struct Visit {
    pub core: Core,
    pub epoch: u32,
}

/// What is known of an object beside the changes that the cores have yet to report.
#[derive(Clone, Copy)]
pub struct Record {
    /// Its holders, as far as they were reported. It is negative where a loss was reported before its gain.
    pub shared: i32,
    /// The core on whose review list it is. What follows stays when it leaves the list, so that no Option holds them together.
    pub list: Option<Core>,
    /// The epoch in which it was listed.
    pub listed: u32,
    /// A change was reported since.
    pub disturbed: bool,
    /// It was not revived since.
    pub condemned: bool,
}

impl Record {
    /// The record of a free object.
    pub const BLANK: Record = Record {
        shared: 0,
        list: None,
        listed: 0,
        disturbed: false,
        condemned: false,
    };

    /// In use with this many holders, on no list.
    pub fn give(&mut self, holders: u32)
        requires { holders ≤ 64 }
        ensures { self.new ≡ given_to holders self.old }
    {
        *self = Record {
            shared: holders as i32,
            list: None,
            ..*self
        };
    }

    /// Not to be found dead by this listing.
    pub fn spare(&mut self)
        ensures { self.new ≡ spared self.old }
    {
        self.condemned = false;
    }

    /// Goes on the core's review list.
    fn enlist(&mut self, by: Visit)
        ensures { self.new ≡ enlisted by.core by.epoch self.old }
    {
        self.list = Some(by.core);
        self.listed = by.epoch;
        self.disturbed = false;
        self.condemned = true;
    }

    /// Leaves its list.
    fn unlist(&mut self)
        ensures { self.new ≡ unlisted self.old }
    {
        self.list = None;
    }

    /// Takes a reported change into the shared count. One of 0 disturbs too: the core may have had an up and a down since the listing.
    pub fn fold(&mut self, by: Visit, change: i8)
        requires { (unsigned_abs self.old.shared ≤ 91136) × (unsigned_abs change ≤ 100) }
        ensures { self.new ≡ after_fold by.core by.epoch change self.old }
    {
        self.shared += change as i32;
        if self.list.is_some() {
            self.disturbed = true;
        } else if self.shared == 0 {
            self.enlist(by);
        }
    }

    /// Whether it is on the core's list, since two epochs.
    fn is_due(&self, by: Visit) -> bool
        ensures { result ≡ is_due by.core by.epoch self.now }
    {
        self.list == Some(by.core) && by.epoch >= 2 && self.listed <= by.epoch - 2
    }

    /// Whether the object is dead: nothing was shared, reported or revived for two epochs.
    pub fn judge(&mut self, by: Visit) -> bool
        ensures after { self.new ≡ after_judge by.core by.epoch self.old }
        ensures says { result ≡ verdict by.core by.epoch self.old }
    {
        if !self.is_due(by) {
            return false;
        }
        if self.shared != 0 {
            self.unlist();
            self.spare();
            return false;
        }
        if self.disturbed || !self.condemned {
            self.enlist(by);
            return false;
        }
        self.unlist();
        true
    }
}
