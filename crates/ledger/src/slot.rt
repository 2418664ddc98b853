/// No change in a delta slot lies beyond this, either way.
pub const DELTA_LIMIT: i8 = 100;

/// What a core has yet to report of an object: so many holders more, or fewer.
#[derive(Clone, Copy)]
pub struct Delta {
    pub object: u16,
    pub change: i8,
}

/// One holder more, or one fewer.
#[derive(Clone, Copy)]
pub enum Move {
    Gain,
    Loss,
}
