use model::cores::CoreSet;

// That at most sixteen cores serve stays a clause where it is needed: `start` takes any number, and would have to ask it.
/// The epoch of the cores in service, which are numbered from 0, and the cores that have folded and closed in it.
#[derive(Clone, Copy)]
pub struct Clock {
    pub cores: u8,
    pub epoch: u32,
    pub folded: CoreSet,
    pub closed: CoreSet,
}
