use super::space::Space;
use counter::count::PlainCount;
use counter::kind::Nodes;

// A type of its own and no alias of the space: contracts of its users name no counter.
/// The memory that is handed over. The parts of its space agree at every call, so that its calls ask nothing of a user.
#[derive(Drop)]
pub struct Memory {
    pub(super) space: Space<PlainCount<Nodes>>,
}
