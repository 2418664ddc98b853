ghost use Rattle.space.specs.Linking.{Linked};

use counter::counter::Counter;
use counter::kind::Nodes;
use model::page::Epoch;
use tree::pool::Pool;
use tree::table::Tree;

/// An address space over a counter of the tree's nodes. Its parts agree at every call.
#[derive(Drop)]
pub struct Space<N: Counter<Nodes>> {
    /// The cores in service are the numbers below this.
    pub cores: u8,
    pub epoch: Epoch,
    pub frames: Pool<1024>,
    pub tree: Tree,
    pub nodes: N,
    pub ghost sound: { Linked cores epoch frames tree (N.meaning nodes) },
}
