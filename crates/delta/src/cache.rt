ghost use Rattle.delta.specs.Safety.{Sound};
ghost use Rattle.ledger.specs.View.{state};
ghost use Rattle.std.proofs.Props.{props};

use ledger::ledger::Ledger;
use std::marker::PhantomData;

/// Counts the holders of the objects of a kind with a cache of changes for each core.
#[derive(Drop)]
pub struct DeltaCache<K> {
    pub(crate) kind: PhantomData<K>,
    pub(crate) ledger: Ledger,
    ghost sound: { Sound (state ledger) } by { Prim.hlevel props },
}
