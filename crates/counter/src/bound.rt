ghost use Rattle.counter.specs.Runs.{PromptOverRuns};

use super::counter::Counter;
use super::kind::Kind;

/// How many epochs past the loss of its last holder an object can still be in use, with any counter that promises the bound, after any run of operations.
// The number is what the law is about.
pub fn bound_of<K: Kind, C: Counter<K>>() -> u32
    ensures { PromptOverRuns C.Counter.meaning C.Counter.steps C.Counter.timely C.Counter.prompt K.Kind.CAPACITY K.Kind.REVIVES result }
{
    5
}
