ghost use Rattle.delta.specs.Revival.{Revived};

/// A node whose last loss was reported, and that is revived then, has left the review list in this epoch, and is in use.
// The number is what the law is about.
pub fn revival_ends() -> u32
    ensures { Revived result }
{
    3
}
