ghost use Rattle.std.specs.Prelude.{ℕ, ◌≤◌, Bool, true, false, refl};
ghost use Rattle.std.proofs.lemmas.Bool.{leb-true};

/// A kind of counted object. Its objects are numbered from 1.
pub trait Kind {
    // The two constants, for clauses.
    ghost CAPACITY: { ℕ };

    ghost REVIVES: { Bool };

    /// The greatest number of objects.
    const CAPACITY: u16;
    /// Whether an object without holders may be revived.
    const REVIVES: bool;

    ghost small: { (1 ≤ CAPACITY) × (CAPACITY ≤ 1024) };
}

/// The kind of the frames, which pages hold.
#[derive(Clone, Copy)]
pub struct Frames;

/// The kind of the nodes, which their slots in use hold.
#[derive(Clone, Copy)]
pub struct Nodes;

impl Kind for Frames {
    ghost CAPACITY = { 1024 };

    ghost REVIVES = { false };

    const CAPACITY: u16 = 1024;

    const REVIVES: bool = false;

    ghost small = { (leb-true 1 1024 refl, leb-true 1024 1024 refl) };
}

impl Kind for Nodes {
    ghost CAPACITY = { 64 };

    ghost REVIVES = { true };

    const CAPACITY: u16 = 64;

    const REVIVES: bool = true;

    ghost small = { (leb-true 1 64 refl, leb-true 64 1024 refl) };
}
