ghost use Rattle.std.specs.Prelude.{◌≡◌, ℕ, ◌^◌, ◌<◌, ◌≤◌, true, false, ◌==◌, bit_or, count_ones};
ghost use Rattle.model.specs.CoreSets.{member, Joined, Left, United, Nobody, all_below, Each};

use super::sizes::CORES;

/// A set of cores: core c is in it exactly if bit c is set.
#[derive(Clone, Copy, PartialEq, Eq, Debug)]
pub struct CoreSet {
    pub bits: u16,
}

impl CoreSet {
    /// The set without cores.
    pub fn empty() -> CoreSet
        ensures bits { result.bits ≡ 0 }
        ensures nobody { Nobody result.bits }
    {
        CoreSet { bits: 0 }
    }

    /// Whether the core is in the set; no core past the width is.
    pub fn contains(self, core: u8) -> bool
        ensures { result ≡ member self.bits core }
    {
        core < CORES && (self.bits >> core) % 2 == 1
    }

    /// The set with one core more.
    pub fn with(self, core: u8) -> CoreSet
        requires { core < 16 }
        ensures bits { result.bits ≡ bit_or self.bits (2 ^ core) }
        ensures joined { Joined self.bits core result.bits }
    {
        CoreSet {
            bits: self.bits | 1 << core,
        }
    }

    /// The set without the core, whether it was in it or not.
    pub fn without(self, core: u8) -> CoreSet
        requires { core < 16 }
        ensures { Left self.bits core result.bits }
    {
        if !self.contains(core) {
            return self;
        }
        CoreSet {
            bits: self.bits ^ 1 << core,
        }
    }

    /// The cores of either set.
    pub fn union(self, other: CoreSet) -> CoreSet
        ensures bits { result.bits ≡ bit_or self.bits other.bits }
        ensures united { United self.bits other.bits result.bits }
    {
        CoreSet {
            bits: self.bits | other.bits,
        }
    }

    /// Whether no core is in the set.
    pub fn is_empty(self) -> bool
        ensures bits { result ≡ (self.bits == 0) }
        ensures empty { result ≡ true → Nobody self.bits }
        ensures only { Nobody self.bits → result ≡ true }
    {
        self.bits == 0
    }

    /// Whether every core below `cores` is in the set.
    pub fn holds_all(self, cores: u8) -> bool
        requires { cores ≤ 16 }
        ensures all { result ≡ all_below cores (member self.bits) }
        ensures each { result ≡ true → Each cores (member self.bits) }
        ensures only { Each cores (member self.bits) → result ≡ true }
    {
        (0..cores).all(|core| self.contains(core))
    }

    /// How many cores are in the set.
    pub fn len(self) -> u8
        ensures ones { result ≡ count_ones self.bits }
        ensures most { result ≤ 16 }
    {
        self.bits.count_ones() as u8
    }
}
