ghost use Rattle.std.specs.Prelude.{◌≡◌, ℕ, ◌+◌, ◌-◌, ◌*◌, ◌/◌, ◌^◌, ◌<◌, ◌≤◌, max, min};

use model::page::Page;

/// A range of pages: at least one, and none past the last that there is.
#[derive(Clone, Copy)]
pub struct Pages {
    pub first: Page,
    /// The page after the last of the range.
    pub last: Page,
    pub ghost some: { first < last },
    pub ghost small: { last ≤ 262144 },
}

// The size of a block is a const parameter, so that the division by it is a shift. That it is above 0 each function asks: a trait that says it once would need a type for each of two sizes.
impl Pages {
    ghost use Rattle.tree.specs.declared.pages.Pages.{Pages};
    ghost use Rattle.tree.specs.Need.{at_ends};

    pub fn new(first: Page, last: Page) -> Pages
        requires some { first < last }
        requires small { last ≤ 262144 }
        ensures first { result.first ≡ first }
        ensures last { result.last ≡ last }
    {
        Pages { first, last }
    }

    pub(super) fn len(self) -> u32
        ensures { result ≡ self.last - self.first }
    {
        self.last - self.first
    }

    /// The number of the first block of SIZE pages that the range meets.
    pub(super) fn first_block<const SIZE: u32>(self) -> u32
        requires { 0 < SIZE }
        ensures { result ≡ self.first / SIZE }
    {
        self.first / SIZE
    }

    /// The number after that of the last of them.
    pub(super) fn end_block<const SIZE: u32>(self) -> u32
        requires { 0 < SIZE }
        ensures { result ≡ (self.last - 1) / SIZE + 1 }
    {
        (self.last - 1) / SIZE + 1
    }

    /// How many of them there are.
    pub(super) fn blocks_met<const SIZE: u32>(self) -> u32
        requires { 0 < SIZE }
        ensures { result ≡ (self.last - 1) / SIZE + 1 - self.first / SIZE }
    {
        self.end_block::<SIZE>() - self.first_block::<SIZE>()
    }

    /// Its part in one of them.
    pub(super) fn in_block<const SIZE: u32>(self, block: u32) -> Pages
        requires some { 0 < SIZE }
        requires few { SIZE ≤ 4096 }
        requires from { self.first / SIZE ≤ block }
        requires to { block ≤ (self.last - 1) / SIZE }
        ensures first { result.first ≡ max self.first (block * SIZE) }
        ensures last { result.last ≡ min self.last (block * SIZE + SIZE) }
    {
        let start = block * SIZE;
        Pages {
            first: self.first.max(start),
            last: self.last.min(start + SIZE),
        }
    }

    /// What `count` makes of its parts in the first and the last of them: only these can it meet in part.
    pub(super) fn at_ends<const SIZE: u32, F: Fn(Pages) -> usize>(self, count: F) -> usize
        requires some { 0 < SIZE }
        requires few { SIZE ≤ 4096 }
        requires callable { F.IsAlwaysCallable count }
        requires fits { (part : Pages) (r : ℕ) → F.post count part r → r < 2 ^ 63 }
        ensures is { (f : ℕ → ℕ → ℕ) → ((part : Pages) (r : ℕ) → F.post count part r → r ≡ f part.first part.last) → result ≡ at_ends SIZE f self.first self.last }
        ensures few { (n : ℕ) → ((part : Pages) (r : ℕ) → F.post count part r → r ≤ n) → result ≤ 2 * n }
    {
        let (first, last) = (self.first_block::<SIZE>(), self.end_block::<SIZE>() - 1);
        let head = count(self.in_block::<SIZE>(first));
        if first == last {
            return head;
        }
        head + count(self.in_block::<SIZE>(last))
    }
}
