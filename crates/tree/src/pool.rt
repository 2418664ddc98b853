ghost use Rattle.std.specs.Prelude.{◌≡◌, ℕ, ◌+◌, ◌-◌, ◌<◌, ◌≤◌};
ghost use Rattle.tree.specs.Pools.{next_object, drawn, full, unused, in_use, Ready};

// `Ready` is no invariant: a pool of any size can be made, and a bound in the type would ask one of `full`.
// The count stands beside the array: an `ArrayVec` is not `Copy`, which a pool is, and so a tree.
/// A pool of objects numbered from 1 to `size`. It gives the object that was returned last, else the next new one.
#[derive(Clone, Copy)]
pub struct Pool<const N: usize> {
    /// The objects that came back and wait, the last of them at `count - 1`.
    pub returned: [u16; N],
    pub count: usize,
    /// The next new object.
    pub next: usize,
    pub size: usize,
}

/// An object that was drawn. It is no `Drop`, so it is placed or put back, and cannot be forgotten.
pub struct Drawn<const N: usize> {
    number: u16,
}

impl<const N: usize> Drawn<N> {
    /// The object has found its place.
    pub fn place(self) -> u16
        ensures { result ≡ self.entry.number }
    {
        let Drawn { number } = self;
        number
    }
}

impl<const N: usize> Pool<N> {
    /// A pool with all of its `size` objects.
    pub fn full(size: usize) -> Pool<N>
        ensures { result ≡ full N size }
    {
        Pool {
            returned: [0; N],
            count: 0,
            next: 1,
            size,
        }
    }

    /// How many objects can be drawn.
    pub fn free(&self) -> usize
        requires { Ready N self.now }
        ensures { result ≡ unused self.now }
    {
        self.count + (self.size + 1 - self.next)
    }

    /// How many objects are out.
    pub fn in_use(&self) -> usize
        requires { Ready N self.now }
        ensures { result ≡ in_use self.now }
    {
        self.size - self.free()
    }

    /// Draws an object.
    pub fn draw(&mut self) -> Drawn<N>
        requires ready { Ready N self.old }
        requires some { 0 < unused self.old }
        ensures number { result.number ≡ next_object self.old }
        ensures after { self.new ≡ drawn self.old }
    {
        if self.count > 0 {
            self.count -= 1;
            return Drawn {
                number: self.returned[self.count],
            };
        }
        let number = self.next as u16;
        self.next += 1;
        Drawn { number }
    }
}
