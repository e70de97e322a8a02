//! Lists in which symbols have numbers.
ghost use Rattle.std.specs.Prelude.{◌≡◌, ◌≤◌, ℕ};

/// A list in which symbols are numbered from 0 on. Who has to know how many there are, and not their names, asks for this.
pub trait Numbering {
    ghost count: { Self → ℕ };

    /// How many symbols there are, at most 4,096.
    fn count(&self) -> usize
        ensures value { result ≡ count self.now }
        ensures fits { result ≤ 4096 };
}
