//! The limit of one object, with the sum of what is inside it.
ghost use Rattle.std.specs.Prelude.{◌≡◌, ◌+◌, ◌&&◌, nat_lt};

/// What is kept under the number of an object with a limit.
#[derive(Clone, Copy)]
pub(crate) struct Allowance {
    /// In bytes.
    pub limit: u64,
    /// What the objects inside it count together, in bytes, itself included.
    pub sum: u64,
}

impl Allowance {
    /// Whether there is a limit, and it has no room for so many bytes beside the sum.
    pub fn lacks(self, wanted: u64) -> bool
        ensures { result ≡ (nat_lt 0 self.limit && nat_lt self.limit (self.sum + wanted)) }
    {
        self.limit != 0 && (self.sum > self.limit || self.limit - self.sum < wanted)
    }
}
