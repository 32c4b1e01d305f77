//! What tells the time.
ghost use Rattle.std.specs.Prelude.{ℕ, List, [], ◌∷◌, Option, IsTrue};
ghost use Rattle.tree_specs.specs.Words.Ranges.{is_time};
ghost use Rattle.outside.specs.Tellings.{Tells};

/// What tells the time. It can't fail.
pub trait Clock {
    /// The times that were told so far, where it tells them.
    ghost told: { Self → Option (List ℕ) };

    /// The time in microseconds, at most 2^62. It may be earlier than one that was told before.
    fn now(&mut self) -> u64
        ensures time { IsTrue (is_time result) }
        ensures told { Tells (told self.old) (told self.new) (result ∷ []) };
}
