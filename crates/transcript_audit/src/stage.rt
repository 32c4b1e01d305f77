//! How far a transcript is read.

/// What may come next.
#[derive(Clone, Copy)]
pub enum Stage {
    /// The first line.
    Header,
    /// A line behind it.
    Body,
    /// Nothing: the question that is open at the end was told.
    Over,
}
