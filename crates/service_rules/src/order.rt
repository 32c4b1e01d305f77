//! What lines ask for.
use tree_specs::Call;

/// What a line of a connection asks for, behind its tag.
#[derive(Drop)]
pub enum Order {
    /// A call on the tree. The owner 0 of the line is the root here, and means the connection's session.
    Call(Call),
    /// An answer after so many microseconds.
    Sleep(u64),
    /// An answer so many microseconds after its turn in the session's queue has come.
    Job(u64),
}
