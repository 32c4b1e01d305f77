//! What a host keeps below the work that is at hand: the works that wait, and the objects.
use crate::waiting::Waiting;
use object_pool::ObjectPool;

/// What a host keeps besides what is at work.
#[derive(Drop)]
pub struct Parts {
    /// The works that wait, the innermost last. Where the open frees wait is marked among them; they themselves are
    /// kept with the objects.
    pub waiting: Vec<Waiting>,
    pub objects: ObjectPool,
}
