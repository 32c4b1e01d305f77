//! Steps of open works that tell and ask nothing, by what they lead to.
use crate::active::Active;
use crate::answer::Answer;
use crate::waiting::Waiting;
use tree_specs::{Obj, Owner};

/// What a step that tells and asks nothing leads to.
#[derive(Drop)]
pub enum Step {
    /// It goes on as this.
    Goes(Active),
    /// This is at work from now on, and the other waits for it.
    Calls(Active, Waiting),
    /// An object is freed, and this waits for it.
    Frees(Obj, Waiting),
    /// The interest of an owner in an object is taken away, and this waits for it.
    Unlinks(Owner, Obj, Waiting),
    /// The children of an object are freed, and this waits for it.
    Empties(Obj, Waiting),
    /// It is over, and answers this to the work below it.
    Ends(Answer),
}
