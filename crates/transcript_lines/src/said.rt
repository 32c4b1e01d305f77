//! What a line of a transcript says, as far as the rules of orderly stories look at it.

use tree_specs::{Obj, Owner};

/// What an event or a question says. It owns no memory.
#[derive(Clone, Copy)]
pub enum Fact {
    /// Nothing that a rule looks at.
    Nothing,
    /// A routine runs for this object, or it was given to another owner though it has references.
    Uses(Obj),
    /// Its destructor is asked.
    Asks(Obj),
    /// Its destructor returned 0.
    Accepts(Obj),
    /// Its destructor returned this number.
    Refuses(Obj, u32),
    /// A call was refused since the object's destructor returned this number.
    RefusesCall(Obj, u32),
    /// The object goes to this owner.
    Moves(Obj, Owner),
    /// The object is no more; the routine of its destructor, or 0.
    Frees(Obj, u32),
    /// The first, a reference to the second, is no more.
    Drops(Obj, Obj),
    /// The request is in this state.
    Sets(Obj, u32),
}

/// What a line says. It owns no memory.
#[derive(Clone, Copy)]
pub enum Said {
    /// It is a row of a report.
    Row,
    /// A report of so many rows is over.
    Rows(u64),
    /// It tells an event, or asks a question that was answered.
    Tells(Fact),
    /// It has the question that is open at the end.
    Ends(Fact),
}
