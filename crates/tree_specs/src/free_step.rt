//! What a free tells step by step, and what it answers at its end.
use crate::object::{Obj, Owner};

/// What a free answers.
#[derive(Clone, Copy, Debug, PartialEq, Eq)]
pub enum FreeReply {
    /// The object is gone, or on its way.
    Ok,
    /// There was a reference to it from outside, which was dropped.
    Held,
    /// Its destructor or its handler runs, or the work that comes before its freeing.
    Running,
    /// Its destructor returned this number, which isn't 0.
    Refused(u32),
}

/// What a step of a free tells, or asks for.
#[derive(Clone, Copy, PartialEq, Eq)]
pub enum FreeStep {
    /// The destructor of the object is to run.
    Ask(Obj),
    /// The object is a request, which is to be received where it wasn't yet.
    Prepare(Obj),
    /// The object is a queue, whose entries are to be freed.
    Drain(Obj),
    /// A reference is no more.
    Dropped {
        reference: Obj,
        target: Obj,
    },
    /// The object's destructor returned this number, which isn't 0, and the object stays.
    Refused {
        object: Obj,
        answer: u32,
    },
    /// The object's destructor returned 0.
    Accepted(Obj),
    /// The object's handler runs: it is to be freed after this, and comes no more until then.
    Doom(Obj),
    /// The object has left this owner, and its children go next.
    Left {
        object: Obj,
        from: Owner,
    },
    /// The object goes from its owner to another one: a child that wasn't freed to its heir, or an object that its
    /// owner gave up to the owner of a reference that was dropped.
    Moved {
        object: Obj,
        from: Owner,
        owner: Owner,
    },
    /// The object is no more. `hook` is the destructor that accepted this, and 0 means none.
    Gone {
        object: Obj,
        hook: u32,
    },
    /// The free is over.
    Done(FreeReply),
}
