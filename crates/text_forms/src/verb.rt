//! The verbs of calls, by the shape of the fields that come after them.

/// A verb of a context alone, where one is said.
#[derive(Clone, Copy)]
pub(crate) enum ContextVerb {
    Pending,
    Turn,
}

/// A verb of an object alone.
#[derive(Clone, Copy)]
pub(crate) enum ObjectVerb {
    Free,
    Freekids,
    Unhook,
    Parent,
    Unschedule,
    Getflags,
    Autoclose,
    Cancel,
    Done,
    Oom,
    Iserror,
    Progress,
    Received,
    Start,
    Stop,
    Length,
    Running,
}

/// A verb of an object, and a context where one is said.
#[derive(Clone, Copy)]
pub(crate) enum ObjectContextVerb {
    Defer,
    Post,
}

/// A verb of an owner alone.
#[derive(Clone, Copy)]
pub(crate) enum OwnerVerb {
    Total,
    Count,
    Sum,
    Report,
    Context,
    Immediate,
}

/// A verb of an owner and an object.
#[derive(Clone, Copy)]
pub(crate) enum OwnerObjectVerb {
    Steal,
    Move,
    Reference,
    Unlink,
}

/// A verb of an object and a number.
#[derive(Clone, Copy)]
pub(crate) enum NumberVerb {
    Resize,
    Limit,
    Error,
}

/// A verb of an object and a routine, where 0 is none.
#[derive(Clone, Copy)]
pub(crate) enum RoutineVerb {
    Cleanup,
    Setcancel,
}

/// A verb of a descriptor alone.
#[derive(Clone, Copy)]
pub(crate) enum DescriptorVerb {
    Close,
    Accept,
}

/// A verb of an owner, a size and a name.
#[derive(Clone, Copy)]
pub(crate) enum SizeVerb {
    New,
    Req,
}

/// What a call asks for: its first word. A shape that no two verbs share has its verb's name.
#[derive(Clone, Copy)]
pub(crate) enum Verb {
    Context(ContextVerb),
    Object(ObjectVerb),
    ObjectContext(ObjectContextVerb),
    Owner(OwnerVerb),
    OwnerObject(OwnerObjectVerb),
    Number(NumberVerb),
    Routine(RoutineVerb),
    Descriptor(DescriptorVerb),
    Size(SizeVerb),
    Reparent,
    Hook,
    Rename,
    Schedule,
    Timer,
    Fd,
    Flags,
    Endtime,
    Read,
    Write,
    Callback,
    Queue,
    Enqueue,
    Now,
}
