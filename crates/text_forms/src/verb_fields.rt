//! The fields of calls, by the shapes of their verbs.

ghost use Rattle.std.specs.Prelude.{◌≡◌};
ghost use Rattle.text_forms.specs.declared.verb.Verb.TheVariants as verbs;
ghost use Rattle.text_forms.specs.Cursor.{Takes};
ghost use Rattle.text_forms.specs.Verbs.{object_call, reading_of, fields_read};
ghost use Rattle.tree_specs.specs.Texts.Grammar.{taken};
ghost use Rattle.tree_specs.specs.declared.schedule.Version.{Version as VersionData};

use crate::field::Fields;
use crate::form::FormFault;
use crate::verb::{
    ContextVerb, DescriptorVerb, NumberVerb, ObjectContextVerb, ObjectVerb, OwnerObjectVerb,
    OwnerVerb, RoutineVerb, SizeVerb, Verb,
};
use tree_specs::{Call, Obj, Version};

/// The call with these fields, each of which comes next and is of the kind that stands behind its name.
macro_rules! call {
    ($call:ident { $($name:ident: $kind:ident $(($version:ident))?),* } from $fields:ident) => {
        Ok(Call::$call { $($name: $fields.$kind($($version)?)?),* })
    };
}

/// The call of this verb, whose context comes next, where one is said.
fn read_context(version: Version, verb: ContextVerb, fields: &mut Fields) -> Result<Call, FormFault>
    ensures { Takes result (taken version (reading_of (verbs.Context verb)) fields.old) fields.new }
{
    let context = fields.context(version)?;
    match verb {
        ContextVerb::Pending => Ok(Call::Pending { context }),
        ContextVerb::Turn => Ok(Call::Turn { context }),
    }
}

/// The call of this verb on an object.
fn object_call(verb: ObjectVerb, x: Obj) -> Call
    ensures { result ≡ object_call verb x }
{
    match verb {
        ObjectVerb::Free => Call::Free { x },
        ObjectVerb::Freekids => Call::Freekids { x },
        ObjectVerb::Unhook => Call::Unhook { x },
        ObjectVerb::Parent => Call::Parent { x },
        ObjectVerb::Unschedule => Call::Unschedule { x },
        ObjectVerb::Getflags => Call::Getflags { x },
        ObjectVerb::Autoclose => Call::Autoclose { x },
        ObjectVerb::Cancel => Call::Cancel { x },
        ObjectVerb::Done => Call::Done { x },
        ObjectVerb::Oom => Call::Oom { x },
        ObjectVerb::Iserror => Call::Iserror { x },
        ObjectVerb::Progress => Call::Progress { x },
        ObjectVerb::Received => Call::Received { x },
        ObjectVerb::Start => Call::Start { queue: x },
        ObjectVerb::Stop => Call::Stop { queue: x },
        ObjectVerb::Length => Call::Length { queue: x },
        ObjectVerb::Running => Call::Running { queue: x },
    }
}

/// The call of this verb, whose one field, an object, comes next.
fn read_object(verb: ObjectVerb, fields: &mut Fields) -> Result<Call, FormFault>
    ensures { (v : VersionData) → Takes result (taken v (reading_of (verbs.Object verb)) fields.old) fields.new }
{
    let x = fields.object()?;
    Ok(object_call(verb, x))
}

/// The call of this verb, whose fields, an object and a context where one is said, come next.
fn read_object_context(
    version: Version,
    verb: ObjectContextVerb,
    fields: &mut Fields,
) -> Result<Call, FormFault>
    ensures { Takes result (taken version (reading_of (verbs.ObjectContext verb)) fields.old) fields.new }
{
    let x = fields.object()?;
    let context = fields.context(version)?;
    match verb {
        ObjectContextVerb::Defer => Ok(Call::Defer { x, context }),
        ObjectContextVerb::Post => Ok(Call::Post { x, context }),
    }
}

/// The call of this verb, whose one field, an owner, comes next.
fn read_owner(verb: OwnerVerb, fields: &mut Fields) -> Result<Call, FormFault>
    ensures { (v : VersionData) → Takes result (taken v (reading_of (verbs.Owner verb)) fields.old) fields.new }
{
    let owner = fields.owner()?;
    match verb {
        OwnerVerb::Total => Ok(Call::Total { owner }),
        OwnerVerb::Count => Ok(Call::Count { owner }),
        OwnerVerb::Sum => Ok(Call::Sum { owner }),
        OwnerVerb::Report => Ok(Call::Report { owner }),
        OwnerVerb::Context => Ok(Call::Context { owner }),
        OwnerVerb::Immediate => Ok(Call::Immediate { owner }),
    }
}

/// The call of this verb, whose fields, an owner and an object, come next.
fn read_owner_object(verb: OwnerObjectVerb, fields: &mut Fields) -> Result<Call, FormFault>
    ensures { (v : VersionData) → Takes result (taken v (reading_of (verbs.OwnerObject verb)) fields.old) fields.new }
{
    let owner = fields.owner()?;
    let x = fields.object()?;
    match verb {
        OwnerObjectVerb::Steal => Ok(Call::Steal { owner, x }),
        OwnerObjectVerb::Move => Ok(Call::Move { owner, x }),
        OwnerObjectVerb::Reference => Ok(Call::Reference { owner, x }),
        OwnerObjectVerb::Unlink => Ok(Call::Unlink { owner, x }),
    }
}

/// The call of this verb, whose fields, an object and a number, come next.
fn read_number(verb: NumberVerb, fields: &mut Fields) -> Result<Call, FormFault>
    ensures { (v : VersionData) → Takes result (taken v (reading_of (verbs.Number verb)) fields.old) fields.new }
{
    let x = fields.object()?;
    let n = fields.number()?;
    match verb {
        NumberVerb::Resize => Ok(Call::Resize { x, size: n }),
        NumberVerb::Limit => Ok(Call::Limit { x, max: n }),
        NumberVerb::Error => Ok(Call::Error { x, error: n }),
    }
}

/// The call of this verb, whose fields, an object and a routine or 0, come next.
fn read_routine(verb: RoutineVerb, fields: &mut Fields) -> Result<Call, FormFault>
    ensures { (v : VersionData) → Takes result (taken v (reading_of (verbs.Routine verb)) fields.old) fields.new }
{
    let x = fields.object()?;
    let routine = fields.number32()?;
    match verb {
        RoutineVerb::Cleanup => Ok(Call::Cleanup { x, routine }),
        RoutineVerb::Setcancel => Ok(Call::Setcancel { x, routine }),
    }
}

/// The call of this verb, whose one field, a descriptor, comes next.
fn read_descriptor(verb: DescriptorVerb, fields: &mut Fields) -> Result<Call, FormFault>
    ensures { (v : VersionData) → Takes result (taken v (reading_of (verbs.Descriptor verb)) fields.old) fields.new }
{
    let fd = fields.number32()?;
    match verb {
        DescriptorVerb::Close => Ok(Call::Close { fd }),
        DescriptorVerb::Accept => Ok(Call::Accept { fd }),
    }
}

/// The call of this verb, whose fields, an owner, a size and a name, come next.
fn read_size(version: Version, verb: SizeVerb, fields: &mut Fields) -> Result<Call, FormFault>
    ensures { Takes result (taken version (reading_of (verbs.Size verb)) fields.old) fields.new }
{
    let owner = fields.owner()?;
    let size = fields.number()?;
    let name = fields.name(version)?;
    match verb {
        SizeVerb::New => Ok(Call::New { owner, size, name }),
        SizeVerb::Req => Ok(Call::Req { owner, size, name }),
    }
}

/// The call `reparent`, whose fields come next.
fn read_reparent(fields: &mut Fields) -> Result<Call, FormFault>
    ensures { (v : VersionData) → Takes result (taken v (reading_of verbs.Reparent) fields.old) fields.new }
{
    call!(Reparent { from: owner, to: owner, x: object } from fields)
}

/// The call `hook`, whose fields come next.
fn read_hook(fields: &mut Fields) -> Result<Call, FormFault>
    ensures { (v : VersionData) → Takes result (taken v (reading_of verbs.Hook) fields.old) fields.new }
{
    call!(Hook { x: object, routine: routine } from fields)
}

/// The call `rename`, whose fields come next.
fn read_rename(version: Version, fields: &mut Fields) -> Result<Call, FormFault>
    ensures { Takes result (taken version (reading_of verbs.Rename) fields.old) fields.new }
{
    call!(Rename { x: object, name: name(version) } from fields)
}

/// The call `schedule`, whose fields come next.
fn read_schedule(version: Version, fields: &mut Fields) -> Result<Call, FormFault>
    ensures { Takes result (taken version (reading_of verbs.Schedule) fields.old) fields.new }
{
    call!(Schedule { x: object, routine: number32, user: number, context: context(version) } from fields)
}

/// The call `timer`, whose fields come next.
fn read_timer(version: Version, fields: &mut Fields) -> Result<Call, FormFault>
    ensures { Takes result (taken version (reading_of verbs.Timer) fields.old) fields.new }
{
    call!(Timer { owner: owner, time: time, routine: routine, user: number, context: context(version) } from fields)
}

/// The call `fd`, whose fields come next.
fn read_fd(version: Version, fields: &mut Fields) -> Result<Call, FormFault>
    ensures { Takes result (taken version (reading_of verbs.Fd) fields.old) fields.new }
{
    call!(Fd { owner: owner, fd: number32, flags: flags, routine: routine, user: number, context: context(version) } from fields)
}

/// The call `flags`, whose fields come next.
fn read_flags(fields: &mut Fields) -> Result<Call, FormFault>
    ensures { (v : VersionData) → Takes result (taken v (reading_of verbs.Flags) fields.old) fields.new }
{
    call!(Flags { x: object, flags: flags } from fields)
}

/// The call `endtime`, whose fields come next.
fn read_endtime(version: Version, fields: &mut Fields) -> Result<Call, FormFault>
    ensures { Takes result (taken version (reading_of verbs.Endtime) fields.old) fields.new }
{
    call!(Endtime { x: object, time: time, context: context(version) } from fields)
}

/// The call `read`, whose fields come next.
fn read_read(fields: &mut Fields) -> Result<Call, FormFault>
    ensures { (v : VersionData) → Takes result (taken v (reading_of verbs.Read) fields.old) fields.new }
{
    call!(Read { fd: number32, len: length } from fields)
}

/// The call `write`, whose fields come next.
fn read_write(fields: &mut Fields) -> Result<Call, FormFault>
    ensures { (v : VersionData) → Takes result (taken v (reading_of verbs.Write) fields.old) fields.new }
{
    call!(Write { fd: number32, bytes: bytes } from fields)
}

/// The call `callback`, whose fields come next.
fn read_callback(fields: &mut Fields) -> Result<Call, FormFault>
    ensures { (v : VersionData) → Takes result (taken v (reading_of verbs.Callback) fields.old) fields.new }
{
    call!(Callback { x: object, routine: number32, user: number } from fields)
}

/// The call `queue`, whose fields come next.
fn read_queue(version: Version, fields: &mut Fields) -> Result<Call, FormFault>
    ensures { Takes result (taken version (reading_of verbs.Queue) fields.old) fields.new }
{
    call!(Queue { owner: owner, name: name(version) } from fields)
}

/// The call `enqueue`, whose fields come next.
fn read_enqueue(version: Version, fields: &mut Fields) -> Result<Call, FormFault>
    ensures { Takes result (taken version (reading_of verbs.Enqueue) fields.old) fields.new }
{
    call!(Enqueue { queue: object, x: object, routine: routine, user: number, context: context(version) } from fields)
}

/// The call of this verb, whose fields come next.
#[tactic(auto, unfolding(crate::specs::Verbs::fields_read))]
pub(crate) fn read_fields(
    version: Version,
    verb: Verb,
    fields: &mut Fields,
) -> Result<Call, FormFault>
    ensures { Takes result (fields_read version verb fields.old) fields.new }
{
    match verb {
        Verb::Context(verb) => read_context(version, verb, fields),
        Verb::Object(verb) => read_object(verb, fields),
        Verb::ObjectContext(verb) => read_object_context(version, verb, fields),
        Verb::Owner(verb) => read_owner(verb, fields),
        Verb::OwnerObject(verb) => read_owner_object(verb, fields),
        Verb::Number(verb) => read_number(verb, fields),
        Verb::Routine(verb) => read_routine(verb, fields),
        Verb::Descriptor(verb) => read_descriptor(verb, fields),
        Verb::Size(verb) => read_size(version, verb, fields),
        Verb::Reparent => read_reparent(fields),
        Verb::Hook => read_hook(fields),
        Verb::Rename => read_rename(version, fields),
        Verb::Schedule => read_schedule(version, fields),
        Verb::Timer => read_timer(version, fields),
        Verb::Fd => read_fd(version, fields),
        Verb::Flags => read_flags(fields),
        Verb::Endtime => read_endtime(version, fields),
        Verb::Read => read_read(fields),
        Verb::Write => read_write(fields),
        Verb::Callback => read_callback(fields),
        Verb::Queue => read_queue(version, fields),
        Verb::Enqueue => read_enqueue(version, fields),
        Verb::Now => Ok(Call::Now),
    }
}
