//! The inputs that the tests give to a host, each by the numbers that its line in a schedule has.
ghost use Rattle.std.specs.Prelude.{◌≡◌, ◌<◌, IsTrue};
ghost use Rattle.tree_specs.specs.Words.Objects.{owner_number};
ghost use Rattle.tree_specs.specs.Words.Ranges.{is_sound, is_sound_owner};
ghost use Rattle.tree_specs.specs.declared.call.Call.{Call as CallData};
ghost use Rattle.tree_specs.specs.declared.call.Call.TheVariants as calls;
ghost use Rattle.tree_specs.specs.declared.object.Owner.{Owner as OwnerData};
ghost use Rattle.tree_specs.specs.declared.question.Act.TheVariants as acts;
ghost use Rattle.tree_specs.specs.declared.question.Input.TheVariants as inputs;

use tree_specs::{Act, Call, Input, Obj, Owner};

/// An owner by its number, where 0 is the root.
pub fn owner(number: u64) -> Owner
    ensures sound { IsTrue (is_sound_owner result) }
    ensures number { owner_number result ≡ number }
{
    if number == 0 {
        Owner::Root
    } else {
        Owner::Of(Obj(number))
    }
}

/// `free X`
pub fn free(number: u64) -> Input
    ensures sound { IsTrue (is_sound result) }
    ensures call { result ≡ inputs.Call (calls.Free (record { 0 = number })) }
{
    Input::Call(Call::Free { x: Obj(number) })
}

/// `total P`
pub fn total(number: u64) -> Input
    ensures sound { IsTrue (is_sound result) }
    ensures call { (o : OwnerData) × (owner_number o ≡ number) × (result ≡ inputs.Call (calls.Total o)) }
{
    Input::Call(Call::Total {
        owner: owner(number),
    })
}

/// `count P`
pub fn count(number: u64) -> Input
    ensures sound { IsTrue (is_sound result) }
    ensures call { (o : OwnerData) × (owner_number o ≡ number) × (result ≡ inputs.Call (calls.Count o)) }
{
    Input::Call(Call::Count {
        owner: owner(number),
    })
}

/// `report P`
pub fn report(number: u64) -> Input
    ensures sound { IsTrue (is_sound result) }
    ensures call { (o : OwnerData) × (owner_number o ≡ number) × (result ≡ inputs.Call (calls.Report o)) }
{
    Input::Call(Call::Report {
        owner: owner(number),
    })
}

/// `steal P X`
pub fn steal(parent: u64, number: u64) -> Input
    ensures sound { IsTrue (is_sound result) }
    ensures call { (o : OwnerData) × (owner_number o ≡ parent) × (result ≡ inputs.Call (calls.Steal o (record { 0 = number }))) }
{
    Input::Call(Call::Steal {
        owner: owner(parent),
        x: Obj(number),
    })
}

/// `hook X R`; a routine is a number from 1 upwards.
pub fn hook(number: u64, routine: u32) -> Input
    requires { 0 < routine }
    ensures sound { IsTrue (is_sound result) }
    ensures call { result ≡ inputs.Call (calls.Hook (record { 0 = number }) routine) }
{
    Input::Call(Call::Hook {
        x: Obj(number),
        routine,
    })
}

/// The same call, where a routine does it. What is no call stays.
pub fn act(call: Input) -> Input
    requires { IsTrue (is_sound call) }
    ensures sound { IsTrue (is_sound result) }
    ensures act { (c : CallData) → call ≡ inputs.Call c → result ≡ inputs.Act (acts.Do c) }
{
    match call {
        Input::Call(call) => Input::Act(Act::Do(call)),
        other => other,
    }
}

/// `ret N`
pub fn ret(value: u32) -> Input
    ensures sound { IsTrue (is_sound result) }
    ensures act { result ≡ inputs.Act (acts.Ret value) }
{
    Input::Act(Act::Ret(value))
}
