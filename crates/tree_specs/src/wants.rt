//! Descriptors with what they are ready for, and lists of them.
ghost use Rattle.std.specs.Prelude.{◌≡◌};
ghost use Rattle.std.specs.List.{list_all};
ghost use Rattle.tree_specs.specs.Words.Wants.{is_wants, is_want, has_flags, rises, comes_before};

use crate::checked::{Checked, Rule};

/// A descriptor, and what it is ready for.
#[derive(Clone, Copy, Debug, PartialEq, Eq)]
pub struct Want {
    pub fd: u32,
    /// 1 for reading, 2 for writing, 3 for both.
    pub flags: u32,
}

/// Whether the flags name something: 1 to 3.
fn has_flags(want: Want) -> bool
    ensures { result ≡ has_flags want }
{
    1 <= want.flags && want.flags <= 3
}

/// Whether a descriptor stands before another one.
fn comes_before(first: Want, second: Want) -> bool
    ensures { result ≡ comes_before first second }
{
    first.fd < second.fd
}

/// Whether one element is as the rule says.
fn is_want(want: Want) -> bool
    ensures { result ≡ is_want want }
{
    has_flags(want)
}

/// Whether each element is as the rule says.
fn are_all_wants(list: &[Want]) -> bool
    ensures { result ≡ list_all is_want list.now }
{
    list.iter().all(|want| is_want(*want))
}

/// Whether the descriptors rise, so that each stands once.
fn rises(list: &[Want]) -> bool
    ensures { result ≡ rises list.now }
{
    list.is_sorted_by(|first, second| comes_before(*first, *second))
}

/// The rule of what is ready: the descriptors rise, and flags are 1 to 3.
pub struct AreWants;

impl Rule<Want> for AreWants {
    ghost holds = { is_wants };

    fn holds(list: &[Want]) -> bool {
        let each = are_all_wants(list);
        each && rises(list)
    }
}

/// Which descriptors are ready: each once, the least first. Contracts see the list of them.
pub type Wants = Checked<Want, AreWants>;
