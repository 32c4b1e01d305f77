//! The bytes of one read or of one write.
ghost use Rattle.tree_specs.specs.Words.Octets.{is_octets};

use crate::bounds::OCTETS_LIMIT;
use crate::checked::{Checked, Rule};

/// The rule of what one read gives or one write takes: 1 to 65,536 bytes.
pub struct IsOctets;

impl Rule<u8> for IsOctets {
    ghost holds = { is_octets };

    fn holds(bytes: &[u8]) -> bool {
        1 <= bytes.len() && bytes.len() <= OCTETS_LIMIT
    }
}

/// What one read gives or one write takes: 1 to 65,536 bytes. Contracts see it as the list of its bytes.
pub type Octets = Checked<u8, IsOctets>;
