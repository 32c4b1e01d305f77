//! What each descriptor is ready for.
ghost use Rattle.std.specs.Prelude.{◌≤◌};

use std::alloc::Global;
use tree_specs::Memory;

/// Ready for reading, as `TEVENT_FD_READ`.
pub(crate) const READ: u8 = 1;

/// Ready for writing, as `TEVENT_FD_WRITE`.
pub(crate) const WRITE: u8 = 2;

/// Ready for both.
pub(crate) const BOTH: u8 = 3;

/// What each descriptor is ready for, as the system has told and no call has found otherwise since.
#[derive(Drop)]
pub(crate) struct Standing {
    flags: Vec<u8>,
}

impl Standing {
    /// No descriptor is ready.
    pub(crate) fn new(alloc: Global) -> Standing {
        Standing {
            flags: Vec::new(alloc),
        }
    }

    /// Makes a place for a descriptor.
    pub(crate) fn make_place(&mut self, fd: u32) -> Result<(), Memory> {
        let places = (fd as usize).saturating_add(1);
        if self.flags.len() < places {
            self.flags.resize(places, 0)?;
        }
        Ok(())
    }

    /// It is ready for these too.
    pub(crate) fn add(&mut self, fd: usize, flags: u8) {
        if let Some(standing) = self.flags.get_mut(fd) {
            *standing |= flags;
        }
    }

    /// It isn't ready for these.
    pub(crate) fn clear(&mut self, fd: u32, flags: u8) {
        if let Some(standing) = self.flags.get_mut(fd as usize) {
            *standing &= !flags;
        }
    }

    /// What it is ready for.
    pub(crate) fn of(&self, fd: u32) -> u32
        ensures { result ≤ 3 }
    {
        match self.flags.get(fd as usize) {
            Some(standing) => (*standing & BOTH) as u32,
            None => 0,
        }
    }
}
