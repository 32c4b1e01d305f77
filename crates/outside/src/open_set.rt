//! The descriptors that a link in memory has open.
ghost use Rattle.std.specs.Prelude.{◌≡◌, [], ◌∷◌, ◌++◌, ◌==◌, not, filter, OnOk, OnErr, Ok};
ghost use Rattle.outside.specs.Descriptors.{is_among};
ghost use Rattle.outside.specs.Links.{AcceptsOpen};
ghost use Rattle.outside.specs.Scripts.{CanOpen};

use crate::link::Accepted;
use std::alloc::Global;
use std::marker::Model;
use tree_specs::Memory;

/// Takes a descriptor out of those of a list.
fn take_out(list: &mut Vec<u32>, fd: u32)
    ensures { list.new.items ≡ filter (λ d. not (d == fd)) list.old.items }
{
    list.retain(|each| *each != fd);
}

/// The descriptors that are open. Contracts see the list of them.
#[derive(Drop)]
pub(crate) struct OpenSet {
    open: Vec<u32>,
}

impl Model for OpenSet {
    ghost use Rattle.std.specs.Prelude.{ℕ, List};

    ghost Value = { List ℕ };

    ghost view = { λ s. s.open.items };
}

impl OpenSet {
    /// None are open.
    pub(crate) fn new(alloc: Global) -> OpenSet
        ensures { result ≡ [] }
    {
        OpenSet {
            open: Vec::new(alloc),
        }
    }

    /// Whether it is open.
    pub(crate) fn contains(&self, fd: u32) -> bool
        ensures { result ≡ is_among fd self.now }
    {
        self.open.iter().any(|each| *each == fd)
    }

    /// Adds a descriptor.
    fn add(&mut self, fd: u32) -> Result<(), Memory>
        ensures added { OnOk result (self.new ≡ self.old ++ fd ∷ []) }
        ensures kept { OnErr result (self.new ≡ self.old) }
    {
        self.open.push(fd)?;
        Ok(())
    }

    /// Takes a descriptor out.
    pub(crate) fn remove(&mut self, fd: u32)
        ensures { self.new ≡ filter (λ d. not (d == fd)) self.old }
    {
        take_out(&mut self.open, fd);
    }

    /// Opens what was accepted.
    pub(crate) fn open_for(&mut self, answer: Accepted) -> Result<(), Memory>
        requires { CanOpen self.old answer }
        ensures opened { OnOk result (AcceptsOpen (λ d. is_among d self.old) (λ d. is_among d self.new) (Ok answer)) }
        ensures kept { OnErr result (self.new ≡ self.old) }
    {
        match answer {
            Accepted::Took(fd) => self.add(fd),
            Accepted::Again | Accepted::Fault => Ok(()),
        }
    }
}
