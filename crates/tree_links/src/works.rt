//! The works of the frees that are open, each inside the one before.
ghost use Rattle.std.specs.Prelude.{slice_get, ◌≡◌, ◌+◌, ◌<◌, ◌≤◌, ◌∷◌, [], drop, length, OnOk};

use crate::tree::Tree;
use std::alloc::Global;
use std::marker::Model;
use tree_specs::{FreeFrame, Memory};

/// The works of the frees that are open. Contracts see the list of them, the innermost first, and room: so many more
/// can be put before them without taking memory.
#[derive(Drop)]
pub(crate) struct Works {
    /// The innermost is the last.
    frames: Vec<FreeFrame>,
}

impl Model for Works {
    ghost use Rattle.std.specs.Prelude.{◌-◌, length, reverse, vec_capacity};
    ghost use Rattle.tree_links.specs.Links.{Stacked};

    ghost Value = { Stacked };

    ghost view = { λ w. record { frees = reverse w.frames.items; room = vec_capacity w.frames - length w.frames.items } };
}

impl Works {
    /// No works.
    pub(crate) fn new(alloc: Global) -> Works
        ensures { result.frees ≡ [] }
    {
        Works {
            frames: Vec::new(alloc),
        }
    }

    /// Takes memory for so many more works. If memory runs out, they are as they were.
    pub(crate) fn reserve(&mut self, places: usize) -> Result<(), Memory>
        ensures works { self.new.frees ≡ self.old.frees }
        ensures room { OnOk result (places ≤ self.new.room) }
        ensures kept { self.old.room ≤ self.new.room }
    {
        self.frames.reserve(places)?;
        Ok(())
    }

    /// The innermost work. None exactly where there is none.
    fn innermost(&self) -> Option<FreeFrame>
        ensures { result ≡ slice_get self.now.frees 0 }
    {
        self.frames.last().copied()
    }

    /// Puts a work before the others.
    fn push(&mut self, work: FreeFrame)
        requires { 0 < self.old.room }
        ensures works { self.new.frees ≡ work ∷ self.old.frees }
        ensures room { self.old.room ≤ self.new.room + 1 }
    {
        self.frames.push_reserved(work);
    }

    /// Takes the innermost work away. None exactly where there is none.
    fn pop(&mut self) -> Option<FreeFrame>
        ensures work { result ≡ slice_get self.old.frees 0 }
        ensures works { self.new.frees ≡ drop 1 self.old.frees }
        ensures room { length self.old.frees + self.old.room ≤ length self.new.frees + self.new.room }
    {
        self.frames.pop()
    }
}

impl Tree {
    ghost use Rattle.tree_links.specs.Links.{pool_of};

    /// The innermost of the works of frees that wait. None exactly where none waits.
    pub fn innermost_free(&self) -> Option<FreeFrame>
        ensures { result ≡ slice_get self.now.frees 0 }
    {
        self.works.innermost()
    }

    /// Puts a work before those that wait.
    pub fn push_free(&mut self, work: FreeFrame)
        requires { 0 < self.old.room }
        ensures rows { pool_of self.new ≡ pool_of self.old }
        ensures spare { self.new.spare ≡ self.old.spare }
        ensures works { self.new.frees ≡ work ∷ self.old.frees }
        ensures room { self.old.room ≤ self.new.room + 1 }
    {
        self.works.push(work);
    }

    /// Takes the innermost of the works that wait away. None exactly where none waits.
    pub fn pop_free(&mut self) -> Option<FreeFrame>
        ensures rows { pool_of self.new ≡ pool_of self.old }
        ensures spare { self.new.spare ≡ self.old.spare }
        ensures work { result ≡ slice_get self.old.frees 0 }
        ensures works { self.new.frees ≡ drop 1 self.old.frees }
        ensures room { length self.old.frees + self.old.room ≤ length self.new.frees + self.new.room }
    {
        self.works.pop()
    }
}
