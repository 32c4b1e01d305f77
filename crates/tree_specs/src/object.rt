//! Objects and owners, by their numbers.
ghost use Rattle.std.specs.Prelude.{◌≡◌};
ghost use Rattle.tree_specs.specs.Words.Objects.{owner_number, first_context};

use std::fmt::{Display, Error, Formatter, Write};

/// An object of the tree, named by its serial number, from 1 upwards. No number is used twice.
#[derive(Clone, Copy, Debug, PartialEq, Eq)]
pub struct Obj(pub u64);

impl Obj {
    /// The context that is always there, and is no object. In texts it is the number 0.
    pub fn first_context() -> Obj
        ensures { result ≡ first_context }
    {
        Obj(0)
    }
}

impl Display for Obj {
    fn fmt<W: Write>(&self, f: &mut Formatter<W>) -> Result<(), Error> {
        write!(f, "object {}", self.0)
    }
}

/// Who owns an object: the root, which is talloc's null context, or another object.
#[derive(Clone, Copy, Debug, PartialEq, Eq)]
pub enum Owner {
    /// The null context. It is no object and can't be freed. In texts it is the number 0.
    Root,
    /// An object, whose number is at least 1.
    Of(Obj),
}

impl Owner {
    /// The number that texts and replies have for it; 0 is the root.
    pub fn number(self) -> u64
        ensures { result ≡ owner_number self }
    {
        match self {
            Owner::Root => 0,
            Owner::Of(Obj(n)) => n,
        }
    }
}

impl Display for Owner {
    fn fmt<W: Write>(&self, f: &mut Formatter<W>) -> Result<(), Error> {
        match self {
            Owner::Root => f.write_str("the root"),
            Owner::Of(x) => x.fmt(f),
        }
    }
}
