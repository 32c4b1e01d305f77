//! Lists that own their elements, or lend those that stand in the program.
ghost use Rattle.std.specs.Prelude.{◌≡◌};
ghost use Rattle.std.specs.Cmp.Lexicographic.{pointwise, lists_per, lists_equiv};

use std::borrow::CowSlice;
use std::marker::Model;

/// Elements that were given in a vector, or that stand in the program. Contracts see the list of them.
#[derive(Drop)]
pub(crate) struct Listed<T: 'static> {
    elements: CowSlice<'static, T>,
}

impl<T> Model for Listed<T> {
    ghost use Rattle.std.specs.Prelude.{List};
    ghost use Rattle.std.specs.Cow.{cow_slice_items};

    ghost Value = { List T };

    ghost view = { λ l. cow_slice_items l.elements };
}

impl<T> Listed<T> {
    /// A list of these elements, which it owns.
    pub(crate) fn given(items: Vec<T>) -> Listed<T>
        ensures { result ≡ items.items }
    {
        Listed {
            elements: CowSlice::Owned(items),
        }
    }

    /// A list of elements that stand in the program.
    pub(crate) fn fixed(items: &'static [T]) -> Listed<T>
        ensures { result ≡ items.now }
    {
        Listed {
            elements: CowSlice::Borrowed(items),
        }
    }

    /// Lends the elements.
    pub(crate) fn as_slice(&self) -> &[T]
        ensures { result.now ≡ self.now }
    {
        self.elements.as_slice()
    }
}

impl<T: PartialEq> PartialEq for Listed<T> {
    ghost eq = { pointwise T.eq };

    ghost laws = { lists_per T.laws };

    fn eq(&self, other: &Self) -> bool {
        self.as_slice() == other.as_slice()
    }
}

impl<T: Eq> Eq for Listed<T> {
    ghost laws = { lists_equiv T.Eq.laws };
}
