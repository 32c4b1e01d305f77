//! Lists whose elements obey a rule, which is checked once, when the list is made.
ghost use Rattle.std.specs.Prelude.{◌≡◌, Bool, List, IsTrue, IfSome, IsSome, ◌↔◌};
ghost use Rattle.std.specs.Cmp.Lexicographic.{pointwise, lists_per, lists_equiv};

use crate::listed::Listed;
use std::marker::{Model, PhantomData};

/// A rule that elements may obey.
pub trait Rule<T> {
    /// Whether they are so.
    ghost holds: { List T → Bool };

    /// Whether the elements obey the rule.
    fn holds(elements: &[T]) -> bool
        ensures { result ≡ holds elements.now };
}

/// Elements that obey a rule. Contracts see the list of them.
#[derive(Drop)]
pub struct Checked<T: 'static, R: Rule<T>> {
    elements: Listed<T>,
    rule: PhantomData<R>,
}

impl<T: 'static, R: Rule<T>> Model for Checked<T, R> {
    ghost Value = { List T };

    ghost view = { λ c. c.elements };

    ghost invariant = { λ c. IsTrue (R.holds c.elements) };
}

impl<T: Drop + 'static, R: Rule<T>> Checked<T, R> {
    /// A list of these elements. None exactly where they don't obey the rule.
    pub fn make(elements: Vec<T>) -> Option<Checked<T, R>>
        ensures some { IsSome result ↔ IsTrue (R.holds elements.items) }
        ensures same { IfSome result (λ c. c ≡ elements.items) }
    {
        if R::holds(&elements) {
            Some(Checked {
                elements: Listed::given(elements),
                rule: PhantomData,
            })
        } else {
            None
        }
    }

    /// A list of elements that stand in the program.
    pub fn fixed(elements: &'static [T]) -> Checked<T, R>
        requires { IsTrue (R.holds elements.now) }
        ensures { result ≡ elements.now }
    {
        Checked {
            elements: Listed::fixed(elements),
            rule: PhantomData,
        }
    }

    /// Lends the elements.
    pub fn as_slice(&self) -> &[T]
        ensures value { result.now ≡ self.now }
        ensures sound { IsTrue (R.holds self.now) }
    {
        self.elements.as_slice()
    }
}

impl<T: PartialEq, R: Rule<T>> PartialEq for Checked<T, R> {
    ghost eq = { pointwise T.eq };

    ghost laws = { lists_per T.laws };

    fn eq(&self, other: &Self) -> bool {
        self.elements == other.elements
    }
}

impl<T: Eq, R: Rule<T>> Eq for Checked<T, R> {
    ghost laws = { lists_equiv T.Eq.laws };
}
