//! The objects as the tests of a call see them, with the row that most of these tests look at.
use object_pool::ObjectPool;
use std::marker::Model;
use tree_specs::{Obj, Row};

/// The objects, with the row of the one that a call is about at hand. Contracts see the pool.
#[derive(Drop)]
pub struct Subject<'a> {
    pool: &'a ObjectPool,
    /// An object with its row.
    known: Option<(Obj, &'a Row)>,
}

impl<'a> Model for Subject<'a> {
    ghost use Rattle.tree_specs.specs.Tree.Pool.{Pool};
    ghost use Rattle.host_core.specs.Subjects.{IsKnown};

    ghost Value = { Pool };

    ghost view = { λ s. s.pool.now.pool };

    ghost invariant = { λ s. IsKnown s.known s.pool.now.pool };
}

impl<'a> Subject<'a> {
    ghost use Rattle.std.specs.Prelude.{◌≡◌};
    ghost use Rattle.std.specs.Option.{option_copied};
    ghost use Rattle.tree_specs.specs.Tree.Pool.{row_of};

    /// The objects with no row at hand.
    #[inline]
    pub fn none(pool: &'a ObjectPool) -> Subject<'a>
        ensures { result ≡ pool.now.pool }
    {
        Subject { pool, known: None }
    }

    /// The objects with the row of this one at hand, if there is such an object.
    #[inline(always)]
    pub fn object(x: Obj, pool: &'a ObjectPool) -> Subject<'a>
        ensures { result ≡ pool.now.pool }
    {
        match pool.row(x) {
            Some(row) => Subject {
                pool,
                known: Some((x, row)),
            },
            None => Subject { pool, known: None },
        }
    }

    /// All objects.
    #[inline]
    pub fn pool(&self) -> &'a ObjectPool
        ensures { result.now.pool ≡ self.now }
    {
        self.pool
    }

    /// The row of an object. None exactly where there is none.
    #[inline]
    pub fn row(&self, x: Obj) -> Option<&'a Row>
        ensures { option_copied result ≡ row_of self.now.rows x }
    {
        match self.known {
            Some((y, row)) if x == y => Some(row),
            _ => self.pool.row(x),
        }
    }
}
