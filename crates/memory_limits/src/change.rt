//! Changes of the sums: the bytes inside an object become more or fewer.
ghost use Rattle.std.specs.Prelude.{◌≡◌, map};
ghost use Rattle.tree_specs.specs.declared.object.Owner.TheVariants.{Of as At};
ghost use Rattle.memory_limits.specs.Limits.{listed, summed, counts, counts_at};

use crate::allowance::Allowance;
use pool_arena::Arena;
use tree_links::Tree;
use tree_specs::{Obj, Owner};

/// So many bytes inside an object are no more, and then so many came to be there.
#[derive(Clone, Copy)]
pub(crate) struct Change {
    pub less: u64,
    pub more: u64,
}

impl Change {
    /// The sum after this change.
    fn summed(self, sum: u64) -> u64
        ensures { result ≡ summed self sum }
    {
        sum.saturating_sub(self.less).saturating_add(self.more)
    }

    /// Changes the sum that is kept of an object, where it has a limit.
    fn count_at(self, x: Obj, all: &mut Arena<Allowance>)
        ensures limited { listed all.new.pairs ≡ map (counts_at self x) (listed all.old.pairs) }
        ensures spare { all.new.spare ≡ all.old.spare }
    {
        if let Some(allowance) = all.get_mut(x.0) {
            allowance.sum = self.summed(allowance.sum);
        }
    }

    /// Changes the sums of all objects with a limit that an object is inside of, itself included. It walks up from the
    /// object.
    pub fn count_above(self, tree: &Tree, x: Obj, all: &mut Arena<Allowance>)
        ensures limited { listed all.new.pairs ≡ map (counts self tree.now.rows (At x)) (listed all.old.pairs) }
        ensures spare { all.new.spare ≡ all.old.spare }
    {
        let mut at = Owner::Of(x);
        let mut steps = tree.len() + 1;
        while steps > 0 {
            let Owner::Of(x) = at else {
                return;
            };
            self.count_at(x, all);
            let Some(next) = tree.parent(x) else {
                return;
            };
            at = next;
            steps -= 1;
        }
    }
}
