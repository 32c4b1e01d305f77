//! Changes of a row where it stands: its name, mark, destructor, size and limit.
use crate::node::Edit;
use crate::tree::Tree;
use tree_specs::{Mark, Name, Obj};

impl Tree {
    ghost use Rattle.std.specs.Prelude.{◌≡◌, ◌<◌, ◌≤◌, true, false};
    ghost use Rattle.tree_specs.specs.Calls.Refusals.{size_limit};
    ghost use Rattle.tree_specs.specs.Tree.Pool.{is_row, is_dying, is_dying_mark, rename as renamed, set_mark as marked, set_hook as hooked, set_size as resized, set_limit as limited};
    ghost use Rattle.tree_links.specs.Links.{pool_of, works_of};

    /// Gives an object another name.
    pub fn set_name(&mut self, x: Obj, name: Name)
        requires { is_row self.old.rows x ≡ true }
        ensures rows { pool_of self.new ≡ renamed (pool_of self.old) x name }
        ensures spare { self.old.spare ≤ self.new.spare }
        ensures works { works_of self.new ≡ works_of self.old }
    {
        self.edit(x, Edit::Name(name));
    }

    /// Gives an object another mark.
    pub fn set_mark(&mut self, x: Obj, mark: Mark)
        requires is { is_row self.old.rows x ≡ true }
        requires live { is_dying self.old.rows x ≡ false }
        requires other { is_dying_mark mark ≡ false }
        ensures rows { pool_of self.new ≡ marked (pool_of self.old) x mark }
        ensures spare { self.old.spare ≤ self.new.spare }
        ensures works { works_of self.new ≡ works_of self.old }
    {
        self.edit(x, Edit::Mark(mark));
    }

    /// Gives an object another destructor, by its routine; 0 is none.
    pub fn set_hook(&mut self, x: Obj, hook: u32)
        requires { is_row self.old.rows x ≡ true }
        ensures rows { pool_of self.new ≡ hooked (pool_of self.old) x hook }
        ensures spare { self.old.spare ≤ self.new.spare }
        ensures works { works_of self.new ≡ works_of self.old }
    {
        self.edit(x, Edit::Hook(hook));
    }

    /// Gives an object another size, in bytes.
    pub fn set_size(&mut self, x: Obj, size: u64)
        requires is { is_row self.old.rows x ≡ true }
        requires small { size < size_limit }
        ensures rows { pool_of self.new ≡ resized (pool_of self.old) x size }
        ensures spare { self.old.spare ≤ self.new.spare }
        ensures works { works_of self.new ≡ works_of self.old }
    {
        self.edit(x, Edit::Size(size));
    }

    /// Gives an object another limit, in bytes; 0 is none.
    pub fn set_limit(&mut self, x: Obj, limit: u64)
        requires { is_row self.old.rows x ≡ true }
        ensures rows { pool_of self.new ≡ limited (pool_of self.old) x limit }
        ensures spare { self.old.spare ≤ self.new.spare }
        ensures works { works_of self.new ≡ works_of self.old }
    {
        self.edit(x, Edit::Limit(limit));
    }
}
