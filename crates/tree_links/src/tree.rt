//! `Tree`: the objects, and who owns them. A row, its owner, its first child and the next child after it are found in
//! the same time however many objects there are.
//!
//! Contracts see the list of rows, the one that was placed last first, with the next number; and, kept in the same
//! value, the works of the open frees. The invariant (`IsTree`) says that each number stands once, that each owner is
//! the root or a row, and that from owner to owner one comes to an end.
//!
//! Read on in `node.rt` (how the rows are linked), `walk.rt` and `sums.rt` (what is inside an owner), and `works.rt`.
ghost use Rattle.std.specs.Prelude.{◌≡◌};
ghost use Rattle.tree_links.specs.Nodes.{next_in};

use crate::new_row::NewRow;
use crate::node::{
    Edit, Node, enter, forget, head, leave_kin_of, leave_lanes, meet_newer, set_head, set_left,
    write,
};
use crate::owner::is_below;
use crate::works::Works;
use linked_lanes::Sides;
use pool_arena::Arena;
use std::alloc::Global;
use std::marker::Model;
use tree_specs::{Mark, Memory, Name, Obj, Owner, Row};

/// The objects and who owns them, with the works of the frees that are open on them. Contracts see the list of
/// rows, the most recently placed first, the next serial number, and spare: so many rows can be added without
/// taking memory; and the list of works, the innermost first, with room for so many more. Only `reserve` takes memory.
#[derive(Drop)]
pub struct Tree {
    nodes: Arena<Node>,
    /// The row that was placed last.
    front: Option<u64>,
    /// The first child of the root.
    root: Option<u64>,
    next: u64,
    /// The works of the frees that are open on them.
    pub(crate) works: Works,
}

impl Model for Tree {
    ghost use Rattle.tree_links.specs.Links.{Links};

    ghost Value = { Links };

    ghost use Rattle.tree_links.specs.Nodes.{rows_of, IsLinked};

    ghost view = { λ t. record { rows = rows_of t.nodes.pairs t.front; next = t.next; spare = t.nodes.spare; frees = t.works.frees; room = t.works.room } };

    ghost invariant = { λ t. IsLinked t.nodes.pairs t.front t.root t.next };
}

/// The child of the same owner that was placed last before this one, where it has an owner.
fn next_in(node: &Node) -> Option<Obj>
    ensures { result ≡ next_in node.now }
{
    match (node.row.owner, node.kin.older) {
        (Some(_), Some(x)) => Some(Obj(x)),
        _ => None,
    }
}

impl Tree {
    ghost use Rattle.std.specs.Prelude.{slice_get, position, ◌≡◌, ℕ, ◌+◌, ◌-◌, ◌^◌, ◌<◌, ◌≤◌, ◌∷◌, [], ◌↔◌, drop, true, false, None, ◌&&◌, IsTrue, IsSome, OnOk, MatchOption, length};
    ghost use Rattle.std.specs.Option.{option_copied};
    ghost use Rattle.tree_specs.specs.declared.object.Owner.TheVariants.{Of as At};
    ghost use Rattle.tree_specs.specs.Words.Objects.{same};
    ghost use Rattle.tree_specs.specs.Calls.Refusals.{row_limit, size_limit};
    ghost use Rattle.tree_specs.specs.Tree.Sums.{size_at};
    ghost use Rattle.tree_specs.specs.Tree.Pool.{empty, is_row, is_owner, is_dying, row_of, is_below, first_kid as kid_first, next_kid as kid_next, add as added, take_number as number_taken, detach as detached, remove as removed, place as placed, owner_of, next_owner as owner_after, is_inside as is_inside_of};
    ghost use Rattle.tree_links.specs.Edits.{KeepsSmall, with_edit};
    ghost use Rattle.tree_links.specs.Links.{IsTree, pool_of, works_of, number_after, may_go};

    /// A tree with no rows, whose next serial number is `first`, and no open free.
    pub fn new(alloc: Global, first: u64) -> Self
        ensures rows { pool_of result ≡ empty first }
        ensures works { result.frees ≡ [] }
    {
        Tree {
            nodes: Arena::new(alloc),
            front: None,
            root: None,
            next: first,
            works: Works::new(alloc),
        }
    }

    /// Takes memory for so many more rows, and for the works of all frees that these and the present rows can need
    /// until the next destructor runs: one for each of them, and two. If memory runs out, rows and works are as they
    /// were.
    #[inline(always)]
    pub fn reserve(&mut self, rows: usize) -> Result<(), Memory>
        ensures rows { pool_of self.new ≡ pool_of self.old }
        ensures spare { OnOk result (rows ≤ self.new.spare) }
        ensures kept { self.old.spare ≤ self.new.spare }
        ensures works { self.new.frees ≡ self.old.frees }
        ensures room { OnOk result (length self.old.rows + rows + 2 ≤ self.new.room) }
        ensures room_kept { self.old.room ≤ self.new.room }
    {
        let works = self.nodes.len().checked_add(rows).ok_or(Memory)?;
        self.works.reserve(works.checked_add(2).ok_or(Memory)?)?;
        self.nodes.reserve(rows)?;
        Ok(())
    }

    /// Adds an object at the front below its owner, and gives its serial number.
    #[inline(always)]
    pub fn add(&mut self, row: NewRow, owner: Owner) -> Obj
        requires room { 0 < self.old.spare }
        requires few { length self.old.rows < row_limit }
        requires small { row.size < size_limit }
        requires numbered { self.old.next < 2 ^ 64 - 1 }
        requires owner { is_owner self.old.rows owner ≡ true }
        ensures serial { result ≡ record { 0 = self.old.next } }
        ensures fresh { row_of self.old.rows result ≡ None }
        ensures rows { pool_of self.new ≡ added (pool_of self.old) row.kind owner row.size row.name }
        ensures spare { self.old.spare ≤ self.new.spare + 1 }
        ensures works { works_of self.new ≡ works_of self.old }
    {
        let serial = Obj(self.next);
        let first = set_head(&mut self.nodes, &mut self.root, owner, Some(serial.0));
        self.nodes.add(
            serial.0,
            Node {
                row: Row {
                    serial,
                    owner: Some(owner),
                    name: row.name,
                    size: row.size,
                    kind: row.kind,
                    mark: Mark::Quiet,
                    hook: 0,
                    limit: 0,
                },
                placed: Sides {
                    newer: None,
                    older: self.front,
                },
                kin: Sides {
                    newer: None,
                    older: first,
                },
                first: None,
            },
        );
        meet_newer(&mut self.nodes, self.front, first, serial.0);
        self.front = Some(serial.0);
        self.next += 1;
        serial
    }

    /// Takes the next serial number for something that is no object. None exactly where it is the greatest
    /// `u64`.
    pub fn take_number(&mut self) -> Option<u64>
        ensures number { result ≡ number_after self.old.next }
        ensures taken { IsSome result → pool_of self.new ≡ number_taken (pool_of self.old) }
        ensures spent { result ≡ None → self.new ≡ self.old }
        ensures spare { self.new.spare ≡ self.old.spare }
        ensures works { works_of self.new ≡ works_of self.old }
    {
        if self.next == u64::MAX {
            return None;
        }
        let number = self.next;
        self.next = number + 1;
        Some(number)
    }

    /// How many rows there are.
    pub fn len(&self) -> usize
        ensures count { result ≡ length self.now.rows }
        ensures sound { IsTree self.now.rows self.now.next }
    {
        self.nodes.len()
    }

    /// Whether there are no rows.
    pub fn is_empty(&self) -> bool
        ensures { IsTrue result ↔ (self.now.rows ≡ []) }
    {
        self.nodes.len() == 0
    }

    /// The serial number that the next object takes.
    pub fn next_number(&self) -> u64
        ensures { result ≡ self.now.next }
    {
        self.next
    }

    /// The row of an object. None exactly where there is none.
    pub fn row(&self, x: Obj) -> Option<&Row>
        ensures row { option_copied result ≡ row_of self.now.rows x }
        ensures sound { IsTree self.now.rows self.now.next }
    {
        match self.nodes.get(x.0) {
            None => None,
            Some(node) => Some(&node.row),
        }
    }

    /// The size of an object in bytes, and 0 where there is none.
    pub fn size(&self, x: Obj) -> u64
        ensures size { result ≡ size_at self.now.rows x }
        ensures sound { IsTree self.now.rows self.now.next }
    {
        self.row(x).map_or(0, |row| row.size)
    }

    /// Whether it is the root, or an object that can own others: a reference can't.
    pub fn is_owner(&self, owner: Owner) -> bool
        ensures { result ≡ is_owner self.now.rows owner }
    {
        match owner {
            Owner::Root => true,
            Owner::Of(x) => self.row(x).is_some_and(|row| row.kind.target().is_none()),
        }
    }

    /// The child that was placed last. None exactly where there is none.
    pub fn first_kid(&self, owner: Owner) -> Option<Obj>
        ensures { result ≡ kid_first self.now.rows owner }
    {
        match head(&self.nodes, self.root, owner) {
            None => None,
            Some(x) => Some(Obj(x)),
        }
    }

    /// The child of the same owner that was placed last before this one. None exactly where there is none, or
    /// `x` has no owner.
    #[inline(always)]
    pub fn next_kid(&self, x: Obj) -> Option<Obj>
        ensures { result ≡ kid_next self.now.rows x }
    {
        match self.nodes.get(x.0) {
            None => None,
            Some(node) => next_in(node),
        }
    }

    /// The owner of an object. None exactly where it is no object, or has left its owner.
    pub fn parent(&self, x: Obj) -> Option<Owner>
        ensures owner { result ≡ owner_of self.now.rows x }
        ensures sound { IsTree self.now.rows self.now.next }
    {
        self.row(x)?.owner
    }

    /// Whether an owner owns an object: it is its own owner, and not only one that it is inside.
    #[inline(always)]
    pub fn owns(&self, owner: Owner, x: Obj) -> bool
        ensures { result ≡ is_below (owner_of self.now.rows x) owner }
    {
        is_below(self.parent(x), owner)
    }

    /// The owner above an owner. None at the root, and where there is no such object.
    fn next_owner(&self, owner: Owner) -> Option<Owner>
        ensures { result ≡ owner_after self.now.rows owner }
    {
        match owner {
            Owner::Root => None,
            Owner::Of(x) => self.parent(x),
        }
    }

    /// Whether one comes from `from` to `to`, from owner to owner. It takes as many steps as there are owners above.
    fn leads_to(&self, from: Owner, to: Owner) -> bool
        ensures { result ≡ is_inside_of self.now.rows from to }
    {
        let mut at = from;
        let mut steps = self.nodes.len();
        while !is_below(Some(at), to) {
            if steps == 0 {
                return false;
            }
            steps -= 1;
            match self.next_owner(at) {
                Some(owner) => at = owner,
                None => return false,
            }
        }
        true
    }

    /// Whether an owner is another one, or inside it: from owner to owner one comes to it.
    pub fn is_inside(&self, from: Owner, to: Owner) -> bool
        ensures { result ≡ is_inside_of self.now.rows from to }
    {
        // Nothing else is inside an owner with no children.
        if self.first_kid(to).is_none() {
            return is_below(Some(from), to);
        }
        self.leads_to(from, to)
    }

    /// Whether an object is the owner, or inside it. False where it is no object.
    pub fn inside(&self, x: Obj, owner: Owner) -> bool
        ensures { result ≡ (is_row self.now.rows x && is_inside_of self.now.rows (At x) owner) }
    {
        self.row(x).is_some() && self.is_inside(Owner::Of(x), owner)
    }

    /// Puts an object below an owner, as its newest child.
    pub fn place(&mut self, x: Obj, owner: Owner)
        requires is { is_row self.old.rows x ≡ true }
        requires live { is_dying self.old.rows x ≡ false }
        requires owner { is_owner self.old.rows owner ≡ true }
        requires apart { is_inside_of self.old.rows owner (At x) ≡ false }
        ensures rows { pool_of self.new ≡ placed (pool_of self.old) owner x }
        ensures spare { self.old.spare ≤ self.new.spare }
        ensures works { works_of self.new ≡ works_of self.old }
    {
        if leave_lanes(&mut self.nodes, &mut self.front, &mut self.root, x.0) {
            let first = set_head(&mut self.nodes, &mut self.root, owner, Some(x.0));
            enter(&mut self.nodes, x.0, owner, self.front, first);
            meet_newer(&mut self.nodes, self.front, first, x.0);
            self.front = Some(x.0);
        }
    }

    /// Writes the row of an object anew where it stands.
    pub(crate) fn edit(&mut self, x: Obj, edit: Edit)
        requires small { KeepsSmall edit }
        ensures rows { pool_of self.new ≡ with_edit (pool_of self.old) x edit }
        ensures spare { self.old.spare ≤ self.new.spare }
        ensures works { works_of self.new ≡ works_of self.old }
    {
        write(&mut self.nodes, x.0, edit);
    }

    /// Lets an object leave its owner. It is dying from then on.
    pub fn detach(&mut self, x: Obj)
        requires is { is_row self.old.rows x ≡ true }
        requires live { is_dying self.old.rows x ≡ false }
        ensures rows { pool_of self.new ≡ detached (pool_of self.old) x }
        ensures spare { self.old.spare ≤ self.new.spare }
        ensures works { works_of self.new ≡ works_of self.old }
    {
        if let Some((former, kin)) = set_left(&mut self.nodes, x.0) {
            leave_kin_of(&mut self.nodes, &mut self.root, former, kin);
        }
    }

    /// Removes an object, which is dying and owns nothing, or is a reference.
    pub fn remove(&mut self, x: Obj)
        requires free { may_go self.old.rows x ≡ true }
        requires alone { kid_first self.old.rows (At x) ≡ None }
        ensures rows { pool_of self.new ≡ removed (pool_of self.old) x }
        ensures spare { self.old.spare ≤ self.new.spare }
        ensures works { works_of self.new ≡ works_of self.old }
    {
        if leave_lanes(&mut self.nodes, &mut self.front, &mut self.root, x.0) {
            forget(&mut self.nodes, x.0);
        }
    }
}
