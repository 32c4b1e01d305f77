//! A walk over an owner and all that is below it.
ghost use Rattle.std.specs.Prelude.{◌≡◌, Some};
ghost use Rattle.tree_links.specs.Links.{IsTree};
ghost use Rattle.tree_links.specs.Walk.{left, ahead as all_ahead, from_here, walk_from, IsDeep};

use crate::tree::Tree;
use std::marker::Model;
use tree_specs::Owner;

/// Where a walk comes to: an owner, and how far below the one that the walk began at.
#[derive(Clone, Copy, PartialEq, Eq)]
pub struct Place {
    pub owner: Owner,
    /// How many steps it is below the owner that the walk began at.
    pub depth: u32,
}

/// A walk over an owner and all that is below it, each owner before its children and these the newest placed
/// first, as `talloc_report_depth_cb` goes. It takes no memory, and no call stack. Contracts see the places that are
/// still to come.
#[derive(Drop)]
pub struct Walk<'a> {
    tree: &'a Tree,
    at: Option<Place>,
}

impl<'a> Model for Walk<'a> {
    ghost use Rattle.std.specs.Prelude.{List};
    ghost use Rattle.tree_links.specs.Links.{IsTree};
    ghost use Rattle.tree_links.specs.declared.walk.Place.{Place};
    ghost use Rattle.tree_links.specs.Walk.{from_here, IsDeep};

    ghost Value = { List Place };

    ghost view = { λ w. from_here w.tree.now.rows w.at };

    ghost invariant = { λ w. IsTree w.tree.now.rows w.tree.now.next × IsDeep w.tree.now.rows w.at };
}

impl Tree {
    /// A walk that begins at this owner, be it the root, an object or none.
    pub fn walk(&self, from: Owner) -> Walk<'_>
        ensures sound { IsTree self.now.rows self.now.next }
        ensures places { result ≡ walk_from self.now.rows from }
    {
        // Read for the prover: where a field is used, the invariant is known, by which the rows are a tree and a walk
        // ends.
        let _ = &self.works;
        Walk {
            tree: self,
            at: Some(Place {
                owner: from,
                depth: 0,
            }),
        }
    }
}

impl<'a> Iterator for Walk<'a> {
    ghost use Rattle.std.specs.Iterator.{YieldsFirst, item_count};

    type Item = Place;

    ghost next_gives = { YieldsFirst (λ w. w) };

    ghost remaining = { item_count (λ w. w) };

    fn next(&mut self) -> Option<Place> {
        let place = self.at?;
        self.at = next_place(self.tree, place);
        Some(place)
    }
}

/// The next place of a walk. None where it is at its end.
fn next_place(tree: &Tree, place: Place) -> Option<Place>
    requires sound { IsTree tree.now.rows tree.now.next }
    requires deep { IsDeep tree.now.rows (Some place) }
    ensures ahead { all_ahead tree.now.rows place ≡ from_here tree.now.rows result }
    ensures deep { IsDeep tree.now.rows result }
{
    match tree.first_kid(place.owner) {
        Some(x) => Some(Place {
            owner: Owner::Of(x),
            depth: place.depth + 1,
        }),
        None => place_after(tree, place),
    }
}

/// The place that a walk comes to after this one and all that is below it.
fn place_after(tree: &Tree, place: Place) -> Option<Place>
    requires sound { IsTree tree.now.rows tree.now.next }
    requires deep { IsDeep tree.now.rows (Some place) }
    ensures left { left place.depth tree.now.rows (Some place.owner) ≡ from_here tree.now.rows result }
    ensures deep { IsDeep tree.now.rows result }
{
    let mut owner = place.owner;
    let mut depth = place.depth;
    while depth > 0 {
        let Owner::Of(x) = owner else { return None };
        if let Some(next) = tree.next_kid(x) {
            return Some(Place {
                owner: Owner::Of(next),
                depth,
            });
        }
        owner = tree.parent(x)?;
        depth -= 1;
    }
    None
}
