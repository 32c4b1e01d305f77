//! What is kept of an object: its row, and its neighbours in the two lanes that it stands in.
ghost use Rattle.std.specs.Prelude.{◌≡◌, ◌≤◌, ℕ, Option, Some, None, cond, true, false, nat_eq, List, ◌∷◌, is_some};
ghost use Rattle.std.specs.Option.{option_map, option_and_then};
ghost use Rattle.std.specs.FinMap as map;
ghost use Rattle.pool_arena.specs.Arena.{get};
ghost use Rattle.tree_specs.specs.Words.Objects.{same_owner};
ghost use Rattle.tree_specs.specs.declared.object.Owner.{Owner as OwnerData};
ghost use Rattle.tree_specs.specs.declared.row.Row.{Row as RowData};
ghost use Rattle.tree_specs.specs.Tree.Pool.{row_of, left_row, without as rows_without};
ghost use Rattle.tree_specs.specs.Tree.Forest.{Distinct as Once};
ghost use Rattle.linked_lanes.specs.Lane.{is_at, has, without, Distinct};
ghost use Rattle.linked_lanes.specs.Chain.{head_left, sides_in};
ghost use Rattle.tree_links.specs.Edits.{edited};
ghost use Rattle.tree_links.specs.Nodes.{with_link, entered, first_in, owned_in, with_first, with_row, row_at, head_of, HasHead, Nodes, Linked, Enters, Apart, Holds, kin_at, placed_at, children, numbers};

use linked_lanes::{Link, Sides};
use pool_arena::Arena;
use tree_specs::{Mark, Name, Owner, Row};

/// A row with its places: among all rows, among the children of its owner, and its first child.
#[derive(Drop)]
pub(crate) struct Node {
    pub row: Row,
    pub placed: Sides,
    pub kin: Sides,
    pub first: Option<u64>,
}

/// The lanes that a row stands in.
#[derive(Clone, Copy)]
enum Lane {
    /// All rows, in the order of their placing.
    Placed,
    /// The children of its owner.
    Kin,
}

/// Notes another neighbour of a node in a lane.
fn note(node: &mut Node, lane: Lane, link: Link)
    ensures { node.new ≡ with_link lane link node.old }
{
    match lane {
        Lane::Placed => node.placed.note(link),
        Lane::Kin => node.kin.note(link),
    }
}

/// Notes another neighbour of the node with this number in a lane. Nothing changes where there is no such node.
fn set_link(nodes: &mut Arena<Node>, at: Option<u64>, lane: Lane, link: Link)
    ensures nodes { (q : ℕ) → get nodes.new q ≡ cond (is_at at q) (option_map (with_link lane link) (get nodes.old q)) (get nodes.old q) }
    ensures len { map.len nodes.new.pairs ≡ map.len nodes.old.pairs }
    ensures spare { nodes.new.spare ≡ nodes.old.spare }
{
    if let Some(x) = at
        && let Some(node) = nodes.get_mut(x)
    {
        note(node, lane, link);
    }
}

/// Sets the first child of an object, and gives the one before.
fn set_first(nodes: &mut Arena<Node>, x: u64, first: Option<u64>) -> Option<u64>
    ensures former { result ≡ option_and_then first_in (get nodes.old x) }
    ensures nodes { (q : ℕ) → get nodes.new q ≡ cond (nat_eq x q) (option_map (with_first first) (get nodes.old q)) (get nodes.old q) }
    ensures len { map.len nodes.new.pairs ≡ map.len nodes.old.pairs }
    ensures spare { nodes.new.spare ≡ nodes.old.spare }
{
    let node = nodes.get_mut(x)?;
    let former = node.first;
    node.first = first;
    former
}

/// Takes a row with these neighbours out of the lane of all rows.
pub(crate) fn leave_placed(nodes: &mut Arena<Node>, front: &mut Option<u64>, sides: Sides)
    ensures rows { (q : ℕ) → row_at nodes.new.pairs q ≡ row_at nodes.old.pairs q }
    ensures linked { (root : Option ℕ) (A : List ℕ) (K : OwnerData → List ℕ) (x : ℕ) → Distinct A → has A x ≡ true → sides ≡ sides_in A x → Linked nodes.old.pairs front.old root A K → Linked nodes.new.pairs front.new root (without A x) K }
    ensures len { map.len nodes.new.pairs ≡ map.len nodes.old.pairs }
    ensures spare { nodes.new.spare ≡ nodes.old.spare }
{
    set_link(nodes, sides.newer, Lane::Placed, Link::Older(sides.older));
    set_link(nodes, sides.older, Lane::Placed, Link::Newer(sides.newer));
    *front = sides.head_after(*front);
}

/// The first child of an owner.
pub(crate) fn head(nodes: &Arena<Node>, root: Option<u64>, owner: Owner) -> Option<u64>
    ensures { result ≡ head_of nodes.now.pairs root owner }
{
    match owner {
        Owner::Root => root,
        Owner::Of(x) => match nodes.get(x.0) {
            None => None,
            Some(node) => node.first,
        },
    }
}

/// Sets the first child of an owner, and gives the one before.
pub(crate) fn set_head(
    nodes: &mut Arena<Node>,
    root: &mut Option<u64>,
    owner: Owner,
    first: Option<u64>,
) -> Option<u64>
    ensures former { result ≡ head_of nodes.old.pairs root.old owner }
    ensures rows { (q : ℕ) → row_at nodes.new.pairs q ≡ row_at nodes.old.pairs q }
    ensures placed { (q : ℕ) → placed_at nodes.new.pairs q ≡ placed_at nodes.old.pairs q }
    ensures kin { (q : ℕ) → kin_at nodes.new.pairs q ≡ kin_at nodes.old.pairs q }
    ensures heads { HasHead nodes.old.pairs owner → (p : OwnerData) → head_of nodes.new.pairs root.new p ≡ cond (same_owner owner p) first (head_of nodes.old.pairs root.old p) }
    ensures len { map.len nodes.new.pairs ≡ map.len nodes.old.pairs }
    ensures spare { nodes.new.spare ≡ nodes.old.spare }
{
    match owner {
        Owner::Root => {
            let former = *root;
            *root = first;
            former
        }
        Owner::Of(x) => set_first(nodes, x.0, first),
    }
}

/// Sets the first child of an owner, where the one with these neighbours was the first and leaves.
fn mend_head(nodes: &mut Arena<Node>, root: &mut Option<u64>, owner: Owner, sides: Sides)
    ensures rows { (q : ℕ) → row_at nodes.new.pairs q ≡ row_at nodes.old.pairs q }
    ensures placed { (q : ℕ) → placed_at nodes.new.pairs q ≡ placed_at nodes.old.pairs q }
    ensures kin { (q : ℕ) → kin_at nodes.new.pairs q ≡ kin_at nodes.old.pairs q }
    ensures heads { HasHead nodes.old.pairs owner → (p : OwnerData) → head_of nodes.new.pairs root.new p ≡ cond (same_owner owner p) (head_left (head_of nodes.old.pairs root.old p) sides) (head_of nodes.old.pairs root.old p) }
    ensures len { map.len nodes.new.pairs ≡ map.len nodes.old.pairs }
    ensures spare { nodes.new.spare ≡ nodes.old.spare }
{
    match sides.newer {
        None => {
            let _former = set_head(nodes, root, owner, sides.older);
        }
        Some(_) => (),
    }
}

/// Takes a row with these neighbours out of the lane of an owner's children.
pub(crate) fn leave_kin(nodes: &mut Arena<Node>, root: &mut Option<u64>, owner: Owner, sides: Sides)
    ensures rows { (q : ℕ) → row_at nodes.new.pairs q ≡ row_at nodes.old.pairs q }
    ensures linked { (front : Option ℕ) (A : List ℕ) (K : OwnerData → List ℕ) (x : ℕ) → Distinct (K owner) → has (K owner) x ≡ true → sides ≡ sides_in (K owner) x → Apart K owner → Linked nodes.old.pairs front root.old A K → Linked nodes.new.pairs front root.new A (λ p. without (K p) x) }
    ensures len { map.len nodes.new.pairs ≡ map.len nodes.old.pairs }
    ensures spare { nodes.new.spare ≡ nodes.old.spare }
{
    set_link(nodes, sides.newer, Lane::Kin, Link::Older(sides.older));
    set_link(nodes, sides.older, Lane::Kin, Link::Newer(sides.newer));
    mend_head(nodes, root, owner, sides);
}

/// Takes a row with these neighbours out of the lane of its owner's children, if it has an owner.
pub(crate) fn leave_kin_of(
    nodes: &mut Arena<Node>,
    root: &mut Option<u64>,
    owner: Option<Owner>,
    sides: Sides,
)
    ensures rows { (q : ℕ) → row_at nodes.new.pairs q ≡ row_at nodes.old.pairs q }
    ensures linked { (front : Option ℕ) (A : List ℕ) (rs : List RowData) (x : ℕ) (r : RowData) → Once rs → row_of rs (record { 0 = x }) ≡ Some r → r.owner ≡ owner → ((p : OwnerData) → owner ≡ Some p → sides ≡ sides_in (children rs p) x) → Linked nodes.old.pairs front root.old A (children rs) → Linked nodes.new.pairs front root.new A (λ p. without (children rs p) x) }
    ensures len { map.len nodes.new.pairs ≡ map.len nodes.old.pairs }
    ensures spare { nodes.new.spare ≡ nodes.old.spare }
{
    match owner {
        None => (),
        Some(owner) => leave_kin(nodes, root, owner, sides),
    }
}

/// Takes a row out of the lane of all rows and out of that of its owner's children. It still notes its neighbours
/// there. Answers whether there is such a row.
pub(crate) fn leave_lanes(
    nodes: &mut Arena<Node>,
    front: &mut Option<u64>,
    root: &mut Option<u64>,
    x: u64,
) -> bool
    ensures there { result ≡ is_some (get nodes.old x) }
    ensures rows { (q : ℕ) → row_at nodes.new.pairs q ≡ row_at nodes.old.pairs q }
    ensures linked { (rs : List RowData) → Once rs → Holds nodes.old.pairs front.old root.old rs → result ≡ true → Linked nodes.new.pairs front.new root.new (numbers (rows_without rs (record { 0 = x }))) (children (rows_without rs (record { 0 = x }))) }
    ensures len { map.len nodes.new.pairs ≡ map.len nodes.old.pairs }
    ensures spare { nodes.new.spare ≡ nodes.old.spare }
{
    let Some(node) = nodes.get(x) else {
        return false;
    };
    let placed = node.placed;
    let kin = node.kin;
    let owner = node.row.owner;
    leave_placed(nodes, front, placed);
    leave_kin_of(nodes, root, owner, kin);
    true
}

/// Puts a row below another owner, in front of these heads of the lane of all rows and of that of the owner's children.
pub(crate) fn enter(
    nodes: &mut Arena<Node>,
    x: u64,
    owner: Owner,
    front: Option<u64>,
    first: Option<u64>,
)
    ensures nodes { (q : ℕ) → get nodes.new q ≡ cond (nat_eq x q) (option_map (entered owner front first) (get nodes.old q)) (get nodes.old q) }
    ensures len { map.len nodes.new.pairs ≡ map.len nodes.old.pairs }
    ensures spare { nodes.new.spare ≡ nodes.old.spare }
{
    if let Some(node) = nodes.get_mut(x) {
        node.row.owner = Some(owner);
        node.placed = Sides {
            newer: None,
            older: front,
        };
        node.kin = Sides {
            newer: None,
            older: first,
        };
    }
}

/// Notes at the heads of two lanes a newer neighbour, which has entered in front of them.
#[inline(always)]
pub(crate) fn meet_newer(nodes: &mut Arena<Node>, front: Option<u64>, first: Option<u64>, x: u64)
    ensures rows { (q : ℕ) → row_at nodes.new.pairs q ≡ row_at nodes.old.pairs q }
    ensures linked { (m : Nodes) (former root : Option ℕ) (o : OwnerData) (A : List ℕ) (K : OwnerData → List ℕ) → has A x ≡ false → ((p : OwnerData) → has (K p) x ≡ false) → Apart K o → Enters m nodes.old.pairs front first former root o x → Linked m front former A K → Linked nodes.new.pairs (Some x) root (x ∷ A) (λ p. cond (same_owner o p) (x ∷ K p) (K p)) }
    ensures len { map.len nodes.new.pairs ≡ map.len nodes.old.pairs }
    ensures spare { nodes.new.spare ≡ nodes.old.spare }
{
    set_link(nodes, front, Lane::Placed, Link::Newer(Some(x)));
    set_link(nodes, first, Lane::Kin, Link::Newer(Some(x)));
}

/// Marks a row as one that has left its owner. Gives that owner, and its neighbours among the owner's children, which
/// still note it. None exactly where there is no such node.
pub(crate) fn set_left(nodes: &mut Arena<Node>, x: u64) -> Option<(Option<Owner>, Sides)>
    ensures former { result ≡ option_map owned_in (get nodes.old x) }
    ensures nodes { (q : ℕ) → get nodes.new q ≡ cond (nat_eq x q) (option_map (with_row left_row) (get nodes.old q)) (get nodes.old q) }
    ensures len { map.len nodes.new.pairs ≡ map.len nodes.old.pairs }
    ensures spare { nodes.new.spare ≡ nodes.old.spare }
{
    match nodes.get_mut(x) {
        None => None,
        Some(node) => {
            let owner = node.row.owner;
            node.row.mark = Mark::Dying(owner.unwrap_or(Owner::Root));
            node.row.owner = None;
            Some((owner, node.kin))
        }
    }
}

/// What of a row is written anew where it stands.
#[derive(Drop)]
pub(crate) enum Edit {
    Name(Name),
    Mark(Mark),
    Hook(u32),
    Size(u64),
    Limit(u64),
}

/// Writes this of a row anew.
fn rewrite(row: &mut Row, edit: Edit)
    ensures { row.new ≡ edited edit row.old }
{
    match edit {
        Edit::Name(name) => row.name = name,
        Edit::Mark(mark) => row.mark = mark,
        Edit::Hook(hook) => row.hook = hook,
        Edit::Size(size) => row.size = size,
        Edit::Limit(limit) => row.limit = limit,
    }
}

/// Writes the row of an object anew, if there is one.
pub(crate) fn write(nodes: &mut Arena<Node>, x: u64, what: Edit)
    ensures nodes { (q : ℕ) → get nodes.new q ≡ cond (nat_eq x q) (option_map (with_row (edited what)) (get nodes.old q)) (get nodes.old q) }
    ensures len { map.len nodes.new.pairs ≡ map.len nodes.old.pairs }
    ensures spare { nodes.new.spare ≡ nodes.old.spare }
{
    if let Some(node) = nodes.get_mut(x) {
        rewrite(&mut node.row, what);
    }
}

/// Takes a node out.
pub(crate) fn forget(nodes: &mut Arena<Node>, x: u64)
    ensures pairs { nodes.new.pairs ≡ map.remove nodes.old.pairs x }
    ensures spare { nodes.old.spare ≤ nodes.new.spare }
{
    let _node = nodes.take(x);
}
