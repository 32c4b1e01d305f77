//! The nodes of which the trees of keys are made.
ghost use Rattle.std.specs.Prelude.{◌≡◌, IsTrue};
ghost use Rattle.pool_arena.specs.Nodes.{fresh, filled, IsLeaf, next as next_by, leading};

/// A link that leads nowhere: no node has this index.
pub const NOWHERE: u32 = u32::MAX;

/// A key with its slot, and where the keys go on that aren't this one.
#[derive(Clone, Copy)]
pub struct Node {
    pub(crate) key: u64,
    /// None where the key was taken: the node then leads on to others, and waits for the next key that comes by.
    pub(crate) slot: Option<usize>,
    /// A link for the keys whose next bit is 0.
    pub(crate) even: u32,
    /// A link for the keys whose next bit is 1.
    pub(crate) odd: u32,
}

impl Node {
    /// A node that leads to no others.
    #[inline]
    pub(crate) fn new(key: u64, slot: usize) -> Node
        ensures { result ≡ fresh key slot }
    {
        Node {
            key,
            slot: Some(slot),
            even: NOWHERE,
            odd: NOWHERE,
        }
    }

    /// Whether it leads to no others.
    #[inline]
    pub(crate) fn is_leaf(&self) -> bool
        ensures { IsTrue result → IsLeaf self.now }
    {
        self.even == NOWHERE && self.odd == NOWHERE
    }

    /// The link that a key follows whose next bits are these.
    #[inline]
    pub(crate) fn next(&self, rest: u64) -> u32
        ensures { result ≡ next_by rest self.now }
    {
        if rest % 2 == 0 { self.even } else { self.odd }
    }

    /// Sets the link that a key follows whose next bits are these.
    pub(crate) fn lead(&mut self, rest: u64, link: u32)
        ensures { self.new ≡ leading rest link self.old }
    {
        if rest % 2 == 0 {
            self.even = link;
        } else {
            self.odd = link;
        }
    }

    /// Keeps this key from now on, and leads where it led before.
    #[inline]
    pub(crate) fn fill(&mut self, key: u64, slot: usize)
        ensures { self.new ≡ filled key slot self.old }
    {
        self.key = key;
        self.slot = Some(slot);
    }
}
