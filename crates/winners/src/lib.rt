// The ear that is cut next: a tree of maxima over the corners.
#![tactic(auto)]

ghost use Rattle.std.specs.Prelude.{◌≡◌, true, false, ◌+◌, ◌<◌, ◌≤◌, length};
ghost use Rattle.std.specs.Int.Bits.{bit_xor};
ghost use Rattle.std.specs.Float.Ieee.{is_nan};
ghost use Rattle.winners.specs.Keys.{Proper, Fair, ear_entry, node, with_node, BetterOf, WithSibling, Nobody, Leaves, Tree, LeafSame, LeafSet, Power, root_of};

// The key of a corner that is no ear: below the pointiness of any.
const NO_EAR: f32 = -16777216.0;

// A corner with the pointiness of its ear, or with the key of none.
#[derive(Clone, Copy)]
pub struct Entry {
    pub key: f32,
    pub corner: u16,
}

impl Entry {
    fn new(corner: usize, ear: Option<f32>) -> Entry
        requires { corner < 512 }
        ensures { result ≡ ear_entry corner ear }
    {
        Entry {
            key: ear.unwrap_or(NO_EAR),
            corner: corner as u16,
        }
    }

    // The better of two, of equals the later.
    fn better(self, later: Entry) -> Entry
        requires { Fair self.key × Fair later.key }
        ensures { BetterOf self later result }
    {
        if self.key <= later.key { later } else { self }
    }

    // Whether both are the same, bit for bit: -0 equals 0 and is not the same.
    fn same(self, other: Entry) -> bool
        requires { (is_nan self.key ≡ false) × (is_nan other.key ≡ false) }
        ensures { result ≡ true → self ≡ other }
    {
        self.corner == other.corner && self.key.to_bits() == other.key.to_bits()
    }
}

// Node k has the children 2 k and 2 k + 1, and corner i is the leaf `leaves` + i, where `leaves` is a power of two. A node holds the better of
// its children's ears, of equals the later, and its corner.
#[derive(Drop)]
pub struct Winners {
    pub nodes: [Entry; 1024],
    pub leaves: usize,
}

impl Winners {
    // Room for n corners, with nobody anywhere.
    pub fn new(n: usize) -> Winners
        requires { n ≤ 512 }
        ensures nobody { Nobody result }
        ensures long { length result.nodes ≡ 1024 }
        ensures enough { Power result.leaves × (n ≤ result.leaves) }
    {
        Winners {
            nodes: [Entry {
                key: NO_EAR,
                corner: 0,
            }; 1024],
            leaves: n.next_power_of_two(),
        }
    }

    // Writes the ear of corner i at its leaf, where the nodes above are not there yet.
    pub fn put_leaf(&mut self, i: usize, ear: Option<f32>)
        requires { (i < self.old.leaves) × (self.old.leaves ≤ 512) }
        ensures { self.new ≡ with_node self.old (self.old.leaves + i) (ear_entry i ear) }
    {
        self.nodes[self.leaves + i] = Entry::new(i, ear);
    }

    // Puts the nodes right from the leaves up.
    pub fn build(&mut self)
        requires { Leaves self.old }
        ensures tree { Tree self.new }
        ensures leaf_same { LeafSame self.old self.new }
    {
        for k in (1..self.leaves).rev() {
            self.nodes[k] = self.nodes[2 * k].better(self.nodes[2 * k + 1]);
        }
    }

    // The better of node k, which holds `own`, and the node beside it, its parent's other child.
    fn with_sibling(&self, k: usize, own: Entry) -> Entry
        requires in_bounds { (2 ≤ k) × (k < 1024) }
        requires fair { Fair own.key × Fair (node self.now (bit_xor k 1)).key }
        ensures { WithSibling self.now k own result }
    {
        let sibling = self.nodes[k ^ 1];
        if k % 2 == 0 {
            own.better(sibling)
        } else {
            sibling.better(own)
        }
    }

    // Sets the ear of corner i, and puts the way up to the root right, as far as something changes.
    pub fn set_ear(&mut self, i: usize, ear: Option<f32>)
        requires tree { Tree self.old }
        requires leaf { i < self.old.leaves }
        requires proper { Proper ear }
        ensures tree_after { Tree self.new }
        ensures leaf_set { LeafSet self.old i ear self.new }
    {
        let mut k = self.leaves + i;
        let mut best = Entry::new(i, ear);
        self.nodes[k] = best;
        while 1 < k {
            best = self.with_sibling(k, best);
            k /= 2;
            if best.same(self.nodes[k]) {
                return;
            }
            self.nodes[k] = best;
        }
    }

    // The corner of the ear of greatest pointiness, of equals the highest.
    pub fn pointiest(&self) -> Option<usize>
        ensures { result ≡ root_of self.now }
    {
        let root = self.nodes[1];
        if root.key == NO_EAR {
            None
        } else {
            Some(usize::from(root.corner))
        }
    }
}
