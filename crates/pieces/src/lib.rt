// The later pieces of a merge. Each still is a given triangle; and the search for the one that holds an edge.
#![tactic(auto)]

pub mod store;

ghost use Rattle.std.specs.Prelude.{◌≡◌, ℕ, ◌*◌, ◌/◌, ◌%◌, ◌≤◌, ◌<◌, List, [], length};
ghost use Rattle.algebra.specs.Lists.{Each};
ghost use Rattle.rules.specs.Layout.{triples};
ghost use Rattle.rules.specs.Limits.{most_indices};
ghost use Rattle.pieces.specs.Pieces.{later, swap_removed, Lie, Taken, Mated};

use std::marker::Model;
use store::{Store, edge, start};

// A later piece that holds an edge: its place in the list, and its corner that is not on the edge.
#[derive(Clone, Copy, Debug, PartialEq, Eq)]
pub struct Mate {
    pub place: usize,
    pub third: usize,
}

// Those from number `from` on, where there are `count`.
#[derive(Drop)]
pub struct Pieces {
    store: Store,
    from: usize,
    count: usize,
}

// Clauses see the list of the later pieces, each as its three corners.
impl Model for Pieces {
    ghost Value = { List (List ℕ) };

    ghost view = { λ p. later p.store.edges p.from p.count };

    ghost invariant = { λ p. Lie p.store.edges p.store.eights p.from p.count × (p.from ≤ p.count) };
}

impl Pieces {
    #[tactic(auto, unfolding(crate::specs::Pieces::pieces_from))]
    pub fn new() -> Pieces
        ensures { result ≡ [] }
    {
        Pieces {
            store: Store::new(),
            from: 0,
            count: 0,
        }
    }

    // Reads the given triangles, three indices each. What stood in the store may stay.
    #[tactic(auto, using(algebra::proofs::Lists::each_at, crate::proofs::Reading::read_more, crate::proofs::Reading::read_all))]
    pub fn read(&mut self, triangles: &[u32])
        requires below { Each (λ i. i < 512) triangles.now }
        requires whole { length triangles.now % 3 ≡ 0 }
        requires few { length triangles.now ≤ most_indices }
        ensures { self.new ≡ triples triangles.now }
    {
        let count = triangles.len() / 3;
        for k in 0..count {
            let p = triangles[3 * k] as usize;
            let q = triangles[3 * k + 1] as usize;
            let r = triangles[3 * k + 2] as usize;
            self.store.put(k, edge(p, q), edge(q, r), edge(r, p));
        }
        self.from = 0;
        self.count = count;
    }

    // Takes the first piece out: its corners.
    #[tactic(auto, using(crate::proofs::Later::later_first, crate::proofs::Later::later_none))]
    pub fn take_first(&mut self) -> Option<[usize; 3]>
        ensures { Taken self.old result self.new }
    {
        if self.from == self.count {
            return None;
        }
        let corners = self.store.corners(self.from);
        self.from += 1;
        Some(corners)
    }

    // Takes out the piece at a place: the last moves there.
    #[tactic(auto, using(crate::proofs::Later::later_length, crate::proofs::Later::lie_moved, crate::proofs::Later::moved_is, crate::proofs::Later::low))]
    pub fn swap_remove(&mut self, place: usize)
        requires { place < length self.old }
        ensures { self.new ≡ swap_removed place self.old }
    {
        self.count -= 1;
        self.store.copy(self.count, self.from + place);
    }

    // The first piece that holds the edge e to s. Only the eights that hold both points are looked at.
    pub fn find_mate(&self, e: usize, s: usize) -> Option<Mate>
        requires { (e < 512) × (s < 512) }
        ensures { Mated self.now e s result }
    {
        let want = edge(e, s);
        let mut g = self.from / 8;
        let mut word = (self.store.eights[e] & self.store.eights[s]) >> g;
        while word != 0 {
            let skip = word.trailing_zeros() as usize;
            g += skip;
            word >>= skip;
            if let Some(found) = self.store.find(want, g, self.from, self.count) {
                return Some(Mate {
                    place: found.piece - self.from,
                    third: self.store.third_corner(found),
                });
            }
            word /= 2;
            g += 1;
        }
        None
    }
}
