// Places that are looked at in turn, in a buffer that is written round and round.
ghost use Rattle.std.specs.Prelude.{◌≡◌, ℕ, ◌<◌, ◌≤◌, List, [], ◌∷◌, ◌++◌, length};
ghost use Rattle.rules.specs.MergeQueue.{window};

use std::marker::Model;

#[derive(Drop)]
pub struct Queue {
    places: [u16; 1024],
    head: usize,
    len: usize,
}

// Clauses see the places, the one to come first in front.
impl Model for Queue {
    ghost Value = { List ℕ };

    ghost view = { λ q. window q.places q.head q.len };

    ghost invariant = { λ q. (q.head < 1024) × (q.len ≤ 1024) };
}

#[tactic(auto, using(crate::proofs::Round::queue_length, crate::proofs::Round::window_first, crate::proofs::Round::window_more))]
impl Queue {
    pub fn new() -> Queue
        ensures { result ≡ [] }
    {
        Queue {
            places: [0; 1024],
            head: 0,
            len: 0,
        }
    }

    pub fn len(&self) -> usize
        ensures { result ≡ length self.now }
    {
        self.len
    }

    // The places of a triangle.
    pub fn begin(&mut self)
        ensures { self.new ≡ 0 ∷ 1 ∷ 2 ∷ [] }
    {
        self.places[..3].copy_from_slice(&[0, 1, 2]);
        self.head = 0;
        self.len = 3;
    }

    pub fn push(&mut self, place: usize)
        requires room { length self.old < 1024 }
        requires place { place < 512 }
        ensures { self.new ≡ self.old ++ place ∷ [] }
    {
        self.places[(self.head + self.len) % 1024] = place as u16;
        self.len += 1;
    }

    pub fn pop(&mut self) -> usize
        requires { 0 < length self.old }
        ensures { self.old ≡ result ∷ self.new }
    {
        let place = usize::from(self.places[self.head]);
        self.head = (self.head + 1) % 1024;
        self.len -= 1;
        place
    }
}
