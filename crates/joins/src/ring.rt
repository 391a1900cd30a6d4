// Piece A as a ring of places. A place once made keeps its number and its corner.
ghost use Rattle.std.specs.Prelude.{◌≡◌, ◌+◌, ◌<◌, ◌≤◌, length, set, get_or};
ghost use Rattle.algebra.specs.Lists.{Each};
ghost use Rattle.rules.specs.Layout.{over};
ghost use Rattle.rules.specs.Merge.{may_join};
ghost use Rattle.rules.specs.MergeQueue.{joint_at_start, joint_at_end};
ghost use Rattle.rules.specs.Plane.{turns_right};
ghost use Rattle.grid.specs.Listed.{listed};
ghost use Rattle.joins.specs.Ring.{Sizes, Begun, Readable, places, corners};

use grid::point_in_triangle::{Orientation, corner_direction};
use grid::points::Points;

// Whether three corners turn right.
#[tactic(auto, using(crate::proofs::Turns::turned))]
fn turns_right(points: &Points, a: usize, b: usize, c: usize) -> bool
    requires { (a < length (listed points.now)) × (b < length (listed points.now)) × (c < length (listed points.now)) }
    ensures { result ≡ turns_right (listed points.now) a b c }
{
    corner_direction(points.at(a), points.at(b), points.at(c)) == Orientation::Cw
}

// The corner at each place, the next place and the one before; the place of corner 0, and how many places there are.
#[derive(Drop)]
pub struct Ring {
    pub corners: [u16; 512],
    pub next: [u16; 512],
    pub before: [u16; 512],
    pub start: usize,
    pub len: usize,
}

impl Ring {
    pub fn new() -> Ring
        ensures { Sizes result }
    {
        Ring {
            corners: [0; 512],
            next: [0; 512],
            before: [0; 512],
            start: 0,
            len: 0,
        }
    }

    // A triangle, at the places 0, 1 and 2. What stood in the arrays may stay.
    #[tactic(auto, using(algebra::proofs::Lists::each_at))]
    pub fn begin(&mut self, triangle: [usize; 3])
        requires { Each (λ v. v < 512) triangle }
        ensures { Begun triangle self.new }
    {
        let [first, second, third] = triangle;
        self.corners[..3].copy_from_slice(&[first as u16, second as u16, third as u16]);
        self.next[..3].copy_from_slice(&[1, 2, 0]);
        self.before[..3].copy_from_slice(&[2, 0, 1]);
        self.start = 0;
        self.len = 3;
    }

    pub fn corner(&self, place: usize) -> usize
        requires { place < 512 }
        ensures { result ≡ get_or self.now.corners place 0 }
    {
        usize::from(self.corners[place])
    }

    pub fn next(&self, place: usize) -> usize
        requires { place < 512 }
        ensures { result ≡ get_or self.now.next place 0 }
    {
        usize::from(self.next[place])
    }

    // Whether the piece may be joined along its edge from place s to place e, where corner t comes between them.
    #[tactic(auto, unfolding(rules::specs::Merge::may_join))]
    pub fn may_join(&self, points: &Points, s: usize, e: usize, t: usize) -> bool
        requires readable { Readable (length (listed points.now)) self.now s e }
        requires corner { t < length (listed points.now) }
        ensures { result ≡ may_join (listed points.now) (joint_at_start self.now.corners self.now.before s t) (joint_at_end self.now.corners self.now.next e t) }
    {
        let before = self.corner(usize::from(self.before[s]));
        let after = self.corner(self.next(e));
        !turns_right(points, before, self.corner(s), t)
            && !turns_right(points, t, self.corner(e), after)
    }

    // Puts corner t between the places s and e, at another place.
    pub fn put_between(&mut self, s: usize, e: usize, place: usize, t: usize)
        requires { (s < 512) × (e < 512) × (place < 512) × (t < 512) }
        ensures corners { self.new.corners ≡ set self.old.corners place t }
        ensures next { self.new.next ≡ set (set self.old.next s place) place e }
        ensures before { self.new.before ≡ set (set self.old.before place s) e place }
        ensures start { self.new.start ≡ self.old.start }
        ensures len { self.new.len ≡ self.old.len }
    {
        self.corners[place] = t as u16;
        self.next[s] = place as u16;
        self.next[place] = e as u16;
        self.before[place] = s as u16;
        self.before[e] = place as u16;
    }

    // Puts corner t between the places s and e, at a new place. Corner 0 is then at e.
    pub fn join(&mut self, s: usize, e: usize, t: usize) -> usize
        requires { (s < 512) × (e < 512) × (t < 512) × (self.old.len < 512) }
        ensures sizes { Sizes self.old }
        ensures place { result ≡ self.old.len }
        ensures corners { self.new.corners ≡ set self.old.corners self.old.len t }
        ensures next { self.new.next ≡ set (set self.old.next s self.old.len) self.old.len e }
        ensures before { self.new.before ≡ set (set self.old.before self.old.len s) e self.old.len }
        ensures start { self.new.start ≡ e }
        ensures len { self.new.len ≡ self.old.len + 1 }
    {
        let place = self.len;
        self.put_between(s, e, place, t);
        self.start = e;
        self.len += 1;
        place
    }

    // Writes the corners to the front of `out`.
    #[tactic(auto, using(crate::proofs::Writing::writing_more))]
    pub fn write(&self, out: &mut [u32])
        requires places { Each (λ i. i < 512) (places self.now) }
        requires room { self.now.len ≤ length out.old }
        ensures { out.new ≡ over (corners self.now) out.old }
    {
        let mut place = self.start;
        for i in 0..self.len {
            out[i] = u32::from(self.corners[place]);
            place = self.next(place);
        }
    }
}
