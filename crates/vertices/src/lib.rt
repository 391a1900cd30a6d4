// The vertices of an outline that is cut: neighbours, which are active, the lengths of the edges, and the ears with the next one to cut. After
// the crate's `VertexInfo`.
#![tactic(auto)]

ghost use Rattle.std.specs.Prelude.{◌≡◌, true, ◌+◌, ◌<◌, ◌≤◌, length, cond, ltb, Option, None};
ghost use Rattle.algebra.specs.Lists.{count_from};
ghost use Rattle.rules.specs.Limits.{most_points};
ghost use Rattle.grid.specs.Listed.{listed};
ghost use Rattle.winners.specs.Keys.{Nobody, root_of};
ghost use Rattle.vertices.specs.Ears.{ear_of};
ghost use Rattle.vertices.specs.Vertices.{points_in, count_in, Room, prev_of, next_of, active_of, corner_at, edge_of, first_vertex, before_first, after_first, Begun, AtCorner, TakenOut, with_reciprocal, Clipped, Stands, lowest_from, ring_in};

use blocking::outline::Outline;
use grid::point_in_triangle::corner_direction;
use grid::points::Points;
use winners::Winners;

// The corners before and after it, whether it is still in the ring, and 1 over the length of the edge to the corner after it.
#[derive(Clone, Copy)]
pub struct Vertex {
    pub prev: u16,
    pub next: u16,
    pub active: bool,
    pub reciprocal: f32,
}

#[derive(Drop)]
pub struct Vertices<'a> {
    pub outline: &'a Outline<'a>,
    pub ring: [Vertex; 512],
    pub winners: Winners,
}

// The corner before i in a ring of n.
fn before(i: usize, n: usize) -> usize
    requires { i < n }
    ensures { result ≡ before_first n i }
{
    if i == 0 { n - 1 } else { i - 1 }
}

// And the one after it.
fn after(i: usize, n: usize) -> usize
    requires { i < n }
    ensures { result ≡ after_first n i }
{
    if i + 1 == n { 0 } else { i + 1 }
}

// Corner i of the whole ring.
fn first_vertex(points: &Points, i: usize) -> Vertex
    requires in_bounds { i < length (listed points.now) }
    requires at_most { length (listed points.now) ≤ most_points }
    ensures { result ≡ first_vertex (listed points.now) i }
{
    let n = points.count();
    let next = after(i, n);
    Vertex {
        prev: before(i, n) as u16,
        next: next as u16,
        active: true,
        reciprocal: root::reciprocal(points.at(next), points.at(i)),
    }
}

// Begins the whole ring.
fn link(points: &Points, ring: &mut [Vertex; 512])
    requires at_most { length (listed points.now) ≤ most_points }
    requires long { length ring.old ≡ 512 }
    ensures { Begun (listed points.now) (length (listed points.now)) ring.new }
{
    for i in 0..points.count() {
        ring[i] = first_vertex(points, i);
    }
}

// The ear at corner i between two others, by the reciprocals of the lengths to both: its pointiness, where it is convex and no point of the whole
// outline blocks it.
pub fn update_vertex(
    outline: &Outline,
    prev: usize,
    i: usize,
    next: usize,
    before: f32,
    after: f32,
) -> Option<f32>
    requires corners { (prev < length (listed outline.now.points.now)) × (i < length (listed outline.now.points.now)) × (next < length (listed outline.now.points.now)) }
    requires before { before ≡ edge_of (listed outline.now.points.now) i prev }
    requires after { after ≡ edge_of (listed outline.now.points.now) i next }
    ensures { result ≡ ear_of (listed outline.now.points.now) (record { before = prev; at = i; after = next }) }
{
    let p1 = outline.points.at(prev);
    let p = outline.points.at(i);
    let p3 = outline.points.at(next);
    if !corner_direction(p1, p, p3).is_ccw() {
        return None;
    }
    if outline.blocked(p1, p, p3) {
        return None;
    }
    Some(root::pointiness(p1, p, p3, before, after))
}

// The lowest active number among the first n, or n.
pub fn lowest(ring: &[Vertex; 512], n: usize) -> usize
    requires { n ≤ 512 }
    ensures { result ≡ lowest_from (active_of ring.now) 0 n }
{
    for i in 0..n {
        if ring[i].active {
            return i;
        }
    }
    n
}

impl<'a> Vertices<'a> {
    // Room for the vertices of an outline, with nobody's ear anywhere.
    pub fn new(outline: &'a Outline<'a>) -> Vertices<'a>
        ensures outline { result.outline.now ≡ outline.now }
        ensures room { Room result }
        ensures nobody { Nobody result.winners }
    {
        Vertices {
            outline,
            ring: [Vertex {
                prev: 0,
                next: 0,
                active: false,
                reciprocal: 0.0,
            }; 512],
            winners: Winners::new(outline.points.count()),
        }
    }

    // The ear of leaf i in the beginning: that at corner i, and none where there is no such corner.
    fn first_ear(&self, i: usize) -> Option<f32>
        requires { i < count_in self.now → AtCorner (points_in self.now) self.now.ring i }
        ensures { result ≡ cond (ltb i (count_in self.now)) (ear_of (points_in self.now) (corner_at self.now.ring i)) None }
    {
        if i < self.outline.points.count() {
            self.ear_at(i)
        } else {
            None
        }
    }

    // Begins with the whole ring, and its ears.
    pub fn start(&mut self)
        requires three { 3 ≤ count_in self.old }
        requires room { Room self.old }
        ensures stands { Stands self.new }
        ensures outline { self.new.outline.now ≡ self.old.outline.now }
        ensures leaves { self.new.winners.leaves ≡ self.old.winners.leaves }
        ensures ring { ring_in (count_in self.old) self.new.ring ≡ count_from 0 (count_in self.old) }
    {
        link(self.outline.points, &mut self.ring);
        for i in 0..self.winners.leaves {
            let ear = self.first_ear(i);
            self.winners.put_leaf(i, ear);
        }
        self.winners.build();
    }

    // Keeps the length of the edge from corner i to corner j.
    fn measure(&mut self, i: usize, j: usize)
        requires from { i < count_in self.old }
        requires to { j < count_in self.old }
        ensures { self.new ≡ record self.old { ring = with_reciprocal self.old.ring i (edge_of (points_in self.old) i j) } }
    {
        let points = self.outline.points;
        self.ring[i].reciprocal = root::reciprocal(points.at(j), points.at(i));
    }

    // Takes corner i out of the ring.
    fn unlink(&mut self, i: usize)
        requires in_bounds { i < 512 }
        requires long { length self.old.ring ≡ 512 }
        requires neighbours { (prev_of self.old.ring i < 512) × (next_of self.old.ring i < 512) }
        ensures taken_out { TakenOut self.old.ring i self.new.ring }
        ensures outline { self.new.outline.now ≡ self.old.outline.now }
        ensures winners { self.new.winners ≡ self.old.winners }
    {
        let Vertex { prev, next, .. } = self.ring[i];
        self.ring[usize::from(prev)].next = next;
        self.ring[usize::from(next)].prev = prev;
        self.ring[i].active = false;
    }

    // The ear at corner i.
    fn ear_at(&self, i: usize) -> Option<f32>
        requires { AtCorner (points_in self.now) self.now.ring i }
        ensures { result ≡ ear_of (points_in self.now) (corner_at self.now.ring i) }
    {
        let Vertex {
            prev,
            next,
            reciprocal,
            ..
        } = self.ring[i];
        let prev = usize::from(prev);
        let next = usize::from(next);
        let before = self.ring[prev].reciprocal;
        update_vertex(self.outline, prev, i, next, before, reciprocal)
    }

    // Cuts corner i, and works out the ears of its neighbours again.
    pub fn clip(&mut self, i: usize)
        requires active { (i < count_in self.old) × (active_of self.old.ring i ≡ true) }
        requires two { 2 ≤ length (ring_in (count_in self.old) self.old.ring) }
        requires stands { Stands self.old }
        ensures { Clipped self.old i self.new }
    {
        let before = usize::from(self.ring[i].prev);
        let after = usize::from(self.ring[i].next);
        self.unlink(i);
        self.measure(before, after);
        let ear_before = self.ear_at(before);
        let ear_after = self.ear_at(after);
        self.winners.set_ear(before, ear_before);
        self.winners.set_ear(after, ear_after);
        self.winners.set_ear(i, None);
    }

    // The corner of the ear to be cut next.
    pub fn pointiest(&self) -> Option<usize>
        ensures { result ≡ root_of self.now.winners }
    {
        self.winners.pointiest()
    }

    // The lowest corner that is still in the ring, or the number of all.
    pub fn lowest(&self) -> usize
        ensures { result ≡ lowest_from (active_of self.now.ring) 0 (count_in self.now) }
    {
        lowest(&self.ring, self.outline.points.count())
    }
}
