// How far points are in the direction of a facet's normal, and which of them see the facet.
#![tactic(auto)]

pub mod chosen;
pub mod facet;
pub mod row;

ghost use Rattle.std.specs.Prelude.{◌≡◌, true, false, ◌<◌, length, MatchOption};
ghost use Rattle.algebra.specs.Lists.{count_from};
ghost use Rattle.rules.specs.Hull.{support, rightward, leftward};
ghost use Rattle.rules.specs.Hull as Rules;
ghost use Rattle.rules.specs.Refusals.{on_one_line};
ghost use Rattle.grid.specs.Listed.{listed};
ghost use Rattle.grid.specs.Points.{pt_of};
ghost use Rattle.seeing.specs.Seeing.{farthest_of};

use chosen::Chosen;
use facet::Facet;
use grid::point::Point;
use grid::points::Points;

impl Chosen<'_> {
    // The farthest in the direction of the facet's normal, of equals the first.
    pub fn farthest(&self, facet: Facet) -> usize
        requires { 0 < length self.now.list.now }
        ensures { result ≡ farthest_of (listed self.now.points) (Rules.normal (pt_of facet.from) (pt_of facet.to)) self.now.list.now }
    {
        let n = facet.normal();
        let mut best = usize::from(self.list[0]);
        let mut most = n.dot(self.points.at(best).vector());
        for i in 1..self.list.len() {
            let j = usize::from(self.list[i]);
            let far = n.dot(self.points.at(j).vector());
            if most < far {
                best = j;
                most = far;
            }
        }
        best
    }
}

// Whether all points are on one line, by the line through a rightmost and a leftmost one.
pub fn on_one_line(points: &Points, right: usize, left: usize) -> bool
    requires some { 0 < length (listed points.now) }
    requires ends { (right ≡ support (listed points.now) rightward) × (left ≡ support (listed points.now) leftward) }
    ensures { result ≡ on_one_line (listed points.now) }
{
    let facet = Facet {
        from: points.at(right),
        to: points.at(left),
    };
    let n = facet.normal();
    let limit = n.dot(facet.from.vector());
    for i in 0..points.count() {
        if n.dot(points.at(i).vector()) != limit {
            return false;
        }
    }
    true
}

// Of all points that are numbered the farthest in the direction of the facet's normal, of equals the first.
fn farthest_of_all(points: &Points, all: &[u16], facet: Facet) -> usize
    requires some { 0 < length (listed points.now) }
    requires all { all.now ≡ count_from 0 (length (listed points.now)) }
    ensures { result ≡ support (listed points.now) (Rules.normal (pt_of facet.from) (pt_of facet.to)) }
{
    let chosen = Chosen {
        points: *points,
        list: all,
    };
    chosen.farthest(facet)
}

// The first rightmost point.
pub fn rightmost(points: &Points, all: &[u16]) -> usize
    requires some { 0 < length (listed points.now) }
    requires all { all.now ≡ count_from 0 (length (listed points.now)) }
    ensures { result ≡ support (listed points.now) rightward }
{
    let facet = Facet {
        from: Point { x: 0.0, y: 0.0 },
        to: Point { x: 0.0, y: 1.0 },
    };
    farthest_of_all(points, all, facet)
}

// The first leftmost point.
pub fn leftmost(points: &Points, all: &[u16]) -> usize
    requires some { 0 < length (listed points.now) }
    requires all { all.now ≡ count_from 0 (length (listed points.now)) }
    ensures { result ≡ support (listed points.now) leftward }
{
    let facet = Facet {
        from: Point { x: 0.0, y: 1.0 },
        to: Point { x: 0.0, y: 0.0 },
    };
    farthest_of_all(points, all, facet)
}

// Both, if not all points are on one line.
pub fn ends(points: &Points, all: &[u16]) -> Option<(usize, usize)>
    requires some { 0 < length (listed points.now) }
    requires all { all.now ≡ count_from 0 (length (listed points.now)) }
    ensures { MatchOption result (on_one_line (listed points.now) ≡ true) (λ ends. (on_one_line (listed points.now) ≡ false) × (ends.0 ≡ support (listed points.now) rightward) × (ends.1 ≡ support (listed points.now) leftward)) }
{
    let right = rightmost(points, all);
    let left = leftmost(points, all);
    if on_one_line(points, right, left) {
        return None;
    }
    Some((right, left))
}
