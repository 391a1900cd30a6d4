// The doubled signed area of an outline.
ghost use Rattle.std.specs.Prelude.{◌≡◌, true, false, ◌^◌, ◌<◌, ◌≤◌, nat_abs, length};
ghost use Rattle.rules.specs.Limits.{most_points};
ghost use Rattle.rules.specs.Grid.{points_of};
ghost use Rattle.rules.specs.Measure as Rules;
ghost use Rattle.rules.specs.Plane.{cross};
ghost use Rattle.rules.specs.Refusals.{off_grid};
ghost use Rattle.grid.specs.Listed.{listed};
ghost use Rattle.grid.specs.Points.{on_grid_pt, pt_of};

use crate::point::Point;
use crate::points::Points;

// What the edge from a to b adds: exact in f32, as a product of two coordinates is at most 2^20 in size. Adding zero leaves no -0, which
// is no whole number to a cast.
fn edge_area(a: Point, b: Point) -> i32
    ensures value { result ≡ cross (pt_of a) (pt_of b) }
    ensures bound { nat_abs result ≤ 2 ^ 21 }
{
    let product = a.vector().perp_dot(b.vector()) + 0.0;
    product as i32
}

impl Points<'_> {
    // The sum over all edges. Each adds at most 2^21 in size, and there are at most 512, so it is at most 2^30 in size: exact in an i32.
    pub fn area2(&self) -> i32
        requires some { 0 < length (listed self.now) }
        requires at_most { length (listed self.now) ≤ most_points }
        ensures { result ≡ Rules.area2 (listed self.now) }
    {
        let first = self.at(0);
        let mut a = first;
        let mut sum = 0i32;
        for i in 1..self.count() {
            let b = self.at(i);
            sum += edge_area(a, b);
            a = b;
        }
        sum + edge_area(a, first)
    }
}
