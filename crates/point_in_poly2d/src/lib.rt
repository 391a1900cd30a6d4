// The point tests: after the crate's src/utils/point_in_poly2d.rs.
#![tactic(auto)]

pub mod bytes;
mod corners;
mod edges;
mod floats;

ghost use Rattle.std.specs.Prelude.{◌≡◌, [], ◌∷◌, IfOk};
ghost use Rattle.rules.specs.Refusals.{◌gives◌, off_grid, first_refusal};
ghost use Rattle.rules.specs.Entries.{asking, point_in_poly2d, point_in_convex_poly2d};
ghost use Rattle.entries.specs.Refusals.{refused};
ghost use Rattle.grid.specs.Points.{pt_of};
ghost use Rattle.point_in_poly2d.specs.Positions.{position_of, Answered, test_of};

use corners::Corners;
use edges::{Crossing, Sides, Test};
use entries::{MOST_POINTS, Refusal};
use grid::point::Point;
use grid::points::Points;

// Where a point is.
#[derive(Clone, Copy, Debug, PartialEq, Eq)]
pub enum Position {
    Outside,
    Inside,
    // On some edge, ends counted; the convex test does not say so.
    Border,
}

// The asked point, if it is on the grid.
fn spot(x: f32, y: f32) -> Result<Point, Refusal>
    ensures number { refused result ≡ first_refusal (off_grid (x ∷ y ∷ []) gives 4 ∷ []) }
    ensures point { IfOk result (λ p. (p.x ≡ x) × (p.y ≡ y)) }
{
    if grid::on_grid(x) & grid::on_grid(y) {
        return Ok(Point { x, y });
    }
    Err(Refusal::OffGrid)
}

// One of the tests: where the spot is, by what all edges show of it. The edge from the last corner to the first is looked at first, so that
// every edge is a turn of the loop.
fn walk<T: Test, C: Corners>(spot: Point, corners: &C) -> Position
    ensures { position_of result ≡ T.rule (pt_of spot) (C.points corners.now) }
{
    let n = corners.count();
    if n == 0 {
        return Position::Outside;
    }
    let mut seen = T::nothing();
    let mut d = corners.at(n - 1).minus(spot);
    for i in 0..n {
        let e = corners.at(i).minus(spot);
        seen = seen.with(T::edge(d, e));
        d = e;
    }
    seen.told()
}

// Where the spot is by the convex test, or by the outline test.
fn told<C: Corners>(spot: Point, corners: &C, convex: bool) -> Position
    ensures { position_of result ≡ test_of convex (pt_of spot) (C.points corners.now) }
{
    if convex {
        walk::<Sides, C>(spot, corners)
    } else {
        walk::<Crossing, C>(spot, corners)
    }
}

// What either test answers of (x, y): the refusal, or what the test says.
pub fn ask(x: f32, y: f32, coords: &[f32], convex: bool) -> Result<Position, Refusal>
    ensures { Answered (asking (test_of convex) x y coords.now) result }
{
    let points = Points::new(0, MOST_POINTS, coords)?;
    let spot = spot(x, y)?;
    Ok(told(spot, &points, convex))
}

// Where (x, y) is: on the border of the outline with these coordinates, or else inside it where an odd number of edges is crossed, or outside.
pub fn point_in_poly2d(x: f32, y: f32, coords: &[f32]) -> Result<Position, Refusal>
    ensures { Answered (point_in_poly2d x y coords.now) result }
{
    ask(x, y, coords, false)
}

// Whether (x, y) is inside a convex outline with these coordinates, whichever way round it goes.
pub fn point_in_convex_poly2d(x: f32, y: f32, coords: &[f32]) -> Result<Position, Refusal>
    ensures { Answered (point_in_convex_poly2d x y coords.now) result }
{
    ask(x, y, coords, true)
}
