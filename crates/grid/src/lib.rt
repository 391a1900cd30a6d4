// Document 01's grid: which coordinates are on it, the refusals of an outline's coordinates, and points read from a lent slice of them.
#![tactic(auto)]

pub mod area;
pub mod outline;
pub mod point;
pub mod point_in_triangle;
pub mod points;
pub mod vector;

ghost use Rattle.std.specs.Prelude.{◌≡◌, true, false, ◌+◌, ◌*◌, ◌<◌, length, IfOk};
ghost use Rattle.rules.specs.Grid.{on_grid, points_of};
ghost use Rattle.rules.specs.Plane as Rules;
ghost use Rattle.rules.specs.Refusals.{off_grid, first_refusal, outline_checks};
ghost use Rattle.entries.specs.Refusals.{refused};
ghost use Rattle.grid.specs.Listed.{listed};
ghost use Rattle.grid.specs.Points.{pt_of};

use entries::Refusal;
use outline::check_count;
use point::Point;
use points::Points;

// Whether x is a whole number from -1024 to 1024. Adding and taking away 1.5 * 2^23 rounds x to a whole number.
pub fn on_grid(x: f32) -> bool
    ensures { result ≡ on_grid x }
{
    x > -1025.0 && (x < 1025.0 && x + 12582912.0 - 12582912.0 == x)
}

// Whether a coordinate is off the grid. All are looked at, with no early end, so that several can be looked at at once.
pub fn off_grid(coords: &[f32]) -> bool
    ensures { result ≡ off_grid coords.now }
{
    let mut off = false;
    for c in coords {
        off |= !on_grid(*c);
    }
    off
}

impl<'a> Points<'a> {
    // The points of an outline of `least` to `most`, if it is not refused with 1 to 4.
    pub fn new(least: usize, most: usize, coords: &'a [f32]) -> Result<Points<'a>, Refusal>
        ensures number { refused result ≡ first_refusal (outline_checks least most coords.now) }
        ensures same { IfOk result (λ points. points.coords.now ≡ coords.now) }
    {
        check_count(least, most, coords.len())?;
        if off_grid(coords) {
            return Err(Refusal::OffGrid);
        }
        Ok(Points { coords })
    }

    pub fn count(&self) -> usize
        ensures { result ≡ length (listed self.now) }
    {
        self.coords.len() / 2
    }

    // Point number i.
    pub fn at(&self, i: usize) -> Point
        requires { i < length (listed self.now) }
        ensures { pt_of result ≡ Rules.point (listed self.now) i }
    {
        point_at(self.coords, i)
    }
}

// Point number i of coordinates that are all on the grid.
fn point_at(coords: &[f32], i: usize) -> Point
    requires on_grid { off_grid coords.now ≡ false }
    requires in_bounds { i * 2 + 1 < length coords.now }
    ensures { pt_of result ≡ Rules.point (points_of coords.now) i }
{
    let k = i * 2;
    Point {
        x: coords[k],
        y: coords[k + 1],
    }
}
