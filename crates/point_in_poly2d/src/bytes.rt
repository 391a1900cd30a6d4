// The point tests of coordinates that stand as bytes, four each, low byte first: they are read where they stand.
ghost use Rattle.std.specs.Prelude.{◌≡◌, true, false, ◌+◌, ◌*◌, ◌<◌, length, IfOk};
ghost use Rattle.std.specs.Float.{binary32};
ghost use Rattle.std.specs.Float.Ieee.{of_bits};
ghost use Rattle.rules.specs.Limits.{most_points};
ghost use Rattle.rules.specs.Grid.{on_grid, points_of};
ghost use Rattle.rules.specs.Plane.{point};
ghost use Rattle.rules.specs.Refusals.{off_grid, first_refusal, outline_checks};
ghost use Rattle.rules.specs.Entries.{asking};
ghost use Rattle.entries.specs.Refusals.{refused};
ghost use Rattle.grid.specs.Points.{pt_of};
ghost use Rattle.words.specs.Bytes.{floats_of};
ghost use Rattle.point_in_poly2d.specs.Positions.{Answered, test_of};

use crate::corners::Corners;
use crate::floats::Floats;
use crate::{Position, spot, told};
use entries::{MOST_POINTS, Refusal};
use grid::outline::check_count;
use grid::point::Point;
use words::word;

// Whether the float with these bits is on the grid; no NaN is. It ends where a test fails, which takes less time than the test of `words::float`.
fn bits_on_grid(bits: u32) -> bool
    ensures { result ≡ on_grid (of_bits binary32 bits) }
{
    if 2139095040 < bits % 2147483648 {
        return false;
    }
    grid::on_grid(f32::from_bits(bits))
}

// Whether a coordinate is off the grid. All are looked at, with no early end, so that several can be looked at at once.
fn off_grid(bytes: &[u8]) -> bool
    ensures { result ≡ off_grid (floats_of bytes.now) }
{
    let mut off = false;
    for i in 0..bytes.len() / 4 {
        off |= !bits_on_grid(word(bytes, i));
    }
    off
}

// The float with these bits, which is on the grid: no look for a NaN is needed.
fn coordinate(bits: u32) -> f32
    requires { on_grid (of_bits binary32 bits) ≡ true }
    ensures { result ≡ of_bits binary32 bits }
{
    f32::from_bits(bits)
}

// Point number i of coordinates that are x and y in turn, all on the grid.
fn point_at(bytes: &[u8], i: usize) -> Point
    requires on_grid { off_grid (floats_of bytes.now) ≡ false }
    requires within { i * 8 + 7 < length bytes.now }
    ensures { pt_of result ≡ point (points_of (floats_of bytes.now)) i }
{
    let k = i * 2;
    Point {
        x: coordinate(word(bytes, k)),
        y: coordinate(word(bytes, k + 1)),
    }
}

impl<'a> Floats<'a> {
    // The coordinates of an outline, if it is not refused with 1 to 4.
    fn new(bytes: &'a [u8]) -> Result<Floats<'a>, Refusal>
        ensures number { refused result ≡ first_refusal (outline_checks 0 most_points (floats_of bytes.now)) }
        ensures same { IfOk result (λ floats. floats.bytes.now ≡ bytes.now) }
    {
        check_count(0, MOST_POINTS, bytes.len() / 4)?;
        if off_grid(bytes) {
            return Err(Refusal::OffGrid);
        }
        Ok(Floats { bytes })
    }
}

impl Corners for Floats<'_> {
    ghost points = { λ floats. points_of (floats_of floats.bytes.now) };

    fn count(&self) -> usize {
        self.bytes.len() / 8
    }

    fn at(&self, i: usize) -> Point {
        point_at(self.bytes, i)
    }
}

// What either test answers of (x, y): the refusal, or what the test says.
pub fn ask(x: f32, y: f32, bytes: &[u8], convex: bool) -> Result<Position, Refusal>
    ensures { Answered (asking (test_of convex) x y (floats_of bytes.now)) result }
{
    let floats = Floats::new(bytes)?;
    let spot = spot(x, y)?;
    Ok(told(spot, &floats, convex))
}
