// The corners of an outline, read where they stand.
ghost use Rattle.std.specs.Prelude.{◌≡◌, List, length, ◌<◌};
ghost use Rattle.rules.specs.Plane as Rules;
ghost use Rattle.rules.specs.Plane.{Pt};
ghost use Rattle.grid.specs.Points.{pt_of};
ghost use Rattle.grid.specs.Listed.{listed};

use grid::point::Point;
use grid::points::Points;

pub trait Corners {
    ghost points: { Self → List Pt };

    fn count(&self) -> usize
        ensures { result ≡ length (points self.now) };

    // Corner number i.
    fn at(&self, i: usize) -> Point
        requires { i < length (points self.now) }
        ensures { pt_of result ≡ Rules.point (points self.now) i };
}

impl Corners for Points<'_> {
    ghost points = { listed };

    fn count(&self) -> usize {
        Points::count(self)
    }

    fn at(&self, i: usize) -> Point {
        Points::at(self, i)
    }
}
