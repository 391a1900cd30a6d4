// Two points of the grid beside each other, and the vector from one to the other.
ghost use Rattle.std.specs.Prelude.{◌≡◌};
ghost use Rattle.std.specs.Float.{binary32};
ghost use Rattle.std.specs.Float.Ieee.{add, sub, mul, of_int};
ghost use Rattle.rules.specs.Plane as Rules;
ghost use Rattle.grid.specs.Points.{pt_of};

use crate::point::Point;

#[derive(Clone, Copy)]
pub struct Vector {
    pub x: f32,
    pub y: f32,
}

impl Point {
    // Whether both are one point.
    pub fn same(self, o: Point) -> bool
        ensures { result ≡ Rules.same (pt_of self) (pt_of o) }
    {
        self.x == o.x && self.y == o.y
    }

    // The vector from the middle of the grid.
    pub fn vector(self) -> Vector
        ensures x { result.x ≡ self.x }
        ensures y { result.y ≡ self.y }
    {
        Vector {
            x: self.x,
            y: self.y,
        }
    }

    // The vector from o to a point.
    pub fn minus(self, o: Point) -> Vector
        ensures x { result.x ≡ sub binary32 self.x o.x }
        ensures y { result.y ≡ sub binary32 self.y o.y }
    {
        self.vector().minus(o.vector())
    }

    // The same, bit for bit: each coordinate is its whole number's own float, as adding zero first leaves no -0.
    pub fn side_from(self, o: Point) -> Vector
        ensures x { result.x ≡ of_int binary32 (Rules.minus (pt_of self) (pt_of o)).x }
        ensures y { result.y ≡ of_int binary32 (Rules.minus (pt_of self) (pt_of o)).y }
    {
        Vector {
            x: self.x + 0.0 - o.x,
            y: self.y + 0.0 - o.y,
        }
    }
}

impl Vector {
    pub fn minus(self, o: Vector) -> Vector
        ensures x { result.x ≡ sub binary32 self.x o.x }
        ensures y { result.y ≡ sub binary32 self.y o.y }
    {
        Vector {
            x: self.x - o.x,
            y: self.y - o.y,
        }
    }

    pub fn scaled(self, r: f32) -> Vector
        ensures x { result.x ≡ mul binary32 self.x r }
        ensures y { result.y ≡ mul binary32 self.y r }
    {
        Vector {
            x: self.x * r,
            y: self.y * r,
        }
    }

    pub fn dot(self, o: Vector) -> f32
        ensures { result ≡ add binary32 (mul binary32 self.x o.x) (mul binary32 self.y o.y) }
    {
        self.x * o.x + self.y * o.y
    }

    pub fn perp_dot(self, o: Vector) -> f32
        ensures { result ≡ sub binary32 (mul binary32 self.x o.y) (mul binary32 self.y o.x) }
    {
        self.x * o.y - self.y * o.x
    }
}
