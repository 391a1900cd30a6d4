// Which way three points turn, and whether a point is in a triangle: after the crate's src/utils/point_in_triangle.rs.
ghost use Rattle.std.specs.Prelude.{◌≡◌, true, ◌||◌};
ghost use Rattle.rules.specs.Plane.{turn, in_triangle};
ghost use Rattle.grid.specs.Points.{on_grid_pt, pt_of, orientation, is_ccw, is_cw};

use crate::point::Point;

// The orientation of a corner.
#[derive(Clone, Copy, Debug, PartialEq, Eq)]
pub enum Orientation {
    // Counter-clockwise: a left turn.
    Ccw,
    // Clockwise: a right turn.
    Cw,
    // Neither: a straight line.
    None,
}

impl Orientation {
    pub fn is_ccw(self) -> bool
        ensures { result ≡ is_ccw self }
    {
        self == Orientation::Ccw
    }

    pub fn is_cw(self) -> bool
        ensures { result ≡ is_cw self }
    {
        self == Orientation::Cw
    }
}

// The direction of a line through p1, p2 and p3.
pub fn corner_direction(p1: Point, p2: Point, p3: Point) -> Orientation
    ensures { result ≡ orientation (turn (pt_of p1) (pt_of p2) (pt_of p3)) }
{
    let v1 = p1.minus(p2);
    let v2 = p3.minus(p2);
    let cross = v1.perp_dot(v2);
    if cross < 0.0 {
        Orientation::Ccw
    } else if cross > 0.0 {
        Orientation::Cw
    } else {
        Orientation::None
    }
}

// Whether p is in the triangle with corners v1, v2 and v3, its border included.
pub fn is_point_in_triangle(p: Point, v1: Point, v2: Point, v3: Point) -> bool
    ensures { result ≡ in_triangle (pt_of v1) (pt_of v2) (pt_of v3) (pt_of p) }
{
    let d1 = corner_direction(p, v1, v2);
    let d2 = corner_direction(p, v2, v3);
    let d3 = corner_direction(p, v3, v1);
    let has_cw = d1.is_cw() | d2.is_cw() | d3.is_cw();
    let has_ccw = d1.is_ccw() | d2.is_ccw() | d3.is_ccw();
    !(has_cw & has_ccw)
}
