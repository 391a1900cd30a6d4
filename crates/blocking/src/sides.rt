// The sides of an ear's triangle, and whether a point blocks it.
ghost use Rattle.std.specs.Prelude.{◌≡◌};
ghost use Rattle.blocking.specs.InFloats.{sides_of, beyond_of, blocks_of};

use grid::point::Point;

// Two sides of an ear's triangle p1, p, p3 as functions that are zero on the side: the turn of (x, y) with it is a x + b y - c. d is the
// turn of the three points.
#[derive(Clone, Copy)]
pub struct Sides {
    a1: f32,
    b1: f32,
    c1: f32,
    a2: f32,
    b2: f32,
    c2: f32,
    d: f32,
}

impl Sides {
    pub fn new(p1: Point, p: Point, p3: Point) -> Sides
        ensures { result ≡ sides_of p1 p p3 }
    {
        let a1 = p1.y - p.y;
        let b1 = p.x - p1.x;
        let c1 = a1 * p1.x + b1 * p1.y;
        let a2 = p.y - p3.y;
        let b2 = p3.x - p.x;
        let c2 = a2 * p.x + b2 * p.y;
        let d = a1 * p3.x + b1 * p3.y - c1;
        Sides {
            a1,
            b1,
            c1,
            a2,
            b2,
            c2,
            d,
        }
    }

    // Whether a turn with a side is below zero, or that of the three points and more.
    fn is_beyond(self, turn: f32) -> bool
        ensures { result ≡ beyond_of self.d turn }
    {
        (turn < 0.0) | !(turn < self.d)
    }

    // Whether the point p blocks: its turns with the three sides are at least zero and below d. They add up to d.
    pub fn blocks(self, p: Point) -> bool
        ensures { result ≡ blocks_of self p }
    {
        let e1 = self.a1 * p.x + self.b1 * p.y - self.c1;
        let e2 = self.a2 * p.x + self.b2 * p.y - self.c2;
        let e3 = self.d - e1 - e2;
        !(self.is_beyond(e1) | (self.is_beyond(e2) | self.is_beyond(e3)))
    }
}
