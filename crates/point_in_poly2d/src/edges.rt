// What an edge shows of a spot, by the ways from the spot to its ends, and what all edges together say.
ghost use Rattle.std.specs.Prelude.{◌≡◌, not, ◌&&◌, ◌||◌, List, [], ◌∷◌};
ghost use Rattle.algebra.specs.Sums.{Sums, total};
ghost use Rattle.algebra.specs.Rings.{Edge, edges};
ghost use Rattle.rules.specs.Plane.{Pt};
ghost use Rattle.rules.specs.Border as Rules;
ghost use Rattle.grid.specs.declared.point.Point.{Point};
ghost use Rattle.grid.specs.Points.{pt_of};
ghost use Rattle.point_in_poly2d.specs.Ways.{Way};
ghost use Rattle.point_in_poly2d.specs.Positions.{position_of};

use crate::Position;
use grid::vector::Vector;

// A test: what several edges show together is a sum, so that their order is all one.
pub trait Test: Copy {
    // What the test says of a spot and an outline.
    ghost rule: { Pt → List Pt → Rules.Position };

    ghost sums: { Sums Self };

    ghost shown: { Pt → Edge Pt → Self };

    ghost told: { Self → Rules.Position };

    // What no edge shows.
    fn nothing() -> Self
        ensures { result ≡ sums.nil };

    fn with(self, other: Self) -> Self
        ensures { result ≡ sums.◌⊕◌ self other };

    // What the edge shows to whose ends the ways are d and e. No test waits for another, so that several edges can be looked at at once.
    fn edge(d: Vector, e: Vector) -> Self
        ensures { (p : Point) (a b : Pt) → Way p a d → Way p b e → result ≡ shown (pt_of p) (record { from = a; to = b }) };

    // What all edges together say.
    fn told(self) -> Position
        ensures { position_of result ≡ told self };

    ghost of_none: { (p : Pt) → rule p [] ≡ Rules.outside };

    ghost of_all: { (p a : Pt) (l : List Pt) → rule p (a ∷ l) ≡ told (total sums (shown p) (edges (a ∷ l))) };
}

// Whether an odd number of edges is crossed, and whether the spot is on one.
#[derive(Clone, Copy)]
pub struct Crossing {
    odd: bool,
    touched: bool,
}

// Whether the spot is left of some edge, and whether it is right of some.
#[derive(Clone, Copy)]
pub struct Sides {
    left: bool,
    right: bool,
}

// Whether an edge is crossed: by which of its ends are above the spot, and on which side of it the spot is.
fn crosses(above: bool, next: bool, left: bool, right: bool) -> bool
    ensures { result ≡ ((not above && next && left) || (not next && above && right)) }
{
    if above { !next & right } else { next & left }
}

// The outline test. The cross product of the ways is the turn; where that is straight, their dot product is above zero exactly if the spot is
// beyond the ends.
impl Test for Crossing {
    ghost use Rattle.rules.specs.Border.{position};
    ghost use Rattle.point_in_poly2d.specs.Edges.{crossings, crossing_of, crossing_told, outline_of_none, outline_of_all};

    ghost rule = { position };

    ghost sums = { crossings };

    ghost shown = { crossing_of };

    ghost told = { crossing_told };

    ghost of_none = { outline_of_none };

    ghost of_all = { outline_of_all };

    fn nothing() -> Crossing {
        Crossing {
            odd: false,
            touched: false,
        }
    }

    fn with(self, other: Crossing) -> Crossing {
        Crossing {
            odd: self.odd ^ other.odd,
            touched: self.touched | other.touched,
        }
    }

    fn edge(d: Vector, e: Vector) -> Crossing {
        let turn = d.perp_dot(e);
        let above = 0.0 < d.y;
        let next = 0.0 < e.y;
        let beyond = 0.0 < d.dot(e);
        Crossing {
            odd: crosses(above, next, 0.0 < turn, turn < 0.0),
            touched: (turn == 0.0) & !beyond,
        }
    }

    fn told(self) -> Position {
        if self.touched {
            Position::Border
        } else if self.odd {
            Position::Inside
        } else {
            Position::Outside
        }
    }
}

// The convex test.
impl Test for Sides {
    ghost use Rattle.rules.specs.Border.{convex_position};
    ghost use Rattle.point_in_poly2d.specs.Edges.{sides, sides_of, sides_told, convex_of_none, convex_of_all};

    ghost rule = { convex_position };

    ghost sums = { sides };

    ghost shown = { sides_of };

    ghost told = { sides_told };

    ghost of_none = { convex_of_none };

    ghost of_all = { convex_of_all };

    fn nothing() -> Sides {
        Sides {
            left: false,
            right: false,
        }
    }

    fn with(self, other: Sides) -> Sides {
        Sides {
            left: self.left | other.left,
            right: self.right | other.right,
        }
    }

    fn edge(d: Vector, e: Vector) -> Sides {
        let turn = d.perp_dot(e);
        Sides {
            left: 0.0 < turn,
            right: turn < 0.0,
        }
    }

    fn told(self) -> Position {
        let both = self.left & self.right;
        if both {
            Position::Outside
        } else {
            Position::Inside
        }
    }
}
