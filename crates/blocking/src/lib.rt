// Whether some point of an outline blocks an ear: eight points at a time, and only the eights that may have a point in the ear's box.
#![tactic(auto)]

pub mod outline;
pub mod places;
pub mod sides;
pub mod strips;

ghost use Rattle.std.specs.Prelude.{◌≡◌, true, List, ◌+◌, ◌≤◌};
ghost use Rattle.algebra.specs.Lists.{any};
ghost use Rattle.rules.specs.Plane.{Pt, left};
ghost use Rattle.rules.specs.Ear as Rules;
ghost use Rattle.grid.specs.Listed.{listed};
ghost use Rattle.grid.specs.Points.{pt_of};
ghost use Rattle.blocking.specs.InFloats.{blocks_from};
ghost use Rattle.blocking.specs.Outlined.{Outlined};

use grid::point::Point;
use outline::Outline;
use places::Places;
use sides::Sides;

impl Places {
    // Whether one of eight consecutive points blocks. There is no early end, so that all are looked at at once.
    fn eight_block(&self, at: usize, sides: Sides) -> bool
        requires { at + 8 ≤ 512 }
        ensures { result ≡ blocks_from sides self.now.points at 8 }
    {
        let points = &self.points[..];
        let mut hit = false;
        for p in &points[at..at + 8] {
            hit |= sides.blocks(*p);
        }
        hit
    }

    // Whether some point of the outline that stands there blocks the ear p1, p, p3.
    pub fn blocked(&self, p1: Point, p: Point, p3: Point) -> bool
        requires { left (pt_of p1) (pt_of p) (pt_of p3) ≡ true }
        ensures { (ps : List Pt) → Outlined ps self.now → result ≡ any (Rules.blocks (pt_of p1) (pt_of p) (pt_of p3)) ps }
    {
        let sides = Sides::new(p1, p, p3);
        let mut mask = self.strips.candidates(p1, p, p3);
        while mask != 0 {
            let g = mask.ilog2();
            if self.eight_block(8 * g as usize, sides) {
                return true;
            }
            mask %= 1u64 << g;
        }
        false
    }
}

impl Outline<'_> {
    // Whether some point blocks the ear p1, p, p3.
    pub fn blocked(&self, p1: Point, p: Point, p3: Point) -> bool
        requires { left (pt_of p1) (pt_of p) (pt_of p3) ≡ true }
        ensures { result ≡ any (Rules.blocks (pt_of p1) (pt_of p) (pt_of p3)) (listed self.now.points.now) }
    {
        self.places.blocked(p1, p, p3)
    }
}
