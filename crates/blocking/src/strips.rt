// The grid in 65 strips each way, of 32 whole numbers each, counted from an edge.
ghost use Rattle.std.specs.Prelude.{◌≡◌, true, ℕ, ◌+◌, ◌<◌, ◌≤◌, pos, ◌-ℤ◌, length};
ghost use Rattle.algebra.specs.Bits.{Has};
ghost use Rattle.rules.specs.Limits.{most_points};
ghost use Rattle.rules.specs.Grid.{on_grid, whole_of};
ghost use Rattle.grid.specs.Listed.{listed};
ghost use Rattle.grid.specs.Points.{pt_of};
ghost use Rattle.blocking.specs.Strips.{Side, from_edge, mask, both, Marked, MarkedUpTo, Stripped, candidates_of};

use grid::point::Point;
use grid::points::Points;

// For one strip the points from each edge up to it. A mask stands for some eights of points: bit number k / 8 for point number k and its
// neighbours.
#[derive(Clone, Copy)]
pub struct Masks {
    pub right: u64,
    pub left: u64,
    pub upper: u64,
    pub lower: u64,
}

impl Masks {
    fn with(self, other: Masks) -> Masks
        ensures { result ≡ both self other }
    {
        Masks {
            right: self.right | other.right,
            left: self.left | other.left,
            upper: self.upper | other.upper,
            lower: self.lower | other.lower,
        }
    }
}

#[derive(Drop)]
pub struct Strips {
    pub masks: [Masks; 65],
}

// The strip of a coordinate from the right or upper edge of the grid.
fn from_upper(v: f32) -> usize
    requires { on_grid v ≡ true }
    ensures strip { result ≡ from_edge (whole_of v) }
    ensures bound { result < 65 }
{
    ((1024.0 - v) as u32 / 32) as usize
}

// And from the left or lower edge.
fn from_lower(v: f32) -> usize
    requires { on_grid v ≡ true }
    ensures strip { result ≡ from_edge (pos 0 -ℤ whole_of v) }
    ensures bound { result < 65 }
{
    ((1024.0 - -v) as u32 / 32) as usize
}

impl Strips {
    // No masks yet.
    pub fn new() -> Strips
        ensures { length result.masks ≡ 65 }
    {
        Strips {
            masks: [Masks {
                right: 0,
                left: 0,
                upper: 0,
                lower: 0,
            }; 65],
        }
    }

    // Puts all points of an outline to the masks.
    pub fn fill(&mut self, points: &Points)
        requires at_most { length (listed points.now) ≤ most_points }
        requires long { length self.old.masks ≡ 65 }
        ensures { Stripped (listed points.now) self.new.masks }
    {
        for k in 0..points.count() {
            self.mark(points.at(k), k as u64 / 8);
        }
        self.gather();
    }

    // Puts a point of eight number g to the masks of its own four strips.
    fn mark(&mut self, p: Point, g: u64)
        requires eight { g < 64 }
        requires long { length self.old.masks ≡ 65 }
        ensures { Marked self.old.masks (pt_of p) g self.new.masks }
    {
        let eight = 1u64 << g;
        self.masks[from_upper(p.x)].right |= eight;
        self.masks[from_lower(p.x)].left |= eight;
        self.masks[from_upper(p.y)].upper |= eight;
        self.masks[from_lower(p.y)].lower |= eight;
    }

    // Puts each mask to those of the strips behind its own.
    fn gather(&mut self)
        requires { length self.old.masks ≡ 65 }
        ensures { (side : Side) (s d g : ℕ) → s + d < 65 → Has (mask self.old.masks side s) g → Has (mask self.new.masks side (s + d)) g }
    {
        for s in 1..65 {
            self.masks[s] = self.masks[s].with(self.masks[s - 1]);
        }
    }

    // The eights that may have a point in the box of an ear's three corners: each point of another eight is beyond one edge of that box.
    pub fn candidates(&self, a: Point, b: Point, c: Point) -> u64
        ensures { result ≡ candidates_of self.now.masks (pt_of a) (pt_of b) (pt_of c) }
    {
        let masks = &self.masks;
        let right = masks[from_upper(a.x)].right
            | masks[from_upper(b.x)].right
            | masks[from_upper(c.x)].right;
        let left = masks[from_lower(a.x)].left
            | masks[from_lower(b.x)].left
            | masks[from_lower(c.x)].left;
        let upper = masks[from_upper(a.y)].upper
            | masks[from_upper(b.y)].upper
            | masks[from_upper(c.y)].upper;
        let lower = masks[from_lower(a.y)].lower
            | masks[from_lower(b.y)].lower
            | masks[from_lower(c.y)].lower;
        right & left & upper & lower
    }
}
