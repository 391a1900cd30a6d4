// Rings of corners: their doubled areas, and what the outline test says of them.
ghost use Rattle.std.specs.Prelude.{length};
ghost use Rattle.std.specs.Iterator.{at_most};

use entries::MOST_INDICES;
use point_in_poly2d::{Position, point_in_poly2d};

#[derive(Clone, Copy)]
pub struct Spot {
    pub x: f32,
    pub y: f32,
}

// Where a spot is; outside where the question is refused.
pub fn ask(spot: Spot, ring: &[f32]) -> Position {
    point_in_poly2d(spot.x, spot.y, ring).unwrap_or(Position::Outside)
}

// The doubled signed area, which is exact for small outlines.
pub fn area(ring: &[[f32; 2]]) -> f32 {
    let Some(last) = ring.last() else {
        return 0.0;
    };
    let mut before = *last;
    let mut sum = 0.0f32;
    for corner in ring {
        sum += before[0] * corner[1] - before[1] * corner[0];
        before = *corner;
    }
    sum
}

// The points of a list of corner numbers, as far as there are such corners.
pub fn corners(coords: &[f32], indices: &[u32]) -> [[f32; 2]; MOST_INDICES] {
    let (points, _) = coords.as_chunks::<2>();
    let mut corners = [[0.0f32; 2]; MOST_INDICES];
    for (corner, index) in corners.iter_mut().zip(indices) {
        if let Some(point) = points.get(*index as usize) {
            *corner = *point;
        }
    }
    corners
}

// Rings that stand one behind the other, by their lengths.
#[derive(Clone, Copy)]
pub struct Rings<'a> {
    pub corners: &'a [[f32; 2]],
    pub lengths: &'a [u32],
}

impl<'a> Iterator for Rings<'a> {
    type Item = &'a [[f32; 2]];

    ghost remaining = { λ rings. at_most (length rings.lengths.now) };

    fn next(&mut self) -> Option<&'a [[f32; 2]]> {
        let (length, lengths) = self.lengths.split_first()?;
        let size = self.corners.len().min(*length as usize);
        let (ring, corners) = self.corners.split_at(size);
        self.corners = corners;
        self.lengths = lengths;
        Some(ring)
    }
}

impl Rings<'_> {
    // The sum of the doubled areas.
    pub fn area(self) -> f32 {
        self.map(area).sum()
    }

    pub fn clockwise(self) -> usize {
        self.filter(|ring| area(ring) < 0.0).count()
    }

    // Where a spot is by all rings together: on the border where it is on that of any, and inside where an odd number of them has it inside.
    pub fn position(self, spot: Spot) -> Position {
        let mut inside = false;
        for ring in self {
            match ask(spot, ring.as_flattened()) {
                Position::Border => return Position::Border,
                Position::Inside => inside = !inside,
                Position::Outside => {}
            }
        }
        if inside {
            Position::Inside
        } else {
            Position::Outside
        }
    }
}
