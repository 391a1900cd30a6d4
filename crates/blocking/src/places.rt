// Where the points of an outline stand for the search.
ghost use Rattle.std.specs.Prelude.{◌≡◌, ◌<◌, ◌≤◌, length};
ghost use Rattle.rules.specs.Limits.{most_points};
ghost use Rattle.rules.specs.Plane.{point};
ghost use Rattle.grid.specs.Listed.{listed};
ghost use Rattle.grid.specs.Points.{pt_of};
ghost use Rattle.blocking.specs.Strips.{Stripped};
ghost use Rattle.blocking.specs.Outlined.{Flat, Room, Outlined};

use crate::strips::Strips;
use grid::point::Point;
use grid::points::Points;

// One after the other, and in strips. Behind the last point stands point 0 again, up to 512: a copy of a point blocks exactly if the point
// does.
#[derive(Drop)]
pub struct Places {
    pub points: [Point; 512],
    pub strips: Strips,
}

// Point 0, and (0, 0) where there is none.
fn first(points: &Points) -> Point
    ensures { pt_of result ≡ point (listed points.now) 0 }
{
    if points.count() == 0 {
        Point { x: 0.0, y: 0.0 }
    } else {
        points.at(0)
    }
}

impl Places {
    pub fn new() -> Places
        ensures { Room result }
    {
        Places {
            points: [Point { x: 0.0, y: 0.0 }; 512],
            strips: Strips::new(),
        }
    }

    // Puts the points of an outline there.
    pub fn fill(&mut self, points: &Points)
        requires at_most { length (listed points.now) ≤ most_points }
        requires room { Room self.old }
        ensures flat { Flat (listed points.now) (length (listed points.now)) self.new.points }
        ensures stripped { Stripped (listed points.now) self.new.strips.masks }
        ensures outlined { 0 < length (listed points.now) → Outlined (listed points.now) self.new }
    {
        self.points.fill(first(points));
        for k in 0..points.count() {
            self.points[k] = points.at(k);
        }
        self.strips.fill(points);
    }
}
