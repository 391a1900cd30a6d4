// A facet of a hull, by its ends.
ghost use Rattle.std.specs.Prelude.{◌≡◌};
ghost use Rattle.std.specs.Float.{binary32};
ghost use Rattle.std.specs.Float.Ieee.{sub};

use grid::point::Point;
use grid::vector::Vector;

#[derive(Clone, Copy)]
pub struct Facet {
    pub from: Point,
    pub to: Point,
}

impl Facet {
    // The facet's normal, not scaled.
    pub(crate) fn normal(self) -> Vector
        ensures x { result.x ≡ sub binary32 self.to.y self.from.y }
        ensures y { result.y ≡ sub binary32 self.from.x self.to.x }
    {
        Vector {
            x: self.to.y - self.from.y,
            y: self.from.x - self.to.x,
        }
    }
}
