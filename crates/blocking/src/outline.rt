// An outline, with what is asked of it at each ear.
ghost use Rattle.rules.specs.Grid.{points_of};
ghost use Rattle.blocking.specs.Outlined.{Outlined};

use crate::places::Places;
use grid::points::Points;

// The points of an outline, and where they stand.
#[derive(Clone, Copy)]
pub struct Outline<'a> {
    pub points: &'a Points<'a>,
    pub places: &'a Places,
    ghost outlined: { Outlined (points_of points.now.coords.now) places.now },
}
