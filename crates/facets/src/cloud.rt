// A cloud of points whose numbers can be told from marks.
ghost use Rattle.std.specs.Prelude.{◌≤◌, length};
ghost use Rattle.rules.specs.Limits.{most_points};
ghost use Rattle.grid.specs.Listed.{listed};

use grid::points::Points;

#[derive(Clone, Copy)]
pub struct Cloud<'a> {
    pub points: Points<'a>,
    ghost few: { length (listed points) ≤ most_points },
}
