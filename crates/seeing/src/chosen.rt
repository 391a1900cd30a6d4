// Some of the points, by their numbers.
ghost use Rattle.std.specs.Prelude.{◌<◌, length, slice_index, EachIndex};
ghost use Rattle.grid.specs.Listed.{listed};

use grid::points::Points;

// What it tells stands in the crate's root.
#[derive(Clone, Copy)]
pub struct Chosen<'a> {
    pub points: Points<'a>,
    pub list: &'a [u16],
    ghost within: { EachIndex list.now (λ k. slice_index list.now k < length (listed points)) },
}
