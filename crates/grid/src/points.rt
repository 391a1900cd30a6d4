// Coordinates that are known to be on the grid.
ghost use Rattle.std.specs.Prelude.{◌≡◌, false};
ghost use Rattle.rules.specs.Refusals.{off_grid};

// x and y in turn. What it tells stands in the crate's root.
#[derive(Clone, Copy)]
pub struct Points<'a> {
    pub coords: &'a [f32],
    ghost on_grid: { off_grid coords.now ≡ false },
}
