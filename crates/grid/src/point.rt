// A point of the grid.
ghost use Rattle.std.specs.Prelude.{◌≡◌, true};
ghost use Rattle.rules.specs.Grid.{on_grid};

// What it tells stands in `vector`.
#[derive(Clone, Copy)]
pub struct Point {
    pub x: f32,
    pub y: f32,
    ghost x_on_grid: { on_grid x ≡ true },
    ghost y_on_grid: { on_grid y ≡ true },
}
