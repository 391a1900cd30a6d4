// Coordinates that stand as bytes, four each, low byte first, known to be on the grid.
ghost use Rattle.std.specs.Prelude.{◌≡◌, false};
ghost use Rattle.rules.specs.Refusals.{off_grid};
ghost use Rattle.words.specs.Bytes.{floats_of};

// x and y in turn. What it tells stands in `bytes`.
#[derive(Clone, Copy)]
pub struct Floats<'a> {
    pub bytes: &'a [u8],
    ghost on_grid: { off_grid (floats_of bytes.now) ≡ false },
}
