// What is carried of a line that has not ended yet.
ghost use Rattle.std.specs.Prelude.{◌≤◌, length};

// Lent bytes, and how many of them are held. What it does stands in the crate's root.
#[derive(Drop)]
pub struct Carried<'a> {
    pub bytes: &'a mut [u8],
    pub held: usize,
    ghost held_in_bounds: { held ≤ length bytes.now },
}
