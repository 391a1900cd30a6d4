// The hull of a cloud, on byte slices.
ghost use Rattle.std.specs.Prelude.{◌≤◌, length};
ghost use Rattle.rules.specs.Limits.{most_coordinates};
ghost use Rattle.hasplight.specs.Promise.{HullGives, HullPromise};

use crate::read;
use crate::room::least;
use entries::{Answer, MOST_COORDINATES, MOST_INDICES, MOST_POINTS};
use grid::outline::check_count;

// Finds the hull, and writes what is reported as bytes.
fn hull(floats: &[f32], indices: &mut [u8]) -> Answer
    requires { length floats.now ≤ most_coordinates }
    ensures { HullGives floats.now indices.old result indices.new }
{
    let room = least(indices.len() / 4);
    let mut out = [0u32; MOST_INDICES];
    let a = Answer::from(convex_hull2::convex_hull2_idx(floats, &mut out[..room]));
    words::write(&out[..a.count as usize], indices);
    a
}

pub fn hasplight_convex_hull2_idx(coords: &[u8], indices: &mut [u8]) -> Answer
    ensures { HullPromise coords.now indices.old result indices.new }
{
    if let Err(refusal) = check_count(2, MOST_POINTS, coords.len() / 4) {
        return Answer::from(Err(refusal));
    }
    let mut room = [0.0f32; MOST_COORDINATES];
    hull(read(coords, &mut room), indices)
}
