// The hull of a cloud: after the crate's src/transformation/convex_hull2.rs, in rounds.
#![tactic(auto)]

ghost use Rattle.std.specs.Prelude.{◌≡◌, false, ◌≤◌, length};
ghost use Rattle.algebra.specs.Lists.{count_from};
ghost use Rattle.rules.specs.Hull.{support, rightward, leftward};
ghost use Rattle.rules.specs.Refusals.{on_one_line};
ghost use Rattle.entries.specs.Refusals.{answer_of};
ghost use Rattle.grid.specs.Listed.{listed};
ghost use Rattle.convex_hull2.specs.Promise.{Written, Promise};

use entries::{MOST_POINTS, Refusal};
use facets::cloud::Cloud;
use facets::{begin_at, first_unseen, lay_two, settled, sweep, write_corners};
use grid::points::Points;
use seeing::chosen::Chosen;
use seeing::ends;
use seeing::row::Row;

// Writes the hull of a cloud that is not on one line, from its rightmost point and its leftmost on. Gives back the number of corners.
fn walk(cloud: &Cloud, all: &[u16], right: usize, left: usize, indices: &mut [u32]) -> u32
    requires room { length (listed cloud.now.points) ≤ length indices.old }
    requires all { all.now ≡ count_from 0 (length (listed cloud.now.points)) }
    requires ends { (right ≡ support (listed cloud.now.points) rightward) × (left ≡ support (listed cloud.now.points) leftward) }
    requires turns { on_one_line (listed cloud.now.points) ≡ false }
    ensures { Written (listed cloud.now.points) indices.old result indices.new }
{
    let chosen = Chosen {
        points: cloud.points,
        list: all,
    };
    let mut ring = Row::new();
    let mut begun = [0u16; MOST_POINTS];
    lay_two(&chosen, right, left, right, &mut ring);
    for _ in 0..all.len() {
        if settled(ring.as_slice()) {
            break;
        }
        let laid = ring.as_slice();
        let count = laid.len();
        let start = first_unseen(laid).unwrap_or(0);
        begin_at(laid, start, &mut begun);
        sweep(cloud, &begun[..count], &mut ring);
    }
    let corners = ring.as_slice();
    write_corners(corners, indices);
    corners.len() as u32
}

// The corners of the hull of a cloud, counter-clockwise, by their indices.
pub fn convex_hull2_idx(coords: &[f32], indices: &mut [u32]) -> Result<u32, Refusal>
    ensures { Promise coords.now indices.old (answer_of result) indices.new }
{
    let points = Points::new(2, MOST_POINTS, coords)?;
    let all = Row::counted(points.count());
    let Some((right, left)) = ends(&points, all.as_slice()) else {
        return Err(Refusal::OnOneLine);
    };
    if indices.len() < points.count() {
        return Err(Refusal::TooLittleRoom);
    }
    let cloud = Cloud { points };
    Ok(walk(&cloud, all.as_slice(), right, left, indices))
}
