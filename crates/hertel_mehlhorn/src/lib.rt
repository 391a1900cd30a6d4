// The merger: after the crate's src/transformation/hertel_mehlhorn.rs.
#![tactic(auto)]

ghost use Rattle.std.specs.Prelude.{◌≡◌, ◌/◌, ◌%◌, ◌≤◌, ◌<◌, length, IfOk};
ghost use Rattle.algebra.specs.Lists.{Each};
ghost use Rattle.rules.specs.Limits.{most_points, most_triangles, most_indices};
ghost use Rattle.rules.specs.Layout.{triples};
ghost use Rattle.rules.specs.Merge.{may_join, merge as merge_of};
ghost use Rattle.rules.specs.Refusals.{first_refusal, out_of_range, before_triangles, merger_checks};
ghost use Rattle.entries.specs.Refusals.{refused, answer_of};
ghost use Rattle.grid.specs.Listed.{listed};
ghost use Rattle.hertel_mehlhorn.specs.Promise.{Written, Promise};

use entries::{MOST_POINTS, MOST_TRIANGLES, Refusal};
use grid::points::Points;
use joins::grow;
use joins::queue::Queue;
use joins::ring::Ring;
use pieces::Pieces;

// The merge of the given triangles, three indices each: the pieces one behind the other in `indices`, and their lengths in
// `lengths`. Each is written when it is finished. Answers the number of pieces.
fn merge(points: &Points, triangles: &[u32], indices: &mut [u32], lengths: &mut [u32]) -> usize
    requires points { length (listed points.now) ≤ most_points }
    requires below { Each (λ i. i < length (listed points.now)) triangles.now }
    requires whole { length triangles.now % 3 ≡ 0 }
    requires few { length triangles.now ≤ most_indices }
    requires room { length triangles.now ≤ length indices.old }
    requires places { length triangles.now / 3 ≤ length lengths.old }
    ensures written { Written (merge_of (may_join (listed points.now)) (triples triangles.now)) indices.old lengths.old result indices.new lengths.new }
    ensures few { result ≤ most_triangles }
{
    let mut later = Pieces::new();
    later.read(triangles);
    let mut ring = Ring::new();
    let mut queue = Queue::new();
    let mut count = 0;
    let mut end = 0;
    while let Some(first) = later.take_first() {
        grow(points, first, &mut later, &mut ring, &mut queue);
        ring.write(&mut indices[end..]);
        lengths[count] = ring.len as u32;
        end += ring.len;
        count += 1;
    }
    count
}

// Whether an index is not below n.
fn out_of_range(triangles: &[u32], n: usize) -> bool
    ensures { result ≡ out_of_range n triangles.now }
{
    triangles.iter().any(|i| n <= *i as usize)
}

// The refusals that need no look at the triangles, of which there are as many indices.
pub fn check_before_triangles(coords: &[f32], indices: usize) -> Result<Points<'_>, Refusal>
    ensures number { refused result ≡ first_refusal (before_triangles coords.now indices) }
    ensures same { IfOk result (λ points. points.coords.now ≡ coords.now) }
{
    let points = Points::new(0, MOST_POINTS, coords)?;
    if indices % 3 != 0 {
        return Err(Refusal::NotTriples);
    }
    if MOST_TRIANGLES < indices / 3 {
        return Err(Refusal::TooManyTriangles);
    }
    Ok(points)
}

// All of them: for room for indices and places for lengths.
fn check<'a>(
    coords: &'a [f32],
    triangles: &[u32],
    room: usize,
    places: usize,
) -> Result<Points<'a>, Refusal>
    ensures number { refused result ≡ first_refusal (merger_checks coords.now triangles.now room places) }
    ensures same { IfOk result (λ points. points.coords.now ≡ coords.now) }
{
    let points = check_before_triangles(coords, triangles.len())?;
    if out_of_range(triangles, points.count()) {
        return Err(Refusal::NoSuchPoint);
    }
    if room < triangles.len() || places < triangles.len() / 3 {
        return Err(Refusal::TooLittleRoom);
    }
    Ok(points)
}

// Merges triangles into convex pieces where no corner of a join turns right.
pub fn hertel_mehlhorn_idx(
    coords: &[f32],
    triangles: &[u32],
    indices: &mut [u32],
    lengths: &mut [u32],
) -> Result<u32, Refusal>
    ensures { Promise coords.now triangles.now indices.old lengths.old (answer_of result) indices.new lengths.new }
{
    let points = check(coords, triangles, indices.len(), lengths.len())?;
    Ok(merge(&points, triangles, indices, lengths) as u32)
}
