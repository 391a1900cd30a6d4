// The cutter: after the crate's src/transformation/ear_clipping.rs.
#![tactic(auto)]

ghost use Rattle.std.specs.Prelude.{◌≡◌, ◌+◌, ◌-◌, ◌*◌, ◌≤◌, ◌<◌, length, IfOk};
ghost use Rattle.rules.specs.Limits.{most_points, most_indices};
ghost use Rattle.rules.specs.Refusals.{equal_neighbours, first_refusal, before_cutting};
ghost use Rattle.entries.specs.Refusals.{refused, answer_of};
ghost use Rattle.grid.specs.Listed.{listed};
ghost use Rattle.vertices.specs.Vertices.{prev_of, next_of};
ghost use Rattle.ear_clipping.specs.Store.{put3};
ghost use Rattle.ear_clipping.specs.Promise.{Written, Promise};

use blocking::outline::Outline;
use blocking::places::Places;
use entries::{MOST_INDICES, MOST_POINTS, Refusal};
use grid::points::Points;
use vertices::Vertices;

// Whether two ring neighbours are equal.
fn equal_neighbours(points: &Points) -> bool
    requires { 0 < length (listed points.now) }
    ensures { result ≡ equal_neighbours (listed points.now) }
{
    let first = points.at(0);
    let mut a = first;
    for i in 1..points.count() {
        let b = points.at(i);
        if a.same(b) {
            return true;
        }
        a = b;
    }
    a.same(first)
}

// The points of an outline that is not refused before it is cut, where there is room for so many indices.
fn accepted<'a>(coords: &'a [f32], room: usize) -> Result<Points<'a>, Refusal>
    ensures number { refused result ≡ first_refusal (before_cutting coords.now room) }
    ensures same { IfOk result (λ points. points.coords.now ≡ coords.now) }
{
    let points = Points::new(3, MOST_POINTS, coords)?;
    if equal_neighbours(&points) {
        return Err(Refusal::EqualNeighbours);
    }
    if points.area2() <= 0 {
        return Err(Refusal::AreaNotAboveZero);
    }
    if room < 3 * (points.count() - 2) {
        return Err(Refusal::TooLittleRoom);
    }
    Ok(points)
}

// Writes corner i, between its neighbours, at place k.
fn put(triangles: &mut [u32; MOST_INDICES], k: usize, vertices: &Vertices, i: usize)
    requires { (k + 2 < most_indices) × (i < most_points) }
    ensures { triangles.new ≡ put3 triangles.old k (prev_of vertices.now.ring i) i (next_of vertices.now.ring i) }
{
    let vertex = vertices.ring[i];
    triangles[k] = u32::from(vertex.prev);
    triangles[k + 1] = i as u32;
    triangles[k + 2] = u32::from(vertex.next);
}

// Cuts an outline, and tells the number of triangles. Where a ring has no ear nothing is written.
fn cut_outline(outline: &Outline, indices: &mut [u32]) -> Result<u32, Refusal>
    requires at_least { 3 ≤ length (listed outline.now.points.now) }
    requires room { 3 * (length (listed outline.now.points.now) - 2) ≤ length indices.old }
    ensures { Written (listed outline.now.points.now) indices.old result indices.new }
{
    let mut vertices = Vertices::new(outline);
    let mut triangles = [0u32; MOST_INDICES];
    vertices.start();
    let n = outline.points.count();
    for k in 0..n - 3 {
        let Some(i) = vertices.pointiest() else {
            return Err(Refusal::NoEar);
        };
        put(&mut triangles, 3 * k, &vertices, i);
        vertices.clip(i);
    }
    let last = vertices.lowest();
    put(&mut triangles, 3 * (n - 3), &vertices, last);
    let written = &triangles[..3 * (n - 2)];
    indices[..written.len()].copy_from_slice(written);
    Ok((n - 2) as u32)
}

// The same by its points.
fn cut(points: &Points, indices: &mut [u32]) -> Result<u32, Refusal>
    requires at_least { 3 ≤ length (listed points.now) }
    requires at_most { length (listed points.now) ≤ most_points }
    requires room { 3 * (length (listed points.now) - 2) ≤ length indices.old }
    ensures { Written (listed points.now) indices.old result indices.new }
{
    let mut places = Places::new();
    places.fill(points);
    let outline = Outline {
        points,
        places: &places,
    };
    cut_outline(&outline, indices)
}

// Cuts an outline into triangles, by ears from the pointiest on: three indices each, in the order of the cuts.
pub fn triangulate_ear_clipping(coords: &[f32], indices: &mut [u32]) -> Result<u32, Refusal>
    ensures { Promise coords.now indices.old (answer_of result) indices.new }
{
    let points = accepted(coords, indices.len())?;
    cut(&points, indices)
}
