// What the program `fill` does with a line: the outline is read, cut, merged or not, and written.
#![tactic(auto)]

ghost use Rattle.std.specs.Prelude.{◌≡◌, ◌≤◌, length, IfOk, IfErr};
ghost use Rattle.rules.specs.Entries.{triangles_for};
ghost use Rattle.rules.specs.Limits.{most_points, most_coordinates, most_indices};
ghost use Rattle.rules.specs.Lines.{areas_for, fill_room, Fills};
ghost use Rattle.entries.specs.Refusals.{number_of, answer_of};
ghost use Rattle.wkt.specs.Promise.{writing_of};
ghost use Rattle.fill_line.specs.CutLine.{lent_for, LineRefused, LineCut};

use ear_clipping::triangulate_ear_clipping;
use entries::{MOST_COORDINATES, MOST_INDICES, MOST_TRIANGLES, Refusal};
use grid::points::Points;
use hertel_mehlhorn::hertel_mehlhorn_idx;
use wkt::read::read_polygon;
use wkt::write::write_multipolygon;

// Room for the answer to any line. Where an outline of n corners is accepted, its n - 2 triangles take at most 56 bytes each: four points of
// up to eleven bytes, ten for parentheses and between the points, and two in front of the next. Areas take fewer.
pub const MOST_TEXT: usize = 15 + 56 * MOST_TRIANGLES;

pub fn text_room() -> [u8; MOST_TEXT]
    ensures { length result ≡ fill_room most_points }
{
    [0; MOST_TEXT]
}

// How much room is asked for n corners.
fn fill_room(n: usize) -> usize
    requires { n ≤ most_points }
    ensures { result ≡ fill_room n }
{
    15 + 56 * n.saturating_sub(2)
}

// How many indices are lent to the cutter. Where there is no room for the text it gets none, and so says 6 in its place.
fn lent(n: usize, room: usize) -> usize
    requires { n ≤ most_points }
    ensures { result ≡ lent_for n room }
{
    if room < fill_room(n) { 0 } else { MOST_INDICES }
}

// The outline of a line, and the triangles that it is cut into, three indices each.
#[derive(Clone, Copy)]
struct Cut<'a> {
    points: Points<'a>,
    triangles: &'a [u32],
}

// Reads a line and cuts its outline, for an answer of so many bytes.
fn cut_line<'a>(
    line: &[u8],
    room: usize,
    coords: &'a mut [f32],
    indices: &'a mut [u32],
) -> Result<Cut<'a>, Refusal>
    requires coords { length coords.old ≡ most_coordinates }
    requires indices { length indices.old ≡ most_indices }
    ensures refused { IfErr result (λ refusal. LineRefused line.now room (number_of refusal)) }
    ensures cut { IfOk result (λ cut. LineCut line.now room cut.points.coords.now cut.triangles.now) }
{
    let n = read_polygon(line, coords)? as usize;
    let k = lent(n, room);
    let m = triangulate_ear_clipping(&coords[..2 * n], &mut indices[..k])? as usize;
    Ok(Cut {
        points: Points {
            coords: &coords[..2 * n],
        },
        triangles: &indices[..3 * m],
    })
}

// Fills the outline of a POLYGON line with triangles, written as a MULTIPOLYGON line: metrology's plan.
pub fn fill_triangles(line: &[u8], out: &mut [u8]) -> Result<u32, Refusal>
    ensures fills { Fills triangles_for line.now out.old (writing_of (answer_of result) out.new) }
    ensures count_in_bounds { IfOk result (λ count. count ≤ length out.old) }
{
    let mut coords = [0.0f32; MOST_COORDINATES];
    let mut indices = [0u32; MOST_INDICES];
    let cut = cut_line(line, out.len(), &mut coords, &mut indices)?;
    let lengths = [3u32; MOST_TRIANGLES];
    let count = cut.triangles.len() / 3;
    let end = write_multipolygon(&cut.points, cut.triangles, &lengths[..count], out);
    Ok(end as u32)
}

// Fills the outline of a POLYGON line with convex areas, written as a MULTIPOLYGON line: the crews' plan. What the cutter has written is
// never refused by the merger.
pub fn fill_areas(line: &[u8], out: &mut [u8]) -> Result<u32, Refusal>
    ensures fills { Fills areas_for line.now out.old (writing_of (answer_of result) out.new) }
    ensures count_in_bounds { IfOk result (λ count. count ≤ length out.old) }
{
    let mut coords = [0.0f32; MOST_COORDINATES];
    let mut triangles = [0u32; MOST_INDICES];
    let cut = cut_line(line, out.len(), &mut coords, &mut triangles)?;
    let mut indices = [0u32; MOST_INDICES];
    let mut lengths = [0u32; MOST_TRIANGLES];
    let merged = hertel_mehlhorn_idx(cut.points.coords, cut.triangles, &mut indices, &mut lengths);
    let count = merged.unwrap() as usize;
    let end = write_multipolygon(&cut.points, &indices, &lengths[..count], out);
    Ok(end as u32)
}
