// The entries on numbers and byte slices, as hasplight_c exports them. Each f32, index or length stands as four bytes, low byte first; bytes
// past the last whole four are neither read nor written.
#![tactic(auto)]

pub mod hull;
mod room;
pub mod text;

ghost use Rattle.std.specs.Prelude.{◌≡◌, ◌≤◌, length, IfOk};
ghost use Rattle.rules.specs.Limits.{most_points, most_coordinates, most_indices};
ghost use Rattle.rules.specs.Refusals.{first_refusal, count_checks};
ghost use Rattle.words.specs.Bytes.{words_of, floats_of};
ghost use Rattle.rules.specs.Border.{position_number, position, convex_position};
ghost use Rattle.entries.specs.Refusals.{refused};
ghost use Rattle.point_in_poly2d.specs.Positions.{answer_of, test_of};
ghost use Rattle.hasplight.specs.Promise.{CutterGives, CutterPromise, MergerGives, MergerPromise, PointPromise};

use entries::{Answer, MOST_COORDINATES, MOST_INDICES, MOST_POINTS, Refusal};
use grid::outline::check_count;
use point_in_poly2d::Position;
use room::{corners, least, tripled};

// The number of a refusal, and 0 for outside or refused, 1 for inside, 2 for border.
#[repr(C)]
#[derive(Clone, Copy)]
pub struct Verdict {
    pub number: u32,
    pub answer: u32,
}

// Reads the coordinates, where they are not too many.
fn read<'a>(coords: &[u8], room: &'a mut [f32]) -> &'a [f32]
    requires few { length (floats_of coords.now) ≤ most_coordinates }
    requires room { length room.old ≡ most_coordinates }
    ensures { result.now ≡ floats_of coords.now }
{
    words::read(coords, room);
    &room[..coords.len() / 4]
}

// Cuts, and writes what is reported as bytes.
fn cut(floats: &[f32], indices: &mut [u8]) -> Answer
    requires { length floats.now ≤ most_coordinates }
    ensures { CutterGives floats.now indices.old result indices.new }
{
    let room = least(indices.len() / 4);
    let mut out = [0u32; MOST_INDICES];
    let a = Answer::from(ear_clipping::triangulate_ear_clipping(floats, &mut out[..room]));
    words::write(&out[..tripled(a.count)], indices);
    a
}

pub fn hasplight_triangulate_ear_clipping(coords: &[u8], indices: &mut [u8]) -> Answer
    ensures { CutterPromise coords.now indices.old result indices.new }
{
    if let Err(refusal) = check_count(3, MOST_POINTS, coords.len() / 4) {
        return Answer::from(Err(refusal));
    }
    let mut room = [0.0f32; MOST_COORDINATES];
    cut(read(coords, &mut room), indices)
}

// Merges, and writes what is reported as bytes.
fn merge(floats: &[f32], given: &[u32], indices: &mut [u8], lengths: &mut [u8]) -> Answer
    requires { length given.now ≤ most_indices }
    ensures { MergerGives floats.now given.now indices.old lengths.old result indices.new lengths.new }
{
    let room = least(indices.len() / 4);
    let places = least(lengths.len() / 4);
    let mut out = [0u32; MOST_INDICES];
    let mut sizes = [0u32; MOST_INDICES];
    let a = Answer::from(hertel_mehlhorn::hertel_mehlhorn_idx(
        floats,
        given,
        &mut out[..room],
        &mut sizes[..places],
    ));
    words::write(&out[..corners(a.number, given.len(), a.count)], indices);
    words::write(&sizes[..a.count as usize], lengths);
    a
}

// Reads the triangles and merges them, if there are not too many.
fn merge_triangles(
    floats: &[f32],
    triangles: &[u8],
    indices: &mut [u8],
    lengths: &mut [u8],
) -> Answer
    ensures { MergerGives floats.now (words_of triangles.now) indices.old lengths.old result indices.new lengths.new }
{
    let t = triangles.len() / 4;
    if MOST_INDICES < t {
        return match hertel_mehlhorn::check_before_triangles(floats, t) {
            Err(refusal) => Answer::from(Err(refusal)),
            Ok(_) => unreachable!(),
        };
    }
    let mut given = [0u32; MOST_INDICES];
    words::read(triangles, &mut given);
    merge(floats, &given[..t], indices, lengths)
}

pub fn hasplight_hertel_mehlhorn_idx(
    coords: &[u8],
    triangles: &[u8],
    indices: &mut [u8],
    lengths: &mut [u8],
) -> Answer
    ensures { MergerPromise coords.now triangles.now indices.old lengths.old result indices.new lengths.new }
{
    if let Err(refusal) = check_count(0, MOST_POINTS, coords.len() / 4) {
        return Answer::from(Err(refusal));
    }
    let mut room = [0.0f32; MOST_COORDINATES];
    merge_triangles(read(coords, &mut room), triangles, indices, lengths)
}

// What a point test answers.
impl From<Result<Position, Refusal>> for Verdict {
    ghost from_gives = { λ asked verdict. (verdict.number ≡ refused asked) × (verdict.answer ≡ position_number (answer_of asked)) };

    fn from(asked: Result<Position, Refusal>) -> Verdict {
        let number = match asked {
            Ok(_) => 0,
            Err(refusal) => refusal.into(),
        };
        let answer = match asked {
            Err(_) => 0,
            Ok(Position::Outside) => 0,
            Ok(Position::Inside) => 1,
            Ok(Position::Border) => 2,
        };
        Verdict { number, answer }
    }
}

// One of the two point tests.
fn ask(x: f32, y: f32, coords: &[u8], convex: bool) -> Verdict
    ensures { PointPromise (test_of convex) x y coords.now result }
{
    Verdict::from(point_in_poly2d::bytes::ask(x, y, coords, convex))
}

pub fn hasplight_point_in_poly2d(x: f32, y: f32, coords: &[u8]) -> Verdict
    ensures { PointPromise position x y coords.now result }
{
    ask(x, y, coords, false)
}

pub fn hasplight_point_in_convex_poly2d(x: f32, y: f32, coords: &[u8]) -> Verdict
    ensures { PointPromise convex_position x y coords.now result }
{
    ask(x, y, coords, true)
}
