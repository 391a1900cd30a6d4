// Reading lines, each in one pass: a word and a ring, such as a POLYGON line, and a POINT line. Which lines are in form is said in `rules`.
ghost use Rattle.std.specs.Prelude.{◌≡◌, IfSome, IfNone};
ghost use Rattle.rules.specs.Lines.{Reads};
ghost use Rattle.entries.specs.Refusals.{answer_of};
ghost use Rattle.wkt.specs.Reads.{SpotRead, NoPoint, stored, NoRing, RingRead, NoOutline, OutlineRead, NoPointLine, PointRead};
ghost use Rattle.wkt.specs.Promise.{reading_of};

use decimals::read::read_number;
use entries::{MOST_COORDINATES, MOST_POINTS, Refusal};

// Of a line, without the newline.
pub const MOST_BYTES: usize = 8192;

// The point that a text starts with, how it is written, and the text behind it.
#[derive(Clone, Copy)]
struct Spot<'a> {
    x: f32,
    y: f32,
    written: &'a [u8],
    rest: &'a [u8],
}

// Two numbers with a space between them.
fn read_point(text: &[u8]) -> Option<Spot<'_>>
    ensures point { IfSome result (λ p. SpotRead text.now p.x p.y p.written.now p.rest.now) }
    ensures no_point { IfNone result (NoPoint text.now) }
{
    let (x, behind) = read_number(text)?;
    let (y, rest) = read_number(behind.strip_prefix(b" ")?)?;
    Some(Spot {
        x,
        y,
        written: &text[..text.len() - rest.len()],
        rest,
    })
}

// Writes the coordinates of point number n, if there is a place for it.
fn put(coords: &mut [f32; MOST_COORDINATES], n: usize, x: f32, y: f32)
    ensures { coords.new ≡ stored coords.old n x y }
{
    if n < MOST_POINTS {
        coords[2 * n] = x;
        coords[2 * n + 1] = y;
    }
}

// Reads the corners of a text that is a ring, as far as there is room, and counts them. The closing point is compared with the first as both are
// written, so at any length of their numbers.
fn read_ring(text: &[u8], coords: &mut [f32; MOST_COORDINATES]) -> Option<usize>
    ensures ring { IfSome result (λ count. RingRead text.now count coords.new) }
    ensures no_ring { IfNone result (NoRing text.now) }
{
    let first = read_point(text)?;
    put(coords, 0, first.x, first.y);
    let mut count = 1;
    let mut last = first;
    while let Some(behind) = last.rest.strip_prefix(b", ") {
        last = read_point(behind)?;
        put(coords, count, last.x, last.y);
        count += 1;
    }
    if count < 2 || last.rest != b"))".as_slice() || last.written != first.written {
        return None;
    }
    Some(count - 1)
}

// Reads the corners of a line that starts with a word, such as `POLYGON ((`, and goes on with a ring to its end, if it is not too long: as far as
// there is room, and counts them.
pub fn read_outline(line: &[u8], word: &[u8], coords: &mut [f32; MOST_COORDINATES]) -> Option<usize>
    ensures outline { IfSome result (λ count. OutlineRead word.now line.now count coords.new) }
    ensures no_outline { IfNone result (NoOutline word.now line.now) }
{
    if MOST_BYTES < line.len() {
        return None;
    }
    read_ring(line.strip_prefix(word)?, coords)
}

// Reads the corners of a POLYGON line as coordinates.
pub fn read_polygon(line: &[u8], coords: &mut [f32]) -> Result<u32, Refusal>
    ensures { Reads line.now coords.old (reading_of (answer_of result) coords.new) }
{
    let mut own = [0.0; MOST_COORDINATES];
    let Some(count) = read_outline(line, b"POLYGON ((", &mut own) else {
        return Err(Refusal::NotInForm);
    };
    if MOST_POINTS < count {
        return Err(Refusal::TooManyPoints);
    }
    if coords.len() < 2 * count {
        return Err(Refusal::TooLittleRoom);
    }
    coords[..2 * count].copy_from_slice(&own[..2 * count]);
    Ok(count as u32)
}

// The coordinates of a POINT line.
pub fn read_point_line(line: &[u8]) -> Option<(f32, f32)>
    ensures point { IfSome result (λ p. PointRead line.now p.0 p.1) }
    ensures no_point { IfNone result (NoPointLine line.now) }
{
    if MOST_BYTES < line.len() {
        return None;
    }
    let point = read_point(line.strip_prefix(b"POINT (")?)?;
    if point.rest != b")".as_slice() {
        return None;
    }
    Some((point.x, point.y))
}
