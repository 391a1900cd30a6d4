// Writing points, rings, areas and lines as text into lent bytes.
ghost use Rattle.std.specs.Prelude.{◌≡◌, ◌≤◌, ◌<◌, map, length};
ghost use Rattle.algebra.specs.Lists.{Each, count_from, sum};
ghost use Rattle.rules.specs.Limits.{most_points};
ghost use Rattle.rules.specs.Measure as Rules;
ghost use Rattle.rules.specs.Layout.{split};
ghost use Rattle.rules.specs.Text.{point_text, area_text, polygon_line, multipolygon_line};
ghost use Rattle.entries.specs.Refusals.{answer_of};
ghost use Rattle.grid.specs.Listed.{listed};
ghost use Rattle.grid.specs.Points.{pt_of};
ghost use Rattle.decimals.specs.Writes.{Room, Wrote, Takes, Grew};
ghost use Rattle.wkt.specs.Promise.{PolygonPromise};

use decimals::write::Text;
use entries::{MOST_POINTS, Refusal};
use grid::point::Point;
use grid::points::Points;

// What stands between two points, and between two areas.
const PARTING: &[u8] = b", ";

fn write_point(text: &mut Text, p: Point)
    requires { Takes text.old (point_text (pt_of p)) }
    ensures { Grew text.old text.new (point_text (pt_of p)) }
{
    text.push_number(p.x);
    text.push(b' ');
    text.push_number(p.y);
}

// An area without holes: the corners of a ring in two parentheses, the first again at the end.
fn write_area(text: &mut Text, points: &Points, ring: &[u32])
    requires known { Each (λ i. i < length (listed points.now)) ring.now }
    requires some { 0 < length ring.now }
    requires room { Takes text.old (area_text (Rules.points (listed points.now) ring.now)) }
    ensures { Grew text.old text.new (area_text (Rules.points (listed points.now) ring.now)) }
{
    text.push_word(b"((");
    for i in ring {
        write_point(text, points.at(*i as usize));
        text.push_word(PARTING);
    }
    write_point(text, points.at(ring[0] as usize));
    text.push_word(b"))");
}

// The numbers of the most points.
fn numbers() -> [u32; MOST_POINTS]
    ensures { result ≡ count_from 0 most_points }
{
    let mut all = [0; MOST_POINTS];
    for i in 0..MOST_POINTS {
        all[i] = i as u32;
    }
    all
}

// Writes an outline as a POLYGON line, and answers where it ends.
fn write_outline(points: &Points, out: &mut [u8]) -> usize
    requires some { 0 < length (listed points.now) }
    requires at_most { length (listed points.now) ≤ most_points }
    requires room { Room out.old 0 (polygon_line (listed points.now)) }
    ensures { Wrote out.old out.new 0 result (polygon_line (listed points.now)) }
{
    let all = numbers();
    let mut text = Text { out, end: 0 };
    text.push_word(b"POLYGON ");
    write_area(&mut text, points, &all[..points.count()]);
    text.end
}

// Writes an outline as a POLYGON line.
pub fn write_polygon(coords: &[f32], out: &mut [u8]) -> Result<u32, Refusal>
    ensures { PolygonPromise coords.now out.old (answer_of result) out.new }
{
    let points = Points::new(1, MOST_POINTS, coords)?;
    if out.len() < 23 + 13 * points.count() {
        return Err(Refusal::TooLittleRoom);
    }
    let end = write_outline(&points, out);
    Ok(end as u32)
}

// Writes areas, whose corner numbers stand one behind the other, with their lengths, as a MULTIPOLYGON line, and answers where it ends.
pub fn write_multipolygon(
    points: &Points,
    indices: &[u32],
    lengths: &[u32],
    out: &mut [u8],
) -> usize
    requires known { Each (λ i. i < length (listed points.now)) indices.now }
    requires some { 0 < length lengths.now }
    requires in_bounds { sum lengths.now ≤ length indices.now }
    requires no_empty { Each (λ n. 0 < n) lengths.now }
    requires room { Room out.old 0 (multipolygon_line (map (Rules.points (listed points.now)) (split lengths.now indices.now))) }
    ensures { Wrote out.old out.new 0 result (multipolygon_line (map (Rules.points (listed points.now)) (split lengths.now indices.now))) }
{
    let mut text = Text { out, end: 0 };
    text.push_word(b"MULTIPOLYGON (");
    let (area, mut rest) = indices.split_at(lengths[0] as usize);
    write_area(&mut text, points, area);
    let others = &lengths[1..];
    for n in others {
        let (area, behind) = rest.split_at(*n as usize);
        text.push_word(PARTING);
        write_area(&mut text, points, area);
        rest = behind;
    }
    text.push(b')');
    text.end
}
