// One run: an outline cut and merged, and its triangles and areas held against it.
use crate::rings::{Rings, Spot, area, ask, corners};
use ear_clipping::triangulate_ear_clipping;
use entries::{MOST_COORDINATES, MOST_INDICES, MOST_TRIANGLES};
use hertel_mehlhorn::hertel_mehlhorn_idx;
use point_in_poly2d::Position::{Border, Inside};
use std::io;
use wkt::read::read_polygon;

// The spots: all grid points from (-2, -2) to (42, 32).
const COLUMNS: u16 = 45;

const ROWS: u16 = 35;

const SPOTS: u16 = COLUMNS * ROWS;

// Number i of them, row by row.
fn spot(i: u16) -> Spot {
    Spot {
        x: f32::from(i % COLUMNS) - 2.0,
        y: f32::from(i / COLUMNS) - 2.0,
    }
}

// What the rings of a list have in common with the outline.
fn compare(
    rt: &impl Print,
    coords: &[f32],
    what: &str,
    indices: &[u32],
    lengths: &[u32],
) -> io::Result<()> {
    let corners = corners(coords, indices);
    let rings = Rings {
        corners: &corners,
        lengths,
    };
    print!(rt;
        "  {} {what}, {} of them clockwise: ",
        lengths.len(),
        rings.clockwise()
    )?;
    if rings.area() == area(coords.as_chunks::<2>().0) {
        print!(rt; "the same doubled area, ")?;
    } else {
        print!(rt; "another doubled area, ")?;
    }
    let compared = |i: u16| (rings.position(spot(i)), ask(spot(i), coords));
    let otherwise = (0..SPOTS)
        .map(compared)
        .filter(|(rings, outline)| *rings != Border && rings != outline);
    match otherwise.count() {
        0 => print!(rt; "the same points, ")?,
        n => print!(rt; "another answer at {n} points, ")?,
    }
    let left_out = (0..SPOTS)
        .map(compared)
        .filter(|(rings, outline)| *rings == Border && *outline != Border);
    println!(rt; "{} on the lines between them left out", left_out.count())
}

fn cut_and_merge(rt: &impl Print, coords: &[f32]) -> io::Result<()> {
    let mut triangles = [0u32; MOST_INDICES];
    let mut areas = [0u32; MOST_INDICES];
    let mut lengths = [0u32; MOST_TRIANGLES];
    let count = match triangulate_ear_clipping(coords, &mut triangles) {
        Ok(count) => MOST_TRIANGLES.min(count as usize),
        Err(refusal) => return println!(rt; "  refused, {refusal}"),
    };
    let triangles = &triangles[..3 * count];
    compare(
        rt,
        coords,
        "triangles",
        triangles,
        &[3u32; MOST_TRIANGLES][..count],
    )?;
    match hertel_mehlhorn_idx(coords, triangles, &mut areas, &mut lengths) {
        Ok(count) => {
            let lengths = &lengths[..MOST_TRIANGLES.min(count as usize)];
            compare(rt, coords, "areas", &areas, lengths)
        }
        Err(refusal) => println!(rt; "  refused, {refusal}"),
    }
}

pub fn run(rt: &impl Print, name: &str, line: &str) -> io::Result<()> {
    println!(rt; "{name}\n  {line}")?;
    let mut room = [0.0f32; MOST_COORDINATES];
    let count = match read_polygon(line.as_bytes(), &mut room) {
        Ok(count) => MOST_COORDINATES.min(2 * count as usize),
        Err(refusal) => return println!(rt; "  refused, {refusal}"),
    };
    let coords = &room[..count];
    let inside = (0..SPOTS).filter(|i| ask(spot(*i), coords) == Inside);
    let border = (0..SPOTS).filter(|i| ask(spot(*i), coords) == Border);
    println!(rt;
        "  {} inside and {} on the border of {SPOTS} grid points",
        inside.count(),
        border.count()
    )?;
    cut_and_merge(rt, coords)
}
