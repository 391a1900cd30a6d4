// Writes a name and what an entry gave back as one line.
use convex_hull2::convex_hull2_idx;
use ear_clipping::triangulate_ear_clipping;
use entries::{MOST_INDICES, MOST_TRIANGLES, Refusal};
use hertel_mehlhorn::hertel_mehlhorn_idx;
use point_in_poly2d::{Position, point_in_convex_poly2d, point_in_poly2d};
use std::{fmt, io};

// A group of indices.
#[derive(Clone, Copy)]
struct Group<'a>(&'a [u32]);

impl fmt::Display for Group<'_> {
    fn fmt<W: fmt::Write>(&self, f: &mut fmt::Formatter<W>) -> fmt::Result {
        f.write_str("(")?;
        if let Some((first, others)) = self.0.split_first() {
            write!(f, "{first}")?;
            for index in others {
                write!(f, ",{index}")?;
            }
        }
        f.write_str(")")
    }
}

// The groups of indices that stand one behind the other, by their lengths.
#[derive(Clone, Copy)]
struct Groups<'a> {
    indices: &'a [u32],
    lengths: &'a [u32],
}

impl fmt::Display for Groups<'_> {
    fn fmt<W: fmt::Write>(&self, f: &mut fmt::Formatter<W>) -> fmt::Result {
        let mut rest = self.indices;
        for length in self.lengths {
            let (group, behind) = rest.split_at(rest.len().min(*length as usize));
            write!(f, " {}", Group(group))?;
            rest = behind;
        }
        Ok(())
    }
}

// A refusal, or how many of `what` there are and the groups of their indices.
fn tell_groups(
    rt: &impl Print,
    name: &str,
    what: &str,
    outcome: Result<u32, Refusal>,
    indices: &[u32],
    lengths: &[u32],
) -> io::Result<()> {
    match outcome {
        Err(refusal) => println!(rt; "{name}: refused, {refusal}"),
        Ok(count) => {
            let lengths = &lengths[..lengths.len().min(count as usize)];
            println!(rt; "{name}: {what} {count}:{}", Groups { indices, lengths })
        }
    }
}

// A refusal, or only how many of `what` there are, where there is too much to read.
fn tell_count(
    rt: &impl Print,
    name: &str,
    what: &str,
    outcome: Result<u32, Refusal>,
) -> io::Result<()> {
    match outcome {
        Err(refusal) => println!(rt; "{name}: refused, {refusal}"),
        Ok(count) => println!(rt; "{name}: {what} {count}"),
    }
}

pub fn cut(rt: &impl Print, name: &str, coords: &[f32], indices: &mut [u32]) -> io::Result<()> {
    let cut = triangulate_ear_clipping(coords, indices);
    tell_groups(rt, name, "triangles", cut, indices, &[3u32; MOST_TRIANGLES])
}

pub fn cut_large(rt: &impl Print, name: &str, coords: &[f32]) -> io::Result<()> {
    let cut = triangulate_ear_clipping(coords, &mut [0u32; MOST_INDICES]);
    tell_count(rt, name, "triangles", cut)
}

pub fn merge(
    rt: &impl Print,
    name: &str,
    coords: &[f32],
    triangles: &[u32],
    indices: &mut [u32],
    lengths: &mut [u32],
) -> io::Result<()> {
    let merged = hertel_mehlhorn_idx(coords, triangles, indices, lengths);
    tell_groups(rt, name, "pieces", merged, indices, lengths)
}

pub fn merge_large(
    rt: &impl Print,
    name: &str,
    coords: &[f32],
    triangles: &[u32],
) -> io::Result<()> {
    let mut indices = [0u32; MOST_INDICES];
    let mut lengths = [0u32; MOST_TRIANGLES];
    let merged = hertel_mehlhorn_idx(coords, triangles, &mut indices, &mut lengths);
    tell_count(rt, name, "pieces", merged)
}

pub fn hull(rt: &impl Print, name: &str, coords: &[f32], indices: &mut [u32]) -> io::Result<()> {
    match convex_hull2_idx(coords, indices) {
        Err(refusal) => println!(rt; "{name}: refused, {refusal}"),
        Ok(count) => {
            let corners = Group(&indices[..indices.len().min(count as usize)]);
            println!(rt; "{name}: corners {count}: {corners}")
        }
    }
}

fn tell_position(
    rt: &impl Print,
    name: &str,
    outcome: Result<Position, Refusal>,
) -> io::Result<()> {
    match outcome {
        Err(refusal) => println!(rt; "{name}: refused, {refusal}"),
        Ok(Position::Outside) => println!(rt; "{name}: outside"),
        Ok(Position::Inside) => println!(rt; "{name}: inside"),
        Ok(Position::Border) => println!(rt; "{name}: border"),
    }
}

pub fn ask(rt: &impl Print, name: &str, x: f32, y: f32, coords: &[f32]) -> io::Result<()> {
    tell_position(rt, name, point_in_poly2d(x, y, coords))
}

pub fn ask_convex(rt: &impl Print, name: &str, x: f32, y: f32, coords: &[f32]) -> io::Result<()> {
    tell_position(rt, name, point_in_convex_poly2d(x, y, coords))
}

// Some dozen roots, by their bits.
pub fn roots(rt: &impl Print) -> io::Result<()> {
    let radicands = [
        0u32, 1, 2, 3, 4, 5, 6, 7, 8, 9, 10, 15, 16, 17, 24, 25, 26, 99, 100, 101, 1023, 1024,
        1025, 65535, 65536, 65537, 1048575, 1048576, 4194303, 4194304, 4194305, 8388607, 8388608,
    ];
    for m in radicands {
        if m <= 8388608 {
            println!(rt; "{m}: {}", words::bits(root::root(m)))?;
        }
    }
    Ok(())
}
