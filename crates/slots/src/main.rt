// Outlines that pass a point twice (request M-103): each is cut and merged, and its triangles and areas are held against it at every grid point around.
#![tactic(auto)]

mod rings;
mod runs;

use runs::run;
use std::io;

// A hole is drawn by a slot: in along a line, round the hole clockwise, back along the line.
const HOLES: [(&str, &str); 5] = [
    (
        "A plate with one hole",
        "POLYGON ((0 0, 40 0, 40 30, 0 30, 0 12, 12 12, 12 18, 17 23, 23 23, 28 18, 28 12, 23 7, 17 7, 12 12, 0 12, 0 0))",
    ),
    (
        "A plate with two holes, by a slot from either side",
        "POLYGON ((0 0, 40 0, 40 15, 34 15, 34 9, 24 9, 24 21, 34 21, 34 15, 40 15, 40 30, 0 30, 0 15, 6 15, 6 21, 16 21, 16 9, 6 9, 6 15, 0 15, 0 0))",
    ),
    (
        "Two holes, the second by a slot from the first",
        "POLYGON ((0 0, 40 0, 40 30, 0 30, 0 15, 6 15, 6 21, 16 21, 16 15, 24 15, 24 21, 34 21, 34 9, 24 9, 24 15, 16 15, 16 9, 6 9, 6 15, 0 15, 0 0))",
    ),
    (
        "A slot that ends at a corner of the plate",
        "POLYGON ((0 0, 40 0, 40 30, 0 30, 0 0, 12 8, 12 22, 28 22, 28 8, 12 8, 0 0))",
    ),
    (
        "A hole within reach of another's slot",
        "POLYGON ((0 0, 40 0, 40 30, 0 30, 0 15, 24 15, 30 21, 36 15, 30 9, 24 15, 0 15, 10 13, 16 11, 16 4, 8 4, 10 13, 0 15, 0 0))",
    ),
];

// Two outlines that touch in one point, as one ring: a hole and the plate, and two plates, whose n - 2 triangles are two more than they need.
const TOUCHING: [(&str, &str); 2] = [
    (
        "A hole that touches the plate's border",
        "POLYGON ((0 0, 40 0, 40 30, 0 30, 0 15, 12 24, 24 15, 12 6, 0 15, 0 0))",
    ),
    (
        "Two plates that touch in one corner",
        "POLYGON ((0 0, 20 0, 20 15, 40 15, 40 30, 20 30, 20 15, 0 15, 0 0))",
    ),
];

fn main(rt: HostRuntime) -> io::Result<()> {
    println!(rt; "Slots")?;
    for (name, line) in HOLES {
        run(&rt, name, line)?;
    }
    println!(rt; "\nTouching in one point")?;
    for (name, line) in TOUCHING {
        run(&rt, name, line)?;
    }
    Ok(())
}
