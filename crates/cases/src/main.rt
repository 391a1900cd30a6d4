// Document 01's cases and the runs beside them, printed for a person to read: each outline cut, the triangles merged, spots asked, and the
// hulls of clouds.
#![tactic(auto)]

mod shapes;
mod show;

use show::{ask, ask_convex, cut, cut_large, hull, merge, merge_large};
use std::io;

// P.
const SQUARE: [f32; 8] = [0.0, 0.0, 4.0, 0.0, 4.0, 4.0, 0.0, 4.0];

// A merge with room for four triangles.
fn merge_few(rt: &impl Print, name: &str, coords: &[f32], triangles: &[u32]) -> io::Result<()> {
    merge(rt, name, coords, triangles, &mut [9u32; 12], &mut [9u32; 4])
}

// K1 to K6: P, the arrow Q, a triangle, P backwards.
fn shapes_cut(rt: &impl Print) -> io::Result<()> {
    let q = [0.0f32, 0.0, 2.0, 1.0, 4.0, 0.0, 2.0, 4.0];
    let t = [0.0f32, 0.0, 4.0, 0.0, 0.0, 4.0];
    let back = [0.0f32, 0.0, 0.0, 4.0, 4.0, 4.0, 4.0, 0.0];
    cut(rt, "K1  P cut", &SQUARE, &mut [9u32; 6])?;
    merge_few(rt, "K2  K1 merged", &SQUARE, &[2u32, 3, 0, 2, 0, 1])?;
    cut(rt, "K3  Q cut", &q, &mut [9u32; 6])?;
    merge_few(rt, "K4  K3 merged", &q, &[1u32, 2, 3, 3, 0, 1])?;
    cut(rt, "K5  a triangle cut", &t, &mut [9u32; 3])?;
    cut(rt, "K6  P backwards cut", &back, &mut [9u32; 6])
}

// K7 to K12: P asked on its border, P with too little room, a root.
fn square_asked(rt: &impl Print) -> io::Result<()> {
    ask(rt, "K7  P asked at (0,2)", 0.0, 2.0, &SQUARE)?;
    ask(rt, "K8  P asked at (4,2)", 4.0, 2.0, &SQUARE)?;
    ask(rt, "K9  P asked at (2,0)", 2.0, 0.0, &SQUARE)?;
    ask(rt, "K10 P asked at (2,4)", 2.0, 4.0, &SQUARE)?;
    cut(rt, "K11 P with five slots", &SQUARE, &mut [9u32; 5])?;
    let bits = words::bits(root::root(2));
    println!(rt; "K12 root of 2 by 2^23: {}", bits % 8388608 + 8388608)
}

// The limits of the point tests: few corners.
fn spots_of_few(rt: &impl Print) -> io::Result<()> {
    let none = [0.0f32; 0];
    let one = [1.0f32, 1.0];
    let two = [0.0f32, 0.0, 2.0, 2.0];
    ask(rt, "no corners", 0.0, 0.0, &none)?;
    ask(rt, "one corner, asked there", 1.0, 1.0, &one)?;
    ask(rt, "one corner, asked beside it", 1.0, 2.0, &one)?;
    ask(rt, "two corners, between them", 1.0, 1.0, &two)?;
    ask(rt, "two corners, beyond them", 9.0, 9.0, &two)?;
    ask_convex(rt, "no corners, convex", 0.0, 0.0, &none)?;
    ask_convex(rt, "one corner, convex", 7.0, -9.0, &one)?;
    ask_convex(rt, "two corners, convex, on their line", 9.0, 9.0, &two)?;
    ask_convex(rt, "two corners, convex, off their line", 9.0, 8.0, &two)
}

// Inside, outside, and the border: P, and P with a slot to its middle.
fn spots_by_the_border(rt: &impl Print) -> io::Result<()> {
    let slotted = [
        0.0f32, 0.0, 4.0, 0.0, 4.0, 2.0, 2.0, 2.0, 4.0, 2.0, 4.0, 4.0, 0.0, 4.0,
    ];
    ask(rt, "P asked at (2,2)", 2.0, 2.0, &SQUARE)?;
    ask(rt, "P asked at (5,2)", 5.0, 2.0, &SQUARE)?;
    ask(rt, "P at a corner", 4.0, 4.0, &SQUARE)?;
    ask(rt, "P on the prolongation of an edge", 6.0, 0.0, &SQUARE)?;
    ask(rt, "on the line of a slot", 3.0, 2.0, &slotted)?;
    ask(rt, "at the end of the slot", 2.0, 2.0, &slotted)?;
    ask(
        rt,
        "on its prolongation, level with its corners",
        1.0,
        2.0,
        &slotted,
    )
}

// And the grid.
fn spots_on_the_grid(rt: &impl Print) -> io::Result<()> {
    let odd = [0.0f32, 0.0, 4.0];
    let minus_zero = [-0.0f32, -0.0, 4.0, 0.0, 4.0, 4.0, 0.0, 4.0];
    let off = [0.0f32, 0.0, 1025.0, 0.0, 4.0, 4.0];
    let half = [0.0f32, 0.0, 0.5, 0.0, 4.0, 4.0];
    ask(rt, "an odd number of coordinates", 0.0, 0.0, &odd)?;
    ask(rt, "minus zero for zero", 0.0, 2.0, &minus_zero)?;
    ask(rt, "asked at minus zero", -0.0, 2.0, &minus_zero)?;
    ask(rt, "a corner at 1025", 1.0, 1.0, &off)?;
    ask(rt, "a corner at a half", 1.0, 1.0, &half)?;
    ask(rt, "asked at 1024", 1024.0, 2.0, &minus_zero)?;
    ask(rt, "asked at 1025", 1025.0, 2.0, &minus_zero)?;
    ask(rt, "asked at no number", 0.0 / 0.0, 2.0, &minus_zero)
}

// At 512 and 513 corners.
fn spots_of_many(rt: &impl Print, border: &[f32; 1026]) -> io::Result<()> {
    ask(rt, "512 corners", 64.0, 64.0, &border[..1024])?;
    ask(rt, "513 corners", 64.0, 64.0, border)?;
    ask_convex(rt, "512 corners, convex", 64.0, 64.0, &border[..1024])?;
    ask(rt, "1025 coordinates", 64.0, 64.0, &border[..1025])
}

// The limits of the cutter, and its worst shapes.
fn outlines(rt: &impl Print) -> io::Result<()> {
    let none = [0.0f32; 0];
    let twice = [0.0f32, 0.0, 0.0, 0.0, 4.0, 0.0];
    let still_blocks = [0.0f32, 0.0, 1.0, 0.0, 0.0, 1.0, 2.0, 0.0, 2.0, 2.0];
    cut(rt, "no corners", &none, &mut [9u32; 0])?;
    cut(
        rt,
        "two equal neighbours and no room",
        &twice,
        &mut [9u32; 0],
    )?;
    cut(
        rt,
        "a cut point that still blocks",
        &still_blocks,
        &mut [9u32; 9],
    )
}

// Areas that are not above zero, and one that is though the last triangle goes clockwise.
fn outlines_by_area(rt: &impl Print) -> io::Result<()> {
    let clockwise = [0.0f32, 0.0, 0.0, 4.0, 4.0, 0.0];
    let straight = [0.0f32, 0.0, 1.0, 0.0, 2.0, 0.0, 3.0, 0.0];
    let back = [0.0f32, 0.0, 1.0, 0.0, 0.0, 0.0, 0.0, 1.0];
    let crossed_over = [0.0f32, 0.0, 0.0, 1.0, 1.0, 0.0, 1.0, 2.0];
    cut(rt, "a clockwise triangle", &clockwise, &mut [9u32; 3])?;
    cut(rt, "the same with no room", &clockwise, &mut [9u32; 0])?;
    cut(rt, "four on a line", &straight, &mut [9u32; 6])?;
    cut(rt, "there and back", &back, &mut [9u32; 6])?;
    cut(
        rt,
        "a last triangle that is clockwise",
        &crossed_over,
        &mut [9u32; 6],
    )
}

// No ear at the first, and after one cut.
fn outlines_without_ear(rt: &impl Print) -> io::Result<()> {
    let none = [0.0f32, 0.0, 0.0, 1.0, 1.0, 1.0, 2.0, 0.0, 0.0, 2.0];
    let later = [0.0f32, 0.0, 1.0, 1.0, 0.0, 1.0, 2.0, 0.0, 0.0, 2.0];
    cut(rt, "no ear", &none, &mut [9u32; 9])?;
    cut(rt, "the same with a slot too few", &none, &mut [9u32; 8])?;
    cut(rt, "no ear after one cut", &later, &mut [9u32; 9])
}

// At 512 and 513 corners, and the worst shapes.
fn outlines_of_many(
    rt: &impl Print,
    border: &[f32; 1026],
    comb: &[f32],
    spiral: &[f32],
) -> io::Result<()> {
    cut_large(rt, "512 corners round a square", &border[..1024])?;
    cut_large(rt, "513 corners", border)?;
    cut_large(rt, "1025 coordinates", &border[..1025])?;
    cut_large(rt, "a comb of 512 corners", comb)?;
    cut_large(rt, "a spiral of 64 corners", spiral)
}

// The largest area and the smallest.
fn largest_areas(rt: &impl Print, round: &[f32], backwards: &[f32]) -> io::Result<()> {
    cut_large(rt, "128 times round the grid", round)?;
    cut_large(rt, "the same backwards", backwards)
}

// The limits of the merger.
fn triangle_lists(rt: &impl Print) -> io::Result<()> {
    let moved = [2u32, 3, 0, 2, 0, 1, 2, 3, 0, 1, 2, 3];
    merge_few(rt, "no triangles", &SQUARE, &[0u32; 0])?;
    merge_few(rt, "two indices", &SQUARE, &[0u32, 1])?;
    merge_few(rt, "an index not below the points", &SQUARE, &[0u32, 1, 4])?;
    merge_few(rt, "repeated indices", &SQUARE, &[0u32, 0, 0, 1, 1, 1])?;
    merge_few(rt, "the last piece moves", &SQUARE, &moved)
}

// At 510 and 511 triangles.
fn lists_of_many(rt: &impl Print) -> io::Result<()> {
    merge_large(rt, "510 triangles of one point", &SQUARE, &[0u32; 1530])?;
    merge_large(rt, "511 triangles", &SQUARE, &[0u32; 1533])
}

// Clouds: points in and on a square, equals, straight corners, and where the crate answers otherwise.
fn clouds(rt: &impl Print) -> io::Result<()> {
    let middle = [2.0f32, 2.0, 0.0, 0.0, 4.0, 0.0, 4.0, 4.0, 0.0, 4.0];
    let kept = [0.0f32, 0.0, 6.0, 0.0, 2.0, 4.0, 1.0, 4.0, 4.0, 4.0];
    let left_out = [0.0f32, 0.0, 6.0, 0.0, 1.0, 4.0, 2.0, 4.0, 4.0, 4.0];
    let slanted = [-3.0f32, -4.0, 1.0, 0.0, 1.0, 3.0, -2.0, 0.0, -3.0, -1.0];
    let rounded = [
        45.0f32, -50.0, 60.0, -110.0, -85.0, 70.0, 240.0, -230.0, -20.0, 10.0,
    ];
    hull(rt, "a square and its middle", &middle, &mut [9u32; 5])?;
    hull(rt, "a straight corner that stays", &kept, &mut [9u32; 5])?;
    hull(rt, "the same in another order", &left_out, &mut [9u32; 5])?;
    hull(
        rt,
        "a cloud with a straight corner in the crate",
        &slanted,
        &mut [9u32; 5],
    )?;
    hull(
        rt,
        "a cloud whose ring turns back in the crate",
        &rounded,
        &mut [9u32; 5],
    )
}

// The limits of the hull.
fn clouds_refused(rt: &impl Print, border: &[f32; 1026]) -> io::Result<()> {
    let line = [0.0f32, 0.0, 2.0, 1.0, 6.0, 3.0];
    hull(rt, "three on a line and no room", &line, &mut [9u32; 0])?;
    hull(rt, "two points", &line[..4], &mut [9u32; 2])?;
    hull(rt, "one point", &line[..2], &mut [9u32; 1])?;
    hull(rt, "a square with three slots", &SQUARE, &mut [9u32; 3])?;
    hull(
        rt,
        "512 points round a square",
        &border[..1024],
        &mut [9u32; 512],
    )?;
    hull(rt, "513 points", border, &mut [9u32; 513])
}

// A cover with two bolt ears: 12 corners.
fn cover(rt: &impl Print) -> io::Result<()> {
    let cover = [
        0.0f32, 0.0, 40.0, 0.0, 44.0, 8.0, 52.0, 8.0, 52.0, 16.0, 44.0, 16.0, 40.0, 24.0, 0.0,
        24.0, -4.0, 16.0, -12.0, 16.0, -12.0, 8.0, -4.0, 8.0,
    ];
    cut(
        rt,
        "a cover with two bolt ears, cut",
        &cover,
        &mut [9u32; 30],
    )?;
    let cut_cover = [
        9u32, 10, 11, 8, 9, 11, 3, 4, 5, 2, 3, 5, 6, 7, 8, 6, 8, 11, 6, 11, 0, 6, 0, 1, 5, 6, 1, 5,
        1, 2,
    ];
    merge(
        rt,
        "the same, merged",
        &cover,
        &cut_cover,
        &mut [9u32; 30],
        &mut [9u32; 10],
    )?;
    ask(rt, "its middle", 20.0, 12.0, &cover)?;
    ask(rt, "the left ear", -8.0, 12.0, &cover)?;
    ask(rt, "beside the left ear", -8.0, 4.0, &cover)
}

// All of these at many corners.
fn many(rt: &impl Print) -> io::Result<()> {
    let border = shapes::border();
    spots_of_many(rt, &border)?;
    outlines_of_many(rt, &border, &shapes::comb(), &shapes::spiral())?;
    largest_areas(
        rt,
        &shapes::round_the_grid(1.0),
        &shapes::round_the_grid(-1.0),
    )
}

fn main(rt: HostRuntime) -> io::Result<()> {
    println!(rt; "The twelve small cases")?;
    shapes_cut(&rt)?;
    square_asked(&rt)?;
    println!(rt; "\nSpots")?;
    spots_by_the_border(&rt)?;
    spots_of_few(&rt)?;
    spots_on_the_grid(&rt)?;
    println!(rt; "\nOutlines")?;
    outlines(&rt)?;
    outlines_by_area(&rt)?;
    outlines_without_ear(&rt)?;
    println!(rt; "\nTriangle lists")?;
    triangle_lists(&rt)?;
    lists_of_many(&rt)?;
    println!(rt; "\nMany corners")?;
    many(&rt)?;
    println!(rt; "\nClouds")?;
    clouds(&rt)?;
    clouds_refused(&rt, &shapes::border())?;
    println!(rt; "\nRoots")?;
    show::roots(&rt)?;
    println!(rt; "\nA cover")?;
    cover(&rt)
}
