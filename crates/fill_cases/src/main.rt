// Lines filled by both plans, printed for a person to read: the request's example, each refusal, and the longest lines. What is in form and
// on the grid is also written back.
#![tactic(auto)]

mod build;
mod show;

use show::{fill_each, fill_named, fill_with_room};
use std::io;

// The request's square, an area with a corner that turns right, a triangle as wide as the grid.
const FILLED: [&str; 4] = [
    "POLYGON ((0 0, 4 0, 4 4, 0 4, 0 0))",
    "POLYGON ((0 0, 2 1, 4 0, 2 4, 0 0))",
    "POLYGON ((-1024 -1024, 1024 -1024, 0 1024, -1024 -1024))",
    "POLYGON ((0 0, 300 0, 320 20, 320 130, 300 150, 150 150, 150 400, 0 400, 0 0))",
];

// In form, and refused by document 01's numbers: too few corners, off the grid.
const REFUSED_BY_NUMBERS: [&str; 5] = [
    "POLYGON ((5 5, 5 5))",
    "POLYGON ((5 5, 6 6, 5 5))",
    "POLYGON ((0 0, 1025 0, 0 4, 0 0))",
    "POLYGON ((0 0, 4 0, 0 -1025, 0 0))",
    "POLYGON ((99999 0, 1 0, 1 1, 99999 0))",
];

// Equal neighbours, an area that is not above zero, no ear.
const REFUSED_BY_RING: [&str; 6] = [
    "POLYGON ((0 0, 0 0, 4 0, 0 0))",
    "POLYGON ((0 0, 4 0, 0 4, 0 4, 0 0))",
    "POLYGON ((0 0, 0 4, 4 0, 0 0))",
    "POLYGON ((0 0, 0 4, 4 4, 4 0, 0 0))",
    "POLYGON ((0 0, 1 0, 2 0, 3 0, 0 0))",
    "POLYGON ((0 0, 0 1, 1 1, 2 0, 0 2, 0 0))",
];

// 6, which the program never gives: two triangles may take 127 bytes.
fn little_room(rt: &impl Print) -> io::Result<()> {
    let square = "POLYGON ((0 0, 4 0, 4 4, 0 4, 0 0))";
    let backwards = "POLYGON ((0 0, 0 4, 4 4, 4 0, 0 0))";
    fill_with_room(
        rt,
        "a square with room of 126 bytes",
        square,
        &mut [9u8; 126],
    )?;
    fill_with_room(
        rt,
        "a square with room of 127 bytes",
        square,
        &mut [9u8; 127],
    )?;
    fill_with_room(
        rt,
        "backwards with room of 126 bytes",
        backwards,
        &mut [9u8; 126],
    )?;
    fill_with_room(
        rt,
        "without an ear with room of 182 bytes",
        "POLYGON ((0 0, 0 1, 1 1, 2 0, 0 2, 0 0))",
        &mut [9u8; 182],
    )
}

// Not in form, by the closing point.
const CLOSING_POINTS: [&str; 3] = [
    "POLYGON ((5 5))",
    "POLYGON ((99999 0, 1 0, 1 1, 88888 0))",
    "POLYGON ((0 0, 4 0, 0 4, 0 1))",
];

// By a number.
const NUMBERS: [&str; 6] = [
    "POLYGON ((00 0, 4 0, 0 4, 00 0))",
    "POLYGON ((0 0, 04 0, 0 4, 0 0))",
    "POLYGON ((-0 0, 4 0, 0 4, -0 0))",
    "POLYGON ((+1 0, 4 0, 0 4, +1 0))",
    "POLYGON ((0.0 0, 4 0, 0 4, 0.0 0))",
    "POLYGON ((- 0, 4 0, 0 4, - 0))",
];

// By what stands in front of the points.
const OPENINGS: [&str; 5] = [
    "",
    "POLYGON EMPTY",
    "POLYGON((0 0, 4 0, 0 4, 0 0))",
    "polygon ((0 0, 4 0, 0 4, 0 0))",
    " POLYGON ((0 0, 4 0, 0 4, 0 0))",
];

// Between them.
const PARTINGS: [&str; 4] = [
    "POLYGON (())",
    "POLYGON ((0, 4 0, 0 4, 0))",
    "POLYGON ((0 0,4 0,0 4,0 0))",
    "POLYGON ((0  0, 4 0, 0 4, 0 0))",
];

// And behind them.
const ENDINGS: [&str; 3] = [
    "POLYGON ((0 0, 4 0, 0 4, 0 0)",
    "POLYGON ((0 0, 4 0, 0 4, 0 0)) ",
    "POLYGON ((0 0, 4 0, 0 4, 0 0), (1 1, 2 1, 1 2, 1 1))",
];

// Numbers of 4,082 digits: 8,192 bytes, and one more.
fn long_numbers(rt: &impl Print) -> io::Result<()> {
    let longest = build::digits(" 0, 1 0, 1 1, ");
    fill_named(rt, "two numbers of 4,082 digits", longest.as_bytes())?;
    let longer = build::digits(" 0, 10 0, 1 1, ");
    fill_named(rt, "one digit more", longer.as_bytes())
}

// 512 corners and 513.
fn many_corners(rt: &impl Print) -> io::Result<()> {
    let most = build::corners(512, "0 0))");
    fill_named(rt, "512 corners, all the same", most.as_bytes())?;
    let more = build::corners(513, "0 0))");
    fill_named(rt, "513 corners", more.as_bytes())
}

// What comes behind the last of them.
fn behind_many_corners(rt: &impl Print) -> io::Result<()> {
    let parted = build::corners(513, "0 0) )");
    fill_named(
        rt,
        "513 corners, and a space before the last parenthesis",
        parted.as_bytes(),
    )?;
    let open = build::corners(513, "0 1))");
    fill_named(
        rt,
        "513 corners, and another closing point",
        open.as_bytes(),
    )
}

fn main(rt: HostRuntime) -> io::Result<()> {
    println!(rt; "Filled")?;
    fill_each(&rt, &FILLED)?;
    println!(rt; "Refused")?;
    fill_each(&rt, &REFUSED_BY_NUMBERS)?;
    fill_each(&rt, &REFUSED_BY_RING)?;
    little_room(&rt)?;
    println!(rt; "Not in form")?;
    fill_each(&rt, &CLOSING_POINTS)?;
    fill_each(&rt, &NUMBERS)?;
    fill_each(&rt, &OPENINGS)?;
    fill_each(&rt, &PARTINGS)?;
    fill_named(&rt, "a tab for a space", b"POLYGON ((0\t0, 4 0, 0 4, 0 0))")?;
    fill_each(&rt, &ENDINGS)?;
    fill_named(
        &rt,
        "a carriage return",
        b"POLYGON ((0 0, 4 0, 0 4, 0 0))\r",
    )?;
    println!(rt; "Long lines")?;
    long_numbers(&rt)?;
    many_corners(&rt)?;
    behind_many_corners(&rt)?;
    fill_named(&rt, "stairs of 512 corners", build::stairs().as_bytes())
}
