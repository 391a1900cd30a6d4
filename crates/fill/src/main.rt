// Reads the first line of standard input, an outline as a POLYGON line, and writes what fills it as a MULTIPOLYGON line, or the number of the
// refusal alone on a line. Without words it is filled by merged areas, with the word `triangles` by the triangles of the cut.
#![tactic(auto)]

ghost use Rattle.std.specs.Prelude.{IfOk, OnOk, ◌≤◌, ◌≡◌, length, take};
ghost use Rattle.std.specs.Io.KnownBytes.{Appends};

use entries::Refusal;
use fill_line::{fill_areas, fill_triangles, text_room};
use input::{is_given, more};
use lines::line_end;
use std::env::{Env, FillError};
use std::io::{Read, Write};
use std::{fmt, io};
use wkt::read::MOST_BYTES;

#[derive(Clone, Copy, Debug, PartialEq, Eq)]
enum Plan {
    Areas,
    Triangles,
}

// Which plan the words ask for, if they name one. A longer word than `triangles` names none.
fn asked(rt: &impl Env) -> Option<Plan> {
    let mut word = [0u8; 9];
    match rt.arg(1, &mut word) {
        Err(FillError::NotPresent) => Some(Plan::Areas),
        Ok(n) if !is_given(rt, 2) && &word[..n] == b"triangles".as_slice() => Some(Plan::Triangles),
        _ => None,
    }
}

// Why nothing is answered.
#[derive(Clone, Copy, Debug, PartialEq, Eq)]
enum Failure {
    Unread,
    Unwritten,
}

impl fmt::Display for Failure {
    fn fmt<W: fmt::Write>(&self, f: &mut fmt::Formatter<W>) -> fmt::Result {
        f.write_str(match self {
            Failure::Unread => "standard input cannot be read",
            Failure::Unwritten => "standard output cannot be written",
        })
    }
}

// A line of the most bytes and its newline.
const MOST_INPUT: usize = MOST_BYTES + 1;

// Reads until a newline has come, the room is full or the input ends, and answers how many bytes there are.
fn read_line<R: Read>(reader: &mut R, list: &mut [u8]) -> io::Result<usize>
    ensures in_bounds { IfOk result (λ have. have ≤ length list.old) }
    ensures list_len_unchanged { length list.new ≡ length list.old }
{
    let mut have = 0;
    while have < list.len() {
        let came = more(reader, list, have)?;
        let from = have;
        have += came;
        if came == 0 || list[from..have].contains(&b'\n') {
            break;
        }
    }
    Ok(have)
}

fn fill(plan: Plan, line: &[u8], out: &mut [u8]) -> Result<u32, Refusal>
    ensures in_bounds { IfOk result (λ count. count ≤ length out.old) }
    ensures out_len_unchanged { length out.new ≡ length out.old }
{
    match plan {
        Plan::Areas => fill_areas(line, out),
        Plan::Triangles => fill_triangles(line, out),
    }
}

// Writes the answer to a line.
fn write<W: Write>(writer: &mut W, answer: Result<u32, Refusal>, out: &[u8]) -> io::Result<()>
    requires { IfOk answer (λ count. count ≤ length out.now) }
    ensures { OnOk result (IfOk answer (λ count. Appends (W.contents writer.old) (W.contents writer.new) (take count out.now))) }
{
    match answer {
        Ok(count) => writer.write_all(&out[..count as usize]),
        Err(refusal) => write!(writer, "{refusal}"),
    }
}

fn answer<R: Read, W: Write>(reader: &mut R, writer: &mut W, plan: Plan) -> Result<(), Failure> {
    let mut list = [0u8; MOST_INPUT];
    let n = read_line(reader, &mut list).map_err(|_| Failure::Unread)?;
    let end = line_end(&list[..n]);
    let mut out = text_room();
    let answer = fill(plan, &list[..end], &mut out);
    write(writer, answer, &out).map_err(|_| Failure::Unwritten)?;
    writer.write_all(b"\n").map_err(|_| Failure::Unwritten)
}

// What cannot be said is left: nothing else can be done.
fn main(rt: HostRuntime) {
    let mut errors = rt.stderr();
    let Some(plan) = asked(&rt) else {
        let _ = errors.write_all(b"usage: fill [triangles] < OUTLINE\n");
        return;
    };
    if let Err(failure) = answer(&mut rt.stdin(), &mut rt.stdout(), plan) {
        let _ = writeln!(errors, "fill: {failure}");
    }
}
