// Plays back a shift log: reads it from standard input, any number of lines, and writes one line for each: the number of its refusal, 0 for an
// outline that is set, or where a point is. What has been answered is written before more is waited for.
#![tactic(auto)]

ghost use Rattle.std.specs.Prelude.{OnOk, suc, ◌*◌, ◌≤◌, ◌≡◌, length};
ghost use Rattle.std.specs.Io.KnownBytes.{Appends};
ghost use Rattle.rules.specs.Limits.{most_coordinates};
ghost use Rattle.rules.specs.Text.{most_bytes};

use entries::MOST_COORDINATES;
use input::{is_given, more};
use shift_log::log::Log;
use shift_log::play::MOST_CARRIED;
use shift_log::replies::MOST_REPLY;
use std::fmt;
use std::io::{Read, Write};

// In one read.
const MOST_READ: usize = 16384;

// Each byte of a read may end a line.
const MOST_TEXT: usize = MOST_REPLY * MOST_READ;

// Why the log is not played to its end.
#[derive(Clone, Copy, Debug, PartialEq, Eq)]
enum Failure {
    Unread,
    Unwritten,
    GoesOn,
}

impl fmt::Display for Failure {
    fn fmt<W: fmt::Write>(&self, f: &mut fmt::Formatter<W>) -> fmt::Result {
        f.write_str(match self {
            Failure::Unread => "standard input cannot be read",
            Failure::Unwritten => "standard output cannot be written",
            Failure::GoesOn => "the log goes on",
        })
    }
}

fn write<W: Write>(writer: &mut W, text: &[u8]) -> Result<(), Failure>
    ensures { OnOk result (Appends (W.contents writer.old) (W.contents writer.new) text.now) }
{
    writer.write_all(text).map_err(|_| Failure::Unwritten)
}

// A proved loop has to end, and nothing says that the input does: it is read at most 2^64 - 1 times.
fn play_all<R: Read, W: Write>(
    reader: &mut R,
    writer: &mut W,
    list: &mut [u8],
    log: &mut Log,
    out: &mut [u8],
) -> Result<(), Failure>
    requires carried { length log.old.carried.bytes.now ≡ suc most_bytes }
    requires coords { most_coordinates ≤ length log.old.in_force.coords.now }
    requires reply { 11 ≤ length out.old }
    requires replies { 11 * length list.old ≤ length out.old }
{
    for _ in 0..u64::MAX {
        let came = more(reader, list, 0).map_err(|_| Failure::Unread)?;
        if came == 0 {
            let end = log.finish(out);
            return write(writer, &out[..end]);
        }
        let end = log.play(&list[..came], out);
        write(writer, &out[..end])?;
    }
    Err(Failure::GoesOn)
}

fn answer<R: Read, W: Write>(reader: &mut R, writer: &mut W) -> Result<(), Failure> {
    let mut list = [0u8; MOST_READ];
    let mut carried = [0u8; MOST_CARRIED];
    let mut coords = [0.0f32; MOST_COORDINATES];
    let mut out = [0u8; MOST_TEXT];
    let mut log = Log::new(&mut carried, &mut coords);
    play_all(reader, writer, &mut list, &mut log, &mut out)
}

// What cannot be said is left: nothing else can be done.
fn main(rt: HostRuntime) {
    let mut errors = rt.stderr();
    if is_given(&rt, 1) {
        let _ = errors.write_all(b"usage: playback < LOG\n");
        return;
    }
    if let Err(failure) = answer(&mut rt.stdin(), &mut rt.stdout()) {
        let _ = writeln!(errors, "playback: {failure}");
    }
}
