// Replays the records on standard input, any number of them: on each input an exported entry must give back what its record says.
#![tactic(auto)]

mod record;

ghost use Rattle.std.specs.Prelude.{◌≡◌, ◌+◌, ◌*◌, ◌^◌, ◌<◌, ◌≤◌, length, IfOk, IfSome};
ghost use Rattle.std.proofs.Props.{props};

use input::more;
use record::{NoRecord, Record};
use std::io;
use std::io::Read;

// How often the input is read at most: a proved loop has to end, and nothing says that the input does.
const MOST_READS: usize = 68719476736;

// Why no more is read.
#[derive(Clone, Copy)]
enum End {
    Whole,
    CutOff,
    NoRecord,
    Unread,
    Open,
}

impl From<NoRecord> for End {
    fn from(_: NoRecord) -> End {
        End::NoRecord
    }
}

// What has come of the records so far.
#[derive(Drop)]
struct Tally {
    records: usize,
    inputs: usize,
    different: usize,
    // the number of the first record with a difference, counted from 1
    first: Option<usize>,
    ghost known_first: { IfSome first (λ n. n ≤ records) } by { Prim.hlevel props },
    ghost few_inputs: { inputs ≤ 2048 * records },
    ghost few_different: { different ≤ 2048 * records },
}

impl Tally {
    fn compare(&mut self, record: &Record)
        requires { self.old.records < 2 ^ 52 }
        ensures { self.new.records ≡ self.old.records + 1 }
    {
        let different = record.different();
        self.records += 1;
        self.inputs += record.inputs();
        self.different += different;
        if 0 < different {
            self.first = self.first.or(Some(self.records));
        }
    }

    // Compares the whole records at the front of a block, and gives how many bytes stand behind them.
    fn compare_all(&mut self, block: &[u8]) -> Result<usize, NoRecord>
        requires { self.old.records + length block.now ≤ 2 ^ 52 }
        ensures records { self.new.records ≤ self.old.records + length block.now }
        ensures left { IfOk result (λ left. left ≤ length block.now) }
    {
        let mut rest = block;
        while let Some((record, behind)) = Record::first(rest)? {
            self.compare(&record);
            rest = behind;
        }
        Ok(rest.len())
    }
}

// Reads once behind the first bytes, compares the whole records that are there then, and moves what stands behind them to the front.
fn turn<R: Read>(
    reader: &mut R,
    list: &mut [u8],
    have: usize,
    tally: &mut Tally,
) -> Result<usize, End>
    requires have { have ≤ length list.old }
    requires few { tally.old.records + length list.old ≤ 2 ^ 52 }
    ensures records { tally.new.records ≤ tally.old.records + length list.old }
    ensures left { IfOk result (λ left. left ≤ length list.old) }
    ensures same_length { length list.new ≡ length list.old }
{
    let came = more(reader, list, have).map_err(|_| End::Unread)?;
    if came == 0 {
        return Err(if have == 0 { End::Whole } else { End::CutOff });
    }
    let n = have + came;
    let left = tally.compare_all(&list[..n])?;
    list.copy_within(n - left..n, 0);
    Ok(left)
}

fn replay<R: Read>(reader: &mut R, list: &mut [u8]) -> (Tally, End)
    requires { length list.old ≤ 65536 }
{
    let mut tally = Tally {
        records: 0,
        inputs: 0,
        different: 0,
        first: None,
    };
    let mut left = 0;
    for _ in 0..MOST_READS {
        match turn(reader, list, left, &mut tally) {
            Ok(n) => left = n,
            Err(end) => return (tally, end),
        }
    }
    (tally, End::Open)
}

fn tell(rt: &impl Print, tally: &Tally, end: End) -> io::Result<()> {
    print!(rt;
        "{} inputs compared, {} differ",
        tally.inputs, tally.different
    )?;
    if let Some(record) = tally.first {
        print!(rt; ", the first in record {record}")?;
    }
    let end = match end {
        End::Whole => return println!(rt),
        End::CutOff => "the input is cut off",
        End::NoRecord => "stands no record",
        End::Unread => "the input cannot be read",
        End::Open => "the input goes on",
    };
    println!(rt; "; behind record {} {end}", tally.records)
}

fn main(rt: HostRuntime) -> io::Result<()> {
    let (tally, end) = replay(&mut rt.stdin(), &mut [0u8; 65536]);
    tell(&rt, &tally, end)
}
