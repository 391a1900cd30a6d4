// A record: an input of an exported entry, and what must come back. It is seven numbers of four bytes, low byte first (the entry, 1 to 6;
// how many bytes of four parts follow, at most 8192 each; number; count or answer, 0 outside, 1 inside, 2 border), and then those parts:
//
//   entry               1st part     2nd part             3rd part          4th part
//   1 cutter            coordinates                       lent indices
//   2 merger            coordinates  triangles            lent indices      lent lengths
//   3, 4 point tests    coordinates  the asked point
//   5 root                           the first radicand   the roots' bits
//   6 hull              coordinates                       lent indices
//
// The lent parts are as they must be after the call; before it they hold 90 everywhere. A record of the root says it of a radicand and of
// those that follow it, as many as its count.
ghost use Rattle.std.specs.Prelude.{◌+◌, ◌≤◌, length, IfOk, IfSome};

use entries::Answer;
use hasplight::hull::hasplight_convex_hull2_idx;
use hasplight::{
    Verdict, hasplight_hertel_mehlhorn_idx, hasplight_point_in_convex_poly2d,
    hasplight_point_in_poly2d, hasplight_triangulate_ear_clipping,
};
use radicands::hasplight_root;

// How many bytes the seven numbers take.
const HEADER: usize = 28;

// How many bytes a part has at most.
const MOST_BYTES: usize = 8192;

#[derive(Clone, Copy)]
enum Entry {
    Cutter,
    Merger,
    PointTest,
    ConvexTest,
    Root,
    Hull,
}

// The seven numbers, of parts that the entry takes.
#[derive(Clone, Copy)]
struct Header {
    entry: Entry,
    coords: usize,
    given: usize,
    indices: usize,
    lengths: usize,
    number: u32,
    count: u32,
    ghost short_indices: { indices ≤ 8192 },
    ghost short_lengths: { lengths ≤ 8192 },
}

#[derive(Clone, Copy)]
pub struct Record<'a> {
    entry: Entry,
    coords: &'a [u8],
    given: &'a [u8],
    indices: &'a [u8],
    lengths: &'a [u8],
    number: u32,
    count: u32,
    ghost short_indices: { length indices.now ≤ 8192 },
    ghost short_lengths: { length lengths.now ≤ 8192 },
}

// Why there is no record: what stands in its place is none.
#[derive(Clone, Copy)]
pub struct NoRecord;

// Number i of some bytes, or 0 where they end before that.
fn number(bytes: &[u8], i: usize) -> u32 {
    let (numbers, _) = bytes.as_chunks::<4>();
    numbers
        .get(i)
        .map_or(0, |number| u32::from_le_bytes(*number))
}

impl Header {
    fn read(bytes: &[u8]) -> Result<Header, NoRecord> {
        let coords = number(bytes, 1) as usize;
        let given = number(bytes, 2) as usize;
        let indices = number(bytes, 3) as usize;
        let lengths = number(bytes, 4) as usize;
        let count = number(bytes, 6);
        if MOST_BYTES < coords.max(given).max(indices).max(lengths) {
            return Err(NoRecord);
        }
        let entry = match (number(bytes, 0), given, lengths) {
            (1, 0, 0) => Entry::Cutter,
            (2, _, _) => Entry::Merger,
            (3, 8, 0) if indices == 0 => Entry::PointTest,
            (4, 8, 0) if indices == 0 => Entry::ConvexTest,
            (5, 4, 0) if coords == 0 && indices == 4 * count as usize => Entry::Root,
            (6, 0, 0) => Entry::Hull,
            _ => return Err(NoRecord),
        };
        Ok(Header {
            entry,
            coords,
            given,
            indices,
            lengths,
            number: number(bytes, 5),
            count,
        })
    }
}

impl<'a> Record<'a> {
    // The record of these numbers and what stands behind it, where it is whole.
    fn behind(header: Header, rest: &'a [u8]) -> Option<(Record<'a>, &'a [u8])>
        ensures { IfSome result (λ p. length p.1.now ≤ length rest.now) }
    {
        let (coords, rest) = rest.split_at_checked(header.coords)?;
        let (given, rest) = rest.split_at_checked(header.given)?;
        let (indices, rest) = rest.split_at_checked(header.indices)?;
        let (lengths, rest) = rest.split_at_checked(header.lengths)?;
        let record = Record {
            entry: header.entry,
            coords,
            given,
            indices,
            lengths,
            number: header.number,
            count: header.count,
        };
        Some((record, rest))
    }

    // The record at the front of some bytes and what stands behind it, or nothing where it is not whole yet.
    pub fn first(bytes: &'a [u8]) -> Result<Option<(Record<'a>, &'a [u8])>, NoRecord>
        ensures { IfOk result (λ found. IfSome found (λ p. length p.1.now + 28 ≤ length bytes.now)) }
    {
        let Some((header, rest)) = bytes.split_at_checked(HEADER) else {
            return Ok(None);
        };
        Ok(Record::behind(Header::read(header)?, rest))
    }

    // How many inputs it has.
    pub fn inputs(&self) -> usize
        ensures { result ≤ 2048 }
    {
        match self.entry {
            Entry::Root => self.indices.len() / 4,
            _ => 1,
        }
    }

    // On how many of its inputs an entry does not give back what it says.
    pub fn different(&self) -> usize
        ensures { result ≤ 2048 }
    {
        let same = match self.entry {
            Entry::Root => return self.other_roots(),
            Entry::Cutter => self.is_filled(hasplight_triangulate_ear_clipping),
            Entry::Hull => self.is_filled(hasplight_convex_hull2_idx),
            Entry::Merger => self.is_merged(),
            Entry::PointTest => self.is_told(hasplight_point_in_poly2d),
            Entry::ConvexTest => self.is_told(hasplight_point_in_convex_poly2d),
        };
        usize::from(!same)
    }

    fn has_answer(&self, answer: Answer) -> bool {
        answer.number == self.number && answer.count == self.count
    }

    // Whether an entry that is lent room for indices gives back what the record says.
    fn is_filled<F: FnOnce(&[u8], &mut [u8]) -> Answer>(&self, entry: F) -> bool
        requires { F.IsAlwaysCallable entry }
    {
        let mut indices = [90u8; MOST_BYTES];
        let indices = &mut indices[..self.indices.len()];
        self.has_answer(entry(self.coords, indices)) && *indices == *self.indices
    }

    fn is_merged(&self) -> bool {
        let mut indices = [90u8; MOST_BYTES];
        let mut lengths = [90u8; MOST_BYTES];
        let indices = &mut indices[..self.indices.len()];
        let lengths = &mut lengths[..self.lengths.len()];
        self.has_answer(hasplight_hertel_mehlhorn_idx(self.coords, self.given, indices, lengths))
            && *indices == *self.indices
            && *lengths == *self.lengths
    }

    // Whether a point test gives back what the record says.
    fn is_told<F: FnOnce(f32, f32, &[u8]) -> Verdict>(&self, test: F) -> bool
        requires { F.IsAlwaysCallable test }
    {
        let x = words::float(number(self.given, 0));
        let y = words::float(number(self.given, 1));
        let verdict = test(x, y, self.coords);
        verdict.number == self.number && verdict.answer == self.count
    }

    // How many of the roots, from the first radicand on, do not have the given bits.
    fn other_roots(&self) -> usize
        ensures { result ≤ 2048 }
    {
        let first = number(self.given, 0);
        let (roots, _) = self.indices.as_chunks::<4>();
        (0..self.count)
            .zip(roots)
            .filter(|(i, root)| {
                let bits = words::bits(hasplight_root(first.wrapping_add(*i)));
                bits != u32::from_le_bytes(**root)
            })
            .count()
    }
}
