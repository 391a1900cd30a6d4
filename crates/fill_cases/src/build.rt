// Long lines, put together.
ghost use Rattle.std.specs.Prelude.{◌≤◌};

use entries::MOST_COORDINATES;
use wkt::write::write_polygon;

// Longer than any line that is read.
const MOST_BYTES: usize = 8200;

#[derive(Clone, Copy)]
pub struct Line {
    bytes: [u8; MOST_BYTES],
    count: usize,
    ghost in_bounds: { count ≤ 8200 },
}

impl Line {
    fn new() -> Line {
        Line {
            bytes: [0u8; MOST_BYTES],
            count: 0,
        }
    }

    pub fn as_bytes(&self) -> &[u8] {
        &self.bytes[..self.count]
    }

    // Puts a word behind the line, where there is room for it.
    fn push(&mut self, word: &str) {
        let word = word.as_bytes();
        let room = &mut self.bytes[self.count..];
        if word.len() <= room.len() {
            room[..word.len()].copy_from_slice(word);
            self.count += word.len();
        }
    }

    fn push_many(&mut self, word: &str, times: usize) {
        for _ in 0..times {
            self.push(word);
        }
    }
}

// A POLYGON line whose first number has 4,082 digits, with these words between that and the closing point.
pub fn digits(between: &str) -> Line {
    let mut line = Line::new();
    line.push("POLYGON ((");
    line.push_many("1", 4082);
    line.push(between);
    line.push_many("1", 4082);
    line.push(" 0))");
    line
}

// A POLYGON line of so many corners at one point, with this end.
pub fn corners(n: usize, end: &str) -> Line {
    let mut line = Line::new();
    line.push("POLYGON ((");
    line.push_many("0 0, ", n);
    line.push(end);
    line
}

// From the lower left corner of the grid 255 steps up to the right, and back over the upper left.
fn steps() -> [f32; MOST_COORDINATES] {
    let mut coords = [0.0f32; MOST_COORDINATES];
    let (steps, _) = coords.as_chunks_mut::<4>();
    let mut low = -1024.0f32;
    for step in steps {
        *step = [low, low, low + 1.0, low];
        low += 1.0;
    }
    coords[MOST_COORDINATES - 2] = -1024.0;
    coords
}

// A POLYGON line of 512 corners that can be filled.
pub fn stairs() -> Line {
    let mut line = Line::new();
    let count = write_polygon(&steps(), &mut line.bytes).unwrap_or(0);
    line.count = MOST_BYTES.min(count as usize);
    line
}
