// What every entry shares: document 01's limits, why it refuses, and the form of an answer to C.
#![tactic(auto)]

ghost use Rattle.std.specs.Prelude.{◌≡◌};
ghost use Rattle.entries.specs.Refusals.{number_of, answer_of};

use std::fmt;

// Of an outline.
pub const MOST_POINTS: usize = 512;

pub const MOST_COORDINATES: usize = 2 * MOST_POINTS;

// Of a list that is cut or merged.
pub const MOST_TRIANGLES: usize = MOST_POINTS - 2;

pub const MOST_INDICES: usize = 3 * MOST_TRIANGLES;

// Why an input is refused.
#[derive(Clone, Copy, Debug, PartialEq, Eq)]
pub enum Refusal {
    OddCoordinates,
    TooFewPoints,
    TooManyPoints,
    // A coordinate, or the asked point.
    OffGrid,
    EqualNeighbours,
    // A lent buffer is too short.
    TooLittleRoom,
    NoEar,
    // The length of a list of triangles is no multiple of three.
    NotTriples,
    // An index of a triangle is not below the number of points.
    NoSuchPoint,
    TooManyTriangles,
    // A line.
    NotInForm,
    OnOneLine,
    AreaNotAboveZero,
}

// Document 01's number.
impl From<Refusal> for u32 {
    ghost from_gives = { λ refusal number. number ≡ number_of refusal };

    fn from(refusal: Refusal) -> u32 {
        match refusal {
            Refusal::OddCoordinates => 1,
            Refusal::TooFewPoints => 2,
            Refusal::TooManyPoints => 3,
            Refusal::OffGrid => 4,
            Refusal::EqualNeighbours => 5,
            Refusal::TooLittleRoom => 6,
            Refusal::NoEar => 7,
            Refusal::NotTriples => 8,
            Refusal::NoSuchPoint => 9,
            Refusal::TooManyTriangles => 10,
            Refusal::NotInForm => 11,
            Refusal::OnOneLine => 12,
            Refusal::AreaNotAboveZero => 13,
        }
    }
}

// A refusal is told by its number.
impl fmt::Display for Refusal {
    fn fmt<W: fmt::Write>(&self, f: &mut fmt::Formatter<W>) -> fmt::Result {
        write!(f, "{}", u32::from(*self))
    }
}

// What C is told: document 01's number, 0 where nothing is refused, and the count of triangles, pieces, corners or bytes that are reported,
// 0 beside a refusal.
#[repr(C)]
#[derive(Clone, Copy)]
pub struct Answer {
    pub number: u32,
    pub count: u32,
}

impl From<Result<u32, Refusal>> for Answer {
    ghost from_gives = { λ outcome answer. answer ≡ answer_of outcome };

    fn from(outcome: Result<u32, Refusal>) -> Answer {
        match outcome {
            Ok(count) => Answer { number: 0, count },
            Err(refusal) => Answer {
                number: refusal.into(),
                count: 0,
            },
        }
    }
}
