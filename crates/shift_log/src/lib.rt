// A shift log, line by line (request M-107): which outline is in force, and what a line is answered.
#![tactic(auto)]

pub mod log;
pub mod play;
pub mod replies;

ghost use Rattle.std.specs.Prelude.{◌≡◌, ◌*◌, take};
ghost use Rattle.rules.specs.Entries.{asking};
ghost use Rattle.rules.specs.Playback as Rules;
ghost use Rattle.point_in_poly2d.specs.Positions.{test_of};
ghost use Rattle.wkt.specs.Reads.{NoPointLine};
ghost use Rattle.shift_log.specs.Promise.{point_reply, StepPromise, PutPromise};

use entries::{MOST_COORDINATES, MOST_POINTS, Refusal};
use grid::off_grid;
use point_in_poly2d::{Position, ask};
use wkt::read::{read_outline, read_point_line};

// What is in force beside coordinates: how many corners the outline has, and whether the convex test answers for it. Before any outline there are
// no corners, and the outline test answers.
#[derive(Clone, Copy, Debug, PartialEq, Eq)]
pub struct Force {
    pub corners: usize,
    pub convex: bool,
}

// The outline in force: its coordinates stand at the front of what is lent.
#[derive(Drop)]
pub struct InForce<'a> {
    pub coords: &'a mut [f32],
    pub force: Force,
}

// What a line is answered that is not refused.
#[derive(Clone, Copy, Debug, PartialEq, Eq)]
pub enum Reply {
    // It sets an outline.
    Set,
    // Where its point is.
    At(Position),
}

impl InForce<'_> {
    // What a point is told by the test in force.
    fn tell(&self, x: f32, y: f32) -> Result<Position, Refusal>
        ensures { point_reply result ≡ Rules.told (asking (test_of self.now.force.convex) x y (take (2 * self.now.force.corners) self.now.coords.now)) }
    {
        let n = self.force.corners.saturating_mul(2).min(self.coords.len());
        ask(x, y, &self.coords[..n], self.force.convex)
    }

    // Puts an outline in force that has these coordinates and not too many corners, if it is not refused.
    fn put(&mut self, own: &[f32], convex: bool) -> Result<Reply, Refusal>
        ensures { PutPromise own.now convex self.old result self.new }
    {
        if off_grid(own) {
            return Err(Refusal::OffGrid);
        }
        if self.coords.len() < own.len() {
            return Err(Refusal::TooLittleRoom);
        }
        self.coords[0..own.len()].copy_from_slice(own);
        self.force = Force {
            corners: own.len() / 2,
            convex,
        };
        Ok(Reply::Set)
    }

    // A line that is no POINT line.
    fn set_outline(&mut self, line: &[u8]) -> Result<Reply, Refusal>
        requires { NoPointLine line.now }
        ensures { StepPromise line.now self.old result self.new }
    {
        let mut own = [0.0; MOST_COORDINATES];
        if let Some(corners) = read_outline(line, b"POLYGON ((", &mut own) {
            if MOST_POINTS < corners {
                return Err(Refusal::TooManyPoints);
            }
            return self.put(&own[..2 * corners], false);
        }
        if read_outline(line, b"TRIANGLE ((", &mut own) == Some(3) {
            return self.put(&own[..6], true);
        }
        Err(Refusal::NotInForm)
    }

    // One line of a log. A POLYGON or a TRIANGLE line sets an outline, or is refused, and then all stays as it was. A POINT line is answered by
    // the point test for what is in force.
    pub fn step(&mut self, line: &[u8]) -> Result<Reply, Refusal>
        ensures { StepPromise line.now self.old result self.new }
    {
        let Some((x, y)) = read_point_line(line) else {
            return self.set_outline(line);
        };
        Ok(Reply::At(self.tell(x, y)?))
    }
}
