// A stream of bytes, read by read: the lines that end are answered, and what is left is carried to the next read.
ghost use Rattle.std.specs.Prelude.{◌≡◌, [], ◌++◌, suc, ◌+◌, ◌*◌, ◌≤◌, false, length, take};
ghost use Rattle.rules.specs.Limits.{most_coordinates};
ghost use Rattle.rules.specs.Text.{most_bytes};
ghost use Rattle.rules.specs.Stream.{handed, last_line};
ghost use Rattle.rules.specs.Playback.{nothing_yet, LinesPlayed};
ghost use Rattle.lines.specs.Carrying.{carried_of};
ghost use Rattle.shift_log.specs.Promise.{in_force_of, StepPromise};
ghost use Rattle.shift_log.specs.Playing.{SameLent, LinePlayed, PlayPromise, FinishPromise};

use crate::log::Log;
use crate::replies::write_reply;
use crate::{Force, InForce, Reply};
use decimals::write::Text;
use entries::Refusal;
use lines::carried::Carried;
use lines::split_line;

// As much of a line is carried: one byte more than a line in form has at most, so that one that is too long stays too long.
pub const MOST_CARRIED: usize = 8193;

impl<'a> Log<'a> {
    // Before the first read.
    pub fn new(carried: &'a mut [u8], coords: &'a mut [f32]) -> Log<'a>
        ensures nothing_carried { carried_of result.carried ≡ [] }
        ensures nothing_in_force { in_force_of result.in_force ≡ nothing_yet }
        ensures held { result.carried.held ≡ 0 }
        ensures force { result.in_force.force ≡ record { corners = 0; convex = false } }
        ensures carried { result.carried.bytes.now ≡ carried.old }
        ensures coords { result.in_force.coords.now ≡ coords.old }
        ensures same_carried { result.carried.bytes.ghost_name ≡ carried.entry.ghost_name }
        ensures same_coords { result.in_force.coords.ghost_name ≡ coords.entry.ghost_name }
    {
        Log {
            carried: Carried {
                bytes: carried,
                held: 0,
            },
            in_force: InForce {
                coords,
                force: Force {
                    corners: 0,
                    convex: false,
                },
            },
        }
    }

    // Answers a line that ends with these bytes, behind those that are carried of it.
    fn play_line(&mut self, piece: &[u8]) -> Result<Reply, Refusal>
        requires { length self.old.carried.bytes.now ≡ suc most_bytes }
        ensures step { StepPromise (handed (carried_of self.old.carried ++ piece.now)) self.old.in_force result self.new.in_force }
        ensures lent { SameLent self.old self.new }
    {
        self.carried.keep(piece);
        let line = self.carried.line();
        self.in_force.step(line)
    }

    // Answers such a line, and writes its reply.
    fn answer_line(&mut self, piece: &[u8], text: &mut Text)
        requires carried_len { length self.old.carried.bytes.now ≡ suc most_bytes }
        requires coords_len { most_coordinates ≤ length self.old.in_force.coords.now }
        requires room { text.old.end + 11 ≤ length text.old.out.now }
        ensures { LinePlayed (handed (carried_of self.old.carried ++ piece.now)) self.old text.old self.new text.new }
    {
        let reply = self.play_line(piece);
        self.carried.held = 0;
        write_reply(text, reply);
    }

    // Plays the bytes of one read: writes the replies to the lines that end in them, says where that text ends, and carries the rest.
    pub fn play(&mut self, bytes: &[u8], out: &mut [u8]) -> usize
        requires carried_len { length self.old.carried.bytes.now ≡ suc most_bytes }
        requires coords_len { most_coordinates ≤ length self.old.in_force.coords.now }
        requires room { 11 * length bytes.now ≤ length out.old }
        ensures play { PlayPromise bytes.now (carried_of self.old.carried) (in_force_of self.old.in_force) out.old self.new result out.new }
        ensures lent { SameLent self.old self.new }
    {
        let mut text = Text { out, end: 0 };
        let mut rest = bytes;
        while let Some((piece, behind)) = split_line(rest) {
            self.answer_line(piece, &mut text);
            rest = behind;
        }
        self.carried.keep(rest);
        text.end
    }

    // At the end of the stream: answers the last line, if it lacks its newline, and says where the text ends.
    pub fn finish(&mut self, out: &mut [u8]) -> usize
        requires coords_len { most_coordinates ≤ length self.old.in_force.coords.now }
        requires room { 11 ≤ length out.old }
        ensures finish { FinishPromise (carried_of self.old.carried) (in_force_of self.old.in_force) out.old result out.new }
        ensures in_force { LinesPlayed (last_line (carried_of self.old.carried)) (in_force_of self.old.in_force) (take result out.new) (in_force_of self.new.in_force) }
        ensures carried { carried_of self.new.carried ≡ carried_of self.old.carried }
        ensures bytes { self.new.carried.bytes.now ≡ self.old.carried.bytes.now }
        ensures held { self.new.carried.held ≡ self.old.carried.held }
        ensures lent { SameLent self.old self.new }
    {
        if self.carried.held == 0 {
            return 0;
        }
        let line = self.carried.line();
        let reply = self.in_force.step(line);
        let mut text = Text { out, end: 0 };
        write_reply(&mut text, reply);
        text.end
    }
}
