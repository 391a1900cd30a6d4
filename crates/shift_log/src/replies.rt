// Replies as text.
ghost use Rattle.std.specs.Prelude.{◌+◌, ◌≤◌, length};
ghost use Rattle.rules.specs.Playback.{number, place, reply_text};
ghost use Rattle.decimals.specs.Writes.{Grew};
ghost use Rattle.point_in_poly2d.specs.Positions.{position_of};
ghost use Rattle.shift_log.specs.Promise.{reply_of, reply_line};

use crate::Reply;
use decimals::write::Text;
use entries::Refusal;
use point_in_poly2d::Position;

// A reply takes at most ten digits, and a newline.
pub const MOST_REPLY: usize = 11;

// Writes a number on a line of its own.
#[tactic(auto, using(crate::proofs::ReplyTexts::number_short))]
pub fn write_number(text: &mut Text, n: u32)
    requires { text.old.end + 11 ≤ length text.old.out.now }
    ensures grew { Grew text.old text.new (reply_line (number n)) }
    ensures at_most { text.new.end ≤ text.old.end + 11 }
{
    text.push_natural(n);
    text.push(b'\n');
}

// Where a point is, as a word.
fn write_place(text: &mut Text, position: Position)
    requires { text.old.end + 10 ≤ length text.old.out.now }
    ensures grew { Grew text.old text.new (reply_text (place (position_of position))) }
    ensures at_most { text.new.end ≤ text.old.end + 10 }
{
    match position {
        Position::Outside => text.push_word(b"outside"),
        Position::Inside => text.push_word(b"inside"),
        Position::Border => text.push_word(b"border"),
    }
}

// Writes the reply on a line of its own: the number of a refusal, 0 where an outline is set, or where a point is.
pub fn write_reply(text: &mut Text, reply: Result<Reply, Refusal>)
    requires { text.old.end + 11 ≤ length text.old.out.now }
    ensures grew { Grew text.old text.new (reply_line (reply_of reply)) }
    ensures at_most { text.new.end ≤ text.old.end + 11 }
{
    match reply {
        Err(refusal) => write_number(text, refusal.into()),
        Ok(Reply::Set) => write_number(text, 0),
        Ok(Reply::At(position)) => {
            write_place(text, position);
            text.push(b'\n');
        }
    }
}
