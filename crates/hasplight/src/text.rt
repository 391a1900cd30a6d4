// Lines of text filled: a POLYGON line in, a MULTIPOLYGON line out, without their newlines.
ghost use Rattle.rules.specs.Entries.{triangles_for};
ghost use Rattle.rules.specs.Lines.{areas_for, Fills};
ghost use Rattle.wkt.specs.Promise.{writing_of};

use entries::Answer;

// By convex areas.
pub fn hasplight_fill_areas(line: &[u8], out: &mut [u8]) -> Answer
    ensures { Fills areas_for line.now out.old (writing_of result out.new) }
{
    Answer::from(fill_line::fill_areas(line, out))
}

// By triangles.
pub fn hasplight_fill_triangles(line: &[u8], out: &mut [u8]) -> Answer
    ensures { Fills triangles_for line.now out.old (writing_of result out.new) }
{
    Answer::from(fill_line::fill_triangles(line, out))
}
