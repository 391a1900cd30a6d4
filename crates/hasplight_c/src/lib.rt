// Hasplight as a static library: each export calls the entry of the same name in hasplight, and promises what that does. C passes a slice as
// an address and then a number of bytes, as include/hasplight.h has it.
#![tactic(auto)]

ghost use Rattle.rules.specs.Border.{position, convex_position};
ghost use Rattle.rules.specs.Entries.{triangles_for};
ghost use Rattle.rules.specs.Lines.{areas_for, Fills};
ghost use Rattle.wkt.specs.Promise.{writing_of};
ghost use Rattle.hasplight.specs.Promise.{CutterPromise, HullPromise, MergerPromise, PointPromise};

use entries::Answer;
use hasplight::{Verdict, hull, text};

#[unsafe(no_mangle)]
pub extern "C" fn hasplight_triangulate_ear_clipping(coords: &[u8], indices: &mut [u8]) -> Answer
    ensures { CutterPromise coords.now indices.old result indices.new }
{
    hasplight::hasplight_triangulate_ear_clipping(coords, indices)
}

#[unsafe(no_mangle)]
pub extern "C" fn hasplight_hertel_mehlhorn_idx(
    coords: &[u8],
    triangles: &[u8],
    indices: &mut [u8],
    lengths: &mut [u8],
) -> Answer
    ensures { MergerPromise coords.now triangles.now indices.old lengths.old result indices.new lengths.new }
{
    hasplight::hasplight_hertel_mehlhorn_idx(coords, triangles, indices, lengths)
}

#[unsafe(no_mangle)]
pub extern "C" fn hasplight_point_in_poly2d(x: f32, y: f32, coords: &[u8]) -> Verdict
    ensures { PointPromise position x y coords.now result }
{
    hasplight::hasplight_point_in_poly2d(x, y, coords)
}

#[unsafe(no_mangle)]
pub extern "C" fn hasplight_point_in_convex_poly2d(x: f32, y: f32, coords: &[u8]) -> Verdict
    ensures { PointPromise convex_position x y coords.now result }
{
    hasplight::hasplight_point_in_convex_poly2d(x, y, coords)
}

#[unsafe(no_mangle)]
pub extern "C" fn hasplight_convex_hull2_idx(coords: &[u8], indices: &mut [u8]) -> Answer
    ensures { HullPromise coords.now indices.old result indices.new }
{
    hull::hasplight_convex_hull2_idx(coords, indices)
}

#[unsafe(no_mangle)]
pub extern "C" fn hasplight_fill_areas(line: &[u8], out: &mut [u8]) -> Answer
    ensures { Fills areas_for line.now out.old (writing_of result out.new) }
{
    text::hasplight_fill_areas(line, out)
}

#[unsafe(no_mangle)]
pub extern "C" fn hasplight_fill_triangles(line: &[u8], out: &mut [u8]) -> Answer
    ensures { Fills triangles_for line.now out.old (writing_of result out.new) }
{
    text::hasplight_fill_triangles(line, out)
}
