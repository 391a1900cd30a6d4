// Fills a line by both plans, writes it back, and prints what came of it.
use entries::{MOST_COORDINATES, Refusal};
use fill_line::{fill_areas, fill_triangles, text_room};
use std::io;
use wkt::read::read_polygon;
use wkt::write::write_polygon;

// As many bytes of an answer are printed; of a longer one there is only the size.
const MOST_PRINTED: usize = 1000;

// What came of a plan: a refusal, or the text.
fn tell(rt: &impl Print, plan: &str, filled: Result<u32, Refusal>, out: &[u8]) -> io::Result<()> {
    let text = match filled {
        Ok(count) => &out[..out.len().min(count as usize)],
        Err(refusal) => return println!(rt; "{plan}: refused, {refusal}"),
    };
    if MOST_PRINTED < text.len() {
        return println!(rt; "{plan}: {} bytes", text.len());
    }
    print!(rt; "{plan}: ")?;
    rt.write_all(text)?;
    println!(rt)
}

// Whether a line that is read and written gives the same bytes; nothing where one of the two refuses.
fn written_back(line: &[u8]) -> Option<bool> {
    let mut coords = [0.0f32; MOST_COORDINATES];
    let corners = read_polygon(line, &mut coords).ok()?;
    let coords = coords.get(..2 * corners as usize)?;
    let mut out = text_room();
    let count = write_polygon(coords, &mut out).ok()?;
    Some(out.get(..count as usize)? == line)
}

fn both(rt: &impl Print, line: &[u8]) -> io::Result<()> {
    let mut out = text_room();
    let areas = fill_areas(line, &mut out);
    tell(rt, "  areas", areas, &out)?;
    let triangles = fill_triangles(line, &mut out);
    tell(rt, "  triangles", triangles, &out)?;
    match written_back(line) {
        Some(true) => println!(rt; "  written back: the same bytes"),
        Some(false) => println!(rt; "  written back: other bytes"),
        None => Ok(()),
    }
}

// A line whose areas are written to so much room.
pub fn fill_with_room(rt: &impl Print, name: &str, line: &str, out: &mut [u8]) -> io::Result<()> {
    let areas = fill_areas(line.as_bytes(), out);
    tell(rt, name, areas, out)
}

// Lines that are printed themselves.
pub fn fill_each(rt: &impl Print, lines: &[&str]) -> io::Result<()> {
    for line in lines {
        println!(rt; "{line}")?;
        both(rt, line.as_bytes())?;
    }
    Ok(())
}

// A line that is printed by a name and its size.
pub fn fill_named(rt: &impl Print, name: &str, line: &[u8]) -> io::Result<()> {
    println!(rt; "{name}, {} bytes", line.len())?;
    both(rt, line)
}
