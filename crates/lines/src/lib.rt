// Bytes as lines: where a line ends, and the carrying of one that has not ended yet.
#![tactic(auto)]

pub mod carried;

ghost use Rattle.std.specs.Prelude.{◌≡◌, ◌≢◌, ◌==◌, ◌∷◌, ◌++◌, ◌≤◌, length, take, position, IfSome, IfNone};
ghost use Rattle.algebra.specs.Lists.{Each};
ghost use Rattle.rules.specs.Text.{first_line};
ghost use Rattle.lines.specs.Carrying.{carried_of, Kept};

use carried::Carried;

// Where the first newline stands.
fn newline(bytes: &[u8]) -> Option<usize>
    ensures { result ≡ position (λ b. b == 10) bytes.now }
{
    bytes.iter().position(|b| *b == b'\n')
}

// Where the first line of some bytes ends: at its newline, or behind the last byte.
pub fn line_end(bytes: &[u8]) -> usize
    ensures line { take result bytes.now ≡ first_line bytes.now }
    ensures in_bounds { result ≤ length bytes.now }
{
    newline(bytes).unwrap_or(bytes.len())
}

// The first line, if it has its newline, and the bytes behind that.
pub fn split_line(bytes: &[u8]) -> Option<(&[u8], &[u8])>
    ensures line { IfSome result (λ parts. Each (λ b. b ≢ 10) parts.0.now) }
    ensures parts { IfSome result (λ parts. bytes.now ≡ parts.0.now ++ (10 ∷ parts.1.now)) }
    ensures no_newline { IfNone result (Each (λ b. b ≢ 10) bytes.now) }
{
    let n = newline(bytes)?;
    Some((&bytes[..n], &bytes[n + 1..]))
}

impl Carried<'_> {
    // The bytes that are held.
    pub fn line(&self) -> &[u8]
        ensures { result.now ≡ carried_of self.now }
    {
        &self.bytes[..self.held]
    }

    // Puts more bytes behind those that are held, as far as there is room.
    pub fn keep(&mut self, more: &[u8])
        ensures { Kept self.old more.now self.new }
    {
        let n = more.len().min(self.bytes.len() - self.held);
        let end = self.held + n;
        self.bytes[self.held..end].copy_from_slice(&more[..n]);
        self.held = end;
    }
}
