// Writing bytes, words and numbers as text into lent bytes.
ghost use Rattle.std.specs.Prelude.{◌≡◌, true, [], ◌∷◌, ◌<◌, length};
ghost use Rattle.rules.specs.Grid.{on_grid, whole_of};
ghost use Rattle.rules.specs.Text.{natural, decimal};
ghost use Rattle.decimals.specs.Writes.{Takes, Grew};

// Lent bytes, and where the text ends that is written into them.
#[derive(Drop)]
pub struct Text<'a> {
    pub out: &'a mut [u8],
    pub end: usize,
}

impl Text<'_> {
    pub fn push(&mut self, byte: u8)
        requires { self.old.end < length self.old.out.now }
        ensures { Grew self.old self.new (byte ∷ []) }
    {
        self.out[self.end] = byte;
        self.end += 1;
    }

    pub fn push_word(&mut self, word: &[u8])
        requires { Takes self.old word.now }
        ensures { Grew self.old self.new word.now }
    {
        let end = self.end + word.len();
        self.out[self.end..end].copy_from_slice(word);
        self.end = end;
    }

    // All digits but the last, and the last.
    pub fn push_natural(&mut self, n: u32)
        requires { Takes self.old (natural n) }
        ensures { Grew self.old self.new (natural n) }
    {
        if 10 <= n {
            self.push_natural(n / 10);
        }
        self.push(b'0' + (n % 10) as u8);
    }

    pub fn push_number(&mut self, x: f32)
        requires on_grid { on_grid x ≡ true }
        requires room { Takes self.old (decimal (whole_of x)) }
        ensures { Grew self.old self.new (decimal (whole_of x)) }
    {
        if x < 0.0 {
            self.push(b'-');
            return self.push_natural((0.0 - x) as u32);
        }
        // adding zero leaves no -0
        self.push_natural((x + 0.0) as u32);
    }
}
