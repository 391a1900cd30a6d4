// The whole number nearest to the root of a scaled number: guessed, and where the guess is not it, worked out digit by digit.
ghost use Rattle.std.specs.Prelude.{◌≡◌, ◌*◌, ◌^◌, ◌<◌, ◌≤◌, IfSome};
ghost use Rattle.rules.specs.Root.{Nearest, Scaled};

use hyperbolas::{Hyperbola, hyperbola_at};

// n is m * 4^exponent for some m, with 47 or 48 binary digits, so that its root has 24.
#[derive(Clone, Copy)]
pub struct Radicand {
    n: u64,
    pub exponent: u32,
    ghost low: { 2 ^ 46 ≤ n },
    ghost high: { n < 2 ^ 48 },
}

impl Radicand {
    // m is shifted in 32 bits first: so the compiler knows that n has 48 bits at most, and a row of the table for each of them.
    pub fn new(m: u32) -> Radicand
        requires nonzero { 0 < m }
        requires bound { m ≤ 2 ^ 23 }
        ensures scaled { Scaled m result.exponent }
        ensures value { result.n ≡ m * 4 ^ result.exponent }
    {
        let exponent = 23 - (31 - m.leading_zeros()) / 2;
        Radicand {
            n: u64::from(m << (2 * exponent - 16)) << 16,
            exponent,
        }
    }

    // The binary digits of the root from the highest, and one more where the rest says so.
    fn by_digits(self) -> u64
        ensures { Nearest self.n result }
    {
        let mut k = 0u64;
        for b in (0u64..24).rev() {
            let t = k + (1u64 << b);
            if t * t <= self.n {
                k = t;
            }
        }
        if k * k + k < self.n { k + 1 } else { k }
    }

    // About the root less a half: a whole number, in the lowest bits of a float near 2^52.
    fn guess(self) -> u64
        ensures { result < 2 ^ 25 }
    {
        let Hyperbola(level, fall, ahead) = hyperbola_at(self.n >> 41);
        let x = fall / (self.n as f64 + ahead) + level;
        x.to_bits() % 33554432
    }

    // The guess g or g + 1, where one of them is the nearest. How far n is below g*g + 3*g tells which: less than 2*g if g + 1 is, less than
    // 4*g if g is, and more where n is above, since 2^64 is added there.
    pub fn try_guess(self) -> Option<u64>
        ensures { IfSome result (λ root. Nearest self.n root) }
    {
        let g = self.guess();
        let below = (g * g + 3 * g).wrapping_sub(self.n);
        let root = if below < 2 * g { g + 1 } else { g };
        if below < 4 * g { Some(root) } else { None }
    }

    pub fn nearest_root(self) -> u64
        ensures { Nearest self.n result }
    {
        match self.try_guess() {
            Some(root) => root,
            None => self.by_digits(),
        }
    }
}
