// Numbers in bytes, four each, low byte first: read from slices and written to them.
#![tactic(auto)]

ghost use Rattle.std.specs.Prelude.{◌≡◌, ℕ, ◌++◌, ◌+◌, ◌*◌, ◌/◌, ◌≤◌, ◌<◌, length, map, drop};
ghost use Rattle.std.specs.Float.{binary32};
ghost use Rattle.std.specs.Float.Ieee.{of_bits};
ghost use Rattle.rules.specs.Layout.{over};
ghost use Rattle.words.specs.Bytes.{word_at, words_of, bytes_of, bits_of};

// What a word stands for.
pub trait FromWord: Copy {
    ghost of_word: { ℕ → Self };

    fn from_word(word: u32) -> Self
        ensures { result ≡ of_word word };
}

impl FromWord for u32 {
    ghost of_word = { λ word. word };

    fn from_word(word: u32) -> u32 {
        word
    }
}

impl FromWord for f32 {
    ghost of_word = { of_bits binary32 };

    fn from_word(word: u32) -> f32 {
        float(word)
    }
}

// Number i of the words.
pub fn word(bytes: &[u8], i: usize) -> u32
    requires { i * 4 + 3 < length bytes.now }
    ensures { result ≡ word_at bytes.now i }
{
    let k = i * 4;
    u32::from_le_bytes([bytes[k], bytes[k + 1], bytes[k + 2], bytes[k + 3]])
}

// The float with these bits; every pattern of a NaN is one NaN.
pub fn float(bits: u32) -> f32
    ensures { result ≡ of_bits binary32 bits }
{
    if 2139095040 < bits % 2147483648 {
        return 0.0 / 0.0;
    }
    f32::from_bits(bits)
}

// The bits of a float that is not below zero, and all bits for any other.
pub fn bits(x: f32) -> u32
    ensures { result ≡ bits_of x }
{
    if x >= 0.0 {
        f32::to_bits(x)
    } else {
        4294967295
    }
}

// Reads the words to the front of `to`.
pub fn read<T: FromWord>(bytes: &[u8], to: &mut [T])
    requires { length bytes.now / 4 ≤ length to.old }
    ensures { to.new ≡ map T.of_word (words_of bytes.now) ++ drop (length bytes.now / 4) to.old }
{
    for i in 0..bytes.len() / 4 {
        to[i] = T::from_word(word(bytes, i));
    }
}

// Writes the words to the front of the bytes.
pub fn write(words: &[u32], bytes: &mut [u8])
    requires { length words.now * 4 ≤ length bytes.old }
    ensures { bytes.new ≡ over (bytes_of words.now) bytes.old }
{
    for (i, word) in words.iter().enumerate() {
        let k = i * 4;
        bytes[k..k + 4].copy_from_slice(&word.to_le_bytes());
    }
}
