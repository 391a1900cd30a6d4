// What a program is given: the words behind its name, and what it reads, behind what it has read.
#![tactic(auto)]

ghost use Rattle.std.specs.Prelude.{[], ◌+◌, ◌<◌, ◌≤◌, ◌≡◌, drop, length, take, IfOk, OnErr};
ghost use Rattle.std.specs.Io.KnownBytes.{Consumes, IsAtEnd};

use std::env::{Env, FillError};
use std::io;
use std::io::Read;

// Whether a program has been given so many words, however long they are.
pub fn is_given(rt: &impl Env, words: usize) -> bool {
    !matches!(rt.arg(words, &mut []), Err(FillError::NotPresent))
}

// Reads once, behind the first bytes. No bytes: there is no room, or the input has ended.
pub fn more<R: Read>(reader: &mut R, list: &mut [u8], have: usize) -> io::Result<usize>
    requires { have ≤ length list.old }
    ensures in_bounds { IfOk result (λ came. have + came ≤ length list.old) }
    ensures list_len_unchanged { length list.new ≡ length list.old }
    ensures front_unchanged { take have list.new ≡ take have list.old }
    ensures read { IfOk result (λ came. Consumes (R.remaining reader.old) (R.remaining reader.new) (take came (drop have list.new))) }
    ensures ended { IfOk result (λ came. came ≡ 0 → have < length list.old → IsAtEnd (R.remaining reader.new)) }
    ensures failed { OnErr result (Consumes (R.remaining reader.old) (R.remaining reader.new) []) }
{
    reader.read(&mut list[have..])
}
