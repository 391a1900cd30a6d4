// Counts the radicands from 1 to 2^23 whose root is guessed, and those whose root is worked out digit by digit.
#![tactic(auto)]

ghost use Rattle.std.specs.Prelude.{◌≤◌};

use root::is_guessed;
use std::io;

const MOST: u32 = 8388608;

fn guessed() -> u32
    ensures { result ≤ 8388608 }
{
    (1..=MOST).filter(|m| is_guessed(*m)).count() as u32
}

fn main(rt: HostRuntime) -> io::Result<()> {
    let n = guessed();
    println!(rt; "roots guessed: {n}")?;
    println!(rt; "roots worked out digit by digit: {}", MOST - n)
}
