// Reading a whole number in decimal, of any length, that a text starts with: its value, and the text behind it. A size is of interest up to 1025,
// the first off the grid, so it is kept as at most that.
ghost use Rattle.std.specs.Prelude.{IfSome, IfNone};
ghost use Rattle.rules.specs.Text.{Ends};
ghost use Rattle.decimals.specs.Reads.{DigitRead, NaturalRead, NoNatural, NumberRead, NoNumber};

fn read_digit(text: &[u8]) -> Option<(u32, &[u8])>
    ensures digit { IfSome result (λ d. DigitRead text.now d.0 d.1.now) }
    ensures no_digit { IfNone result (Ends text.now) }
{
    let (first, rest) = text.split_first()?;
    if first.is_ascii_digit() {
        Some((u32::from(*first - b'0'), rest))
    } else {
        None
    }
}

// Any number of digits, and no zero before others.
#[tactic(auto, using(crate::proofs::Digits::no_digit))]
fn read_natural(text: &[u8]) -> Option<(u32, &[u8])>
    ensures natural { IfSome result (λ n. NaturalRead text.now n.0 n.1.now) }
    ensures no_natural { IfNone result (NoNatural text.now) }
{
    let (first, mut rest) = read_digit(text)?;
    if first == 0 {
        return match read_digit(rest) {
            Some(_) => None,
            None => Some((0, rest)),
        };
    }
    let mut value = first;
    while let Some((digit, behind)) = read_digit(rest) {
        value = (value * 10 + digit).min(1025);
        rest = behind;
    }
    Some((value, rest))
}

// Behind a minus stands a number above zero.
pub fn read_number(text: &[u8]) -> Option<(f32, &[u8])>
    ensures number { IfSome result (λ n. NumberRead text.now n.0 n.1.now) }
    ensures no_number { IfNone result (NoNumber text.now) }
{
    if let Some(digits) = text.strip_prefix(b"-") {
        let (size, rest) = read_natural(digits)?;
        if size == 0 {
            return None;
        }
        return Some((0.0 - size as f32, rest));
    }
    let (size, rest) = read_natural(text)?;
    Some((size as f32, rest))
}
