// The refusals of a number of coordinates, for an outline of `least` to `most` points.
ghost use Rattle.std.specs.Prelude.{◌≡◌};
ghost use Rattle.rules.specs.Refusals.{first_refusal, count_checks};
ghost use Rattle.entries.specs.Refusals.{refused};

use entries::Refusal;

// What the number of coordinates decides: 1 to 3.
pub fn check_count(least: usize, most: usize, coordinates: usize) -> Result<(), Refusal>
    ensures { refused result ≡ first_refusal (count_checks least most coordinates) }
{
    if coordinates % 2 == 1 {
        return Err(Refusal::OddCoordinates);
    }
    let n = coordinates / 2;
    if n < least {
        return Err(Refusal::TooFewPoints);
    }
    if most < n {
        return Err(Refusal::TooManyPoints);
    }
    Ok(())
}
