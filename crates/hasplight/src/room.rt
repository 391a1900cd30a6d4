// How much room the entries lend on, and how much of it was written.
ghost use Rattle.std.specs.Prelude.{◌≡◌, ◌*◌, ◌≤◌};
ghost use Rattle.rules.specs.Limits.{most_indices};
ghost use Rattle.hasplight.specs.Promise.{least_of, corners_of};

use entries::MOST_INDICES;

// n, or the most that is ever asked for where it is more.
pub fn least(n: usize) -> usize
    ensures value { result ≡ least_of n }
    ensures upper_bound { result ≤ most_indices }
{
    n.min(MOST_INDICES)
}

// Three indices for each triangle.
pub fn tripled(count: u32) -> usize
    ensures { result ≡ 3 * count }
{
    3 * count as usize
}

// How many indices a merge of t indices has written: each piece has two corners more than it has triangles.
pub fn corners(number: u32, t: usize, count: u32) -> usize
    requires { t ≤ most_indices }
    ensures { result ≡ corners_of number t count }
{
    if number != 0 {
        return 0;
    }
    t / 3 + 2 * count as usize
}
