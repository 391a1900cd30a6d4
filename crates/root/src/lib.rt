// The rounded square root of a whole number, and the pointiness of a corner: what the crate takes from `normalize`.
#![tactic(auto)]

mod radicand;

ghost use Rattle.std.specs.Prelude.{◌≡◌, ◌^◌, ◌<◌, ◌≤◌};
ghost use Rattle.std.specs.Float.{binary32};
ghost use Rattle.std.specs.Float.Ieee.{mul, of_int};
ghost use Rattle.rules.specs.Plane.{minus};
ghost use Rattle.rules.specs.Root.{reciprocal as reciprocal_of, root as root_of, pointiness as pointiness_of};
ghost use Rattle.grid.specs.Points.{pt_of};

use grid::point::Point;
use grid::vector::Vector;
use radicand::Radicand;

// The root of m: the f32 that is k / 2^j, with the 24 binary digits of k.
pub fn root(m: u32) -> f32
    requires { m ≤ 2 ^ 23 }
    ensures { result ≡ root_of m }
{
    if m == 0 {
        return 0.0;
    }
    let radicand = Radicand::new(m);
    let k = radicand.nearest_root();
    f32::from_bits((149 - radicand.exponent) * 8388608 + k as u32)
}

// Whether the root of m is guessed, so that its digits are not worked out.
pub fn is_guessed(m: u32) -> bool
    requires m_nonzero { 0 < m }
    requires m_bound { m ≤ 2 ^ 23 }
{
    Radicand::new(m).try_guess().is_some()
}

// 1 / len of the vector from p to q.
pub fn reciprocal(q: Point, p: Point) -> f32
    ensures { result ≡ reciprocal_of (minus (pt_of q) (pt_of p)) }
{
    let d = q.side_from(p);
    let square = d.dot(d);
    1.0 / root(square as u32)
}

// The vector from p to q by r, the reciprocal of its length.
fn direction(q: Point, p: Point, r: f32) -> Vector
    requires { r ≡ reciprocal_of (minus (pt_of q) (pt_of p)) }
    ensures x { result.x ≡ mul binary32 (of_int binary32 (minus (pt_of q) (pt_of p)).x) (reciprocal_of (minus (pt_of q) (pt_of p))) }
    ensures y { result.y ≡ mul binary32 (of_int binary32 (minus (pt_of q) (pt_of p)).y) (reciprocal_of (minus (pt_of q) (pt_of p))) }
{
    q.side_from(p).scaled(r)
}

// The pointiness of the corner p between q, the one before it, and s, the one after it, from the reciprocals of the lengths to both.
pub fn pointiness(q: Point, p: Point, s: Point, before: f32, after: f32) -> f32
    requires before_is { before ≡ reciprocal_of (minus (pt_of q) (pt_of p)) }
    requires after_is { after ≡ reciprocal_of (minus (pt_of s) (pt_of p)) }
    ensures { result ≡ pointiness_of (minus (pt_of q) (pt_of p)) (minus (pt_of s) (pt_of p)) }
{
    let v = direction(q, p, before);
    let w = direction(s, p, after);
    v.dot(w)
}
