// The root alone, for those who compare it with another for every radicand.
#![tactic(auto)]

ghost use Rattle.std.specs.Prelude.{◌≡◌, cond, ◌^◌, ◌≤◌, ltb};
ghost use Rattle.rules.specs.Root.{root as root_of};

// m, and 0 for more than 2^23.
fn radicand(m: u32) -> u32
    ensures value { result ≡ cond (ltb 8388608 m) 0 m }
    ensures upper_bound { result ≤ 2 ^ 23 }
{
    if 8388608 < m { 0 } else { m }
}

pub fn hasplight_root(m: u32) -> f32
    ensures { result ≡ root_of (cond (ltb 8388608 m) 0 m) }
{
    root::root(radicand(m))
}
