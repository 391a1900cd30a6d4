// The exported root as a static library, for the comparison.
#![tactic(auto)]

ghost use Rattle.std.specs.Prelude.{◌≡◌, cond, ltb};
ghost use Rattle.rules.specs.Root.{root as root_of};

#[unsafe(no_mangle)]
pub extern "C" fn hasplight_root(m: u32) -> f32
    ensures { result ≡ root_of (cond (ltb 8388608 m) 0 m) }
{
    radicands::hasplight_root(m)
}
