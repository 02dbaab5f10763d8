//! Division rounded up, and the size of a signed number.
#![tactic(auto)]

ghost use Rattle.std.specs.Prelude.{◌≡◌, ◌+◌, ◌-◌, ◌^◌, ◌≤◌, ◌<◌};
ghost use Rattle.std.specs.Int.Signed.{mag};
ghost use Rattle.arithmetic.specs.Rounding.{ceil_div};

/// n ÷ d, rounded up, by one division: by a constant it takes less than std's `div_ceil`, which divides once more for the remainder.
#[tactic(auto, unfolding(crate::specs::Rounding::ceil_div))]
pub fn divided_up(n: u64, d: u64) -> u64
    requires divisor { 1 ≤ d }
    requires room { n + (d - 1) < 2 ^ 64 }
    ensures { result ≡ ceil_div n d }
{
    (n + (d - 1)) / d
}

/// n, both of n and of -(n + 1).
pub fn magnitude(z: i64) -> u64
    ensures { result ≡ mag z }
{
    // `as`: neither is below 0.
    if z < 0 { (-1 - z) as u64 } else { z as u64 }
}
