//! The three units that the reckoning is in. No sum takes two of them, and only an area times a factor makes carbon of area.
#![tactic(auto)]

ghost use Rattle.std.specs.Prelude.{◌≡◌, ◌+◌, ◌-◌, ◌*◌, ◌^◌, ◌<◌, ◌≤◌, ◌+ℤ◌, ◌-ℤ◌, FitsSigned};
ghost use Rattle.std.specs.Int.{w64};
ghost use Rattle.units.specs.Units.{total_area, total_carbon};

use std::iter::Sum;
use std::ops::{Add, AddAssign, Mul, Sub};

// The operators stand for each unit by themselves: a trait is implemented type by type, and each unit is a struct of its own, so that no sum takes two.

/// An area, in millionths of a hectare.
#[derive(Clone, Copy, Debug, PartialEq, Eq, PartialOrd, Ord)]
pub struct AreaUnits(pub u64);

/// Carbon, in units of 10^-8 tC: what a millionth of a hectare has at a hundredth of a tC per ha.
#[derive(Clone, Copy, Debug, PartialEq, Eq, PartialOrd, Ord)]
pub struct CarbonUnits(pub u64);

/// CO2, or CO2-equivalent, in grams; negative where more is lost than was projected.
#[derive(Clone, Copy, Debug, PartialEq, Eq, PartialOrd, Ord)]
pub struct Grams(pub i64);

impl Add for AreaUnits {
    type Output = AreaUnits;

    ghost can_add = { λ a b. a.0 + b.0 < 2 ^ 64 };

    ghost add_gives = { λ a b sum. sum.0 ≡ a.0 + b.0 };

    fn add(self, other: AreaUnits) -> AreaUnits {
        AreaUnits(self.0 + other.0)
    }
}

impl Sub for AreaUnits {
    type Output = AreaUnits;

    ghost can_sub = { λ a b. b.0 ≤ a.0 };

    ghost sub_gives = { λ a b difference. difference.0 ≡ a.0 - b.0 };

    fn sub(self, other: AreaUnits) -> AreaUnits {
        AreaUnits(self.0 - other.0)
    }
}

impl AddAssign for AreaUnits {
    ghost can_add_assign = { λ a b. a.0 + b.0 < 2 ^ 64 };

    ghost add_assign_gives = { λ a b sum. sum.0 ≡ a.0 + b.0 };

    fn add_assign(&mut self, other: AreaUnits) {
        self.0 += other.0;
    }
}

/// The carbon of an area at a factor in hundredths of tC per ha.
impl Mul<u64> for AreaUnits {
    type Output = CarbonUnits;

    ghost can_mul = { λ area factor. area.0 * factor < 2 ^ 64 };

    ghost mul_gives = { λ area factor carbon. carbon.0 ≡ area.0 * factor };

    fn mul(self, factor: u64) -> CarbonUnits {
        CarbonUnits(self.0 * factor)
    }
}

impl Sum<AreaUnits> for AreaUnits {
    ghost can_sum = { λ areas. total_area areas < 2 ^ 64 };

    ghost sum_gives = { λ areas sum. sum.0 ≡ total_area areas };

    fn sum<I: Iterator<Item = AreaUnits>>(iter: I) -> AreaUnits {
        let mut total = AreaUnits(0);
        for area in iter {
            total += area;
        }
        total
    }
}

impl Add for CarbonUnits {
    type Output = CarbonUnits;

    ghost can_add = { λ a b. a.0 + b.0 < 2 ^ 64 };

    ghost add_gives = { λ a b sum. sum.0 ≡ a.0 + b.0 };

    fn add(self, other: CarbonUnits) -> CarbonUnits {
        CarbonUnits(self.0 + other.0)
    }
}

impl AddAssign for CarbonUnits {
    ghost can_add_assign = { λ a b. a.0 + b.0 < 2 ^ 64 };

    ghost add_assign_gives = { λ a b sum. sum.0 ≡ a.0 + b.0 };

    fn add_assign(&mut self, other: CarbonUnits) {
        self.0 += other.0;
    }
}

impl Sum<CarbonUnits> for CarbonUnits {
    ghost can_sum = { λ parts. total_carbon parts < 2 ^ 64 };

    ghost sum_gives = { λ parts sum. sum.0 ≡ total_carbon parts };

    fn sum<I: Iterator<Item = CarbonUnits>>(iter: I) -> CarbonUnits {
        let mut total = CarbonUnits(0);
        for carbon in iter {
            total += carbon;
        }
        total
    }
}

impl Add for Grams {
    type Output = Grams;

    ghost can_add = { λ a b. FitsSigned w64 (a.0 +ℤ b.0) };

    ghost add_gives = { λ a b sum. sum.0 ≡ a.0 +ℤ b.0 };

    fn add(self, other: Grams) -> Grams {
        Grams(self.0 + other.0)
    }
}

impl Sub for Grams {
    type Output = Grams;

    ghost can_sub = { λ a b. FitsSigned w64 (a.0 -ℤ b.0) };

    ghost sub_gives = { λ a b difference. difference.0 ≡ a.0 -ℤ b.0 };

    fn sub(self, other: Grams) -> Grams {
        Grams(self.0 - other.0)
    }
}

impl AddAssign for Grams {
    ghost can_add_assign = { λ a b. FitsSigned w64 (a.0 +ℤ b.0) };

    ghost add_assign_gives = { λ a b sum. sum.0 ≡ a.0 +ℤ b.0 };

    fn add_assign(&mut self, other: Grams) {
        self.0 += other.0;
    }
}
