//! The activity records, each with its fields in their ranges (docs/DOSSIER.md), and the emissions of each (docs/METHOD.md).

ghost use Rattle.std.specs.Prelude.{◌≡◌, ◌*◌, ◌^◌, ◌≤◌, pos};
ghost use Rattle.arithmetic.specs.Rounding.{ceil_div};

use crate::Words;
use crate::kinds::{Crop, FuelKind, LimeMaterial, NitrogenSource};
use units::Grams;

/// FU: grams of a fuel.
#[derive(Clone, Copy, Debug, PartialEq, Eq)]
pub struct Fuel {
    pub kind: FuelKind,
    pub grams: u64,
    pub ghost grams_small: { grams ≤ 10 ^ 12 },
}

/// VE: a count of vehicles, what each runs on average, in km or hours, and its rate in grams of fuel per km or hour.
#[derive(Clone, Copy, Debug, PartialEq, Eq)]
pub struct Vehicles {
    pub kind: FuelKind,
    pub count: u64,
    pub average: u64,
    pub rate: u64,
    pub ghost count_small: { count ≤ 1000 },
    pub ghost average_small: { average ≤ 10 ^ 6 },
    pub ghost rate_small: { rate ≤ 100000 },
    pub ghost fuel_small: { count * average * rate ≤ 10 ^ 12 },
}

/// NI: grams of a fertilizer, and its nitrogen content in ten-thousandths.
#[derive(Clone, Copy, Debug, PartialEq, Eq)]
pub struct Nitrogen {
    pub source: NitrogenSource,
    pub crop: Crop,
    pub grams: u64,
    pub content: u64,
    pub ghost grams_small: { grams ≤ 10 ^ 10 },
    pub ghost content_small: { content ≤ 10000 },
}

/// LI: grams of a material.
#[derive(Clone, Copy, Debug, PartialEq, Eq)]
pub struct Lime {
    pub material: LimeMaterial,
    pub grams: u64,
    pub ghost grams_small: { grams ≤ 10 ^ 12 },
}

/// Residues above or below the ground: their ratio to the yield, in hundredths, and their nitrogen content, in ten-thousandths.
#[derive(Clone, Copy, Debug, PartialEq, Eq)]
pub struct Part {
    pub ratio: u64,
    pub content: u64,
    pub ghost ratio_small: { ratio ≤ 500 },
    pub ghost content_small: { content ≤ 10000 },
}

/// CR, a nitrogen-fixing crop: the area in ha, the yield (harvest) in kg of dry matter per ha, the renewed share in ten-thousandths.
#[derive(Clone, Copy, Debug, PartialEq, Eq)]
pub struct FixingCrop {
    pub crop: Crop,
    pub area: u64,
    pub harvest: u64,
    pub renewed: u64,
    pub above: Part,
    pub below: Part,
    pub ghost area_small: { area ≤ 4294967295 },
    pub ghost harvest_small: { harvest ≤ 4294967295 },
    pub ghost grown_small: { area * harvest ≤ 10 ^ 8 },
    pub ghost renewed_small: { renewed ≤ 10000 },
}

/// An activity record of a year.
#[derive(Clone, Copy, Debug, PartialEq, Eq)]
pub enum Activity {
    Fuel(Fuel),
    Vehicles(Vehicles),
    Nitrogen(Nitrogen),
    Lime(Lime),
    Residue(FixingCrop),
}

/// The fuel that a factor of `FuelKind` is for, in grams.
const FUEL_DIVISOR: u64 = 100_000;

/// Grams of CO2 that 7 grams of nitrogen in N2O come to: 7 × 44 ÷ 28 × 298.
const N2O_WEIGHT: u64 = 3_278;

// Divisors are constants of the factors, named at each call: std's `NonZero` would be made and taken apart there.

// Grams of CO2 from grams of a material, factor from each divisor of them.
#[tactic(auto, using(crate::proofs::ActivityLaws::factored_le))]
fn by_factor(grams: u64, factor: u64, divisor: u64) -> Grams
    requires grams_bound { grams ≤ 10 ^ 12 }
    requires factor_bound { factor ≤ 4 * divisor }
    requires divisor_positive { 1 ≤ divisor }
    requires divisor_bound { divisor ≤ 100000 }
    ensures { result.0 ≡ pos (ceil_div (grams * factor) divisor) }
{
    // `as`: proved to fit, so that `try_from` would bring a case that never comes. So in `by_weight`.
    Grams(arithmetic::divided_up(grams * factor, divisor) as i64)
}

// Grams of CO2 from nitrogen, weight from each divisor of it. The product passes 64 bits, so the quotient of the nitrogen and its remainder are weighed apart.
#[tactic(auto, using(arithmetic::proofs::RoundingLaws::split_up, crate::proofs::ActivityLaws::weighed_le))]
fn by_weight(nitrogen: u64, weight: u64, divisor: u64) -> Grams
    requires nitrogen_bound { nitrogen ≤ 10 ^ 7 * divisor }
    requires weight_bound { weight ≤ 4671150 }
    requires divisor_positive { 1 ≤ divisor }
    requires divisor_bound { divisor ≤ 10 ^ 12 }
    ensures { result.0 ≡ pos (ceil_div (nitrogen * weight) divisor) }
{
    let rest = arithmetic::divided_up(nitrogen % divisor * weight, divisor);
    Grams((nitrogen / divisor * weight + rest) as i64)
}

impl FixingCrop {
    ghost use Rattle.std.specs.Prelude.{◌≡◌, ◌*◌, ◌^◌, ◌≤◌, pos};
    ghost use Rattle.arithmetic.specs.Rounding.{ceil_div};
    ghost use Rattle.activity.specs.Activity.{n2o_share, residue_nitrogen};
    ghost use Rattle.activity.specs.Kinds.{crop_number};
    ghost use Rattle.activity.specs.Filed.{crop_as_filed};

    // The nitrogen of its residues, in 10^-7 grams. It passes 63 bits and fits 64.
    #[tactic(auto, using(crate::proofs::ActivityLaws::product_le, crate::proofs::ActivityLaws::parts_le))]
    fn nitrogen(self) -> u64
        ensures value { result ≡ residue_nitrogen (crop_as_filed self) }
        ensures bound { result ≤ 10 ^ 19 }
    {
        self.area
            * self.harvest
            * self.renewed
            * (self.above.ratio * self.above.content + self.below.ratio * self.below.content)
    }

    // Its nitrogen is of crop residue. That share is a multiple of 7, and so is the divisor 7 × 10^12; without that factor the remainder's product fits.
    #[tactic(auto, using(crate::proofs::ActivityLaws::residue_cancelled))]
    fn emissions(self) -> Grams
        ensures { result.0 ≡ pos (ceil_div (residue_nitrogen (crop_as_filed self) * n2o_share 3 (crop_number self.crop) * 3278) 7000000000000) }
    {
        let weight = NitrogenSource::Residue.n2o_share(self.crop) / 7 * N2O_WEIGHT;
        by_weight(self.nitrogen(), weight, 1_000_000_000_000)
    }
}

impl Activity {
    ghost use Rattle.std.specs.Prelude.{◌≡◌, pos};
    ghost use Rattle.activity.specs.Activity.{activity_grams};
    ghost use Rattle.activity.specs.Filed.{as_filed};
    ghost use Rattle.activity.specs.Key.{key as key_of};

    /// Grams of CO2, rounded up record by record.
    #[tactic(auto, unfolding(crate::specs::Activity::activity_grams, crate::specs::Activity::denominator, crate::specs::Activity::numerator))]
    pub fn emissions(self) -> Grams
        ensures { result.0 ≡ pos (activity_grams (as_filed self)) }
    {
        match self {
            Activity::Fuel(fuel) => by_factor(fuel.grams, fuel.kind.factor(), FUEL_DIVISOR),
            Activity::Vehicles(vehicles) => by_factor(
                vehicles.count * vehicles.average * vehicles.rate,
                vehicles.kind.factor(),
                FUEL_DIVISOR,
            ),
            Activity::Nitrogen(nitrogen) => by_weight(
                nitrogen.grams * nitrogen.content,
                nitrogen.source.n2o_share(nitrogen.crop) * N2O_WEIGHT,
                7_000_000_000,
            ),
            Activity::Lime(lime) => by_factor(lime.grams, lime.material.factor(), 300),
            Activity::Residue(residue) => residue.emissions(),
        }
    }

    /// The record as two numbers, which tell it: its fields one after the other, and which of the five it is. CR alone needs the high one.
    #[tactic(auto, unfolding(crate::specs::Key::key))]
    pub fn key(self) -> Words
        ensures { result ≡ key_of (as_filed self) }
    {
        // `as`: of a kind to its number in the record; a `From` of its own would say the numbers once more.
        match self {
            Activity::Fuel(Fuel { kind, grams }) => Words {
                low: (grams * 4 + kind as u64) * 8,
                high: 0,
            },
            Activity::Vehicles(
                Vehicles {
                    kind,
                    count,
                    average,
                    rate,
                },
            ) => Words {
                low: (((rate * 1_048_576 + average) * 1_024 + count) * 4 + kind as u64) * 8 + 1,
                high: 0,
            },
            Activity::Nitrogen(
                Nitrogen {
                    source,
                    crop,
                    grams,
                    content,
                },
            ) => Words {
                low: (((grams * 16_384 + content) * 4 + crop as u64) * 4 + source as u64) * 8 + 2,
                high: 0,
            },
            Activity::Lime(Lime { material, grams }) => Words {
                low: (grams * 4 + material as u64) * 8 + 3,
                high: 0,
            },
            Activity::Residue(
                FixingCrop {
                    crop,
                    area,
                    harvest,
                    renewed,
                    above,
                    below,
                },
            ) => {
                let contents = above.content * 10_001 + below.content;
                let shares = contents * 10_001 + renewed;
                let fields = (shares * 501 + above.ratio) * 501 + below.ratio;
                Words {
                    low: (fields * 4 + crop as u64) * 8 + 4,
                    high: area * 4_294_967_296 + harvest,
                }
            }
        }
    }
}
