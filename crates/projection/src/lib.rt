//! The projection of a region, project area or belt, over a year.
#![tactic(auto)]

ghost use Rattle.std.specs.Prelude.{◌≡◌, ◌+◌, ◌*◌, ◌/◌, ◌≤◌, ◌<◌, replicate};
ghost use Rattle.classes.specs.Matrix.{entry, million};
ghost use Rattle.classes.specs.Ranges.{RowsWithin, FactorsFit, greatest_carbon};
ghost use Rattle.projection.specs.Projection.{area_total, next_area, next_areas, lost_area, projected_carbon, opened_region};
ghost use Rattle.projection.specs.Ranges.{SmallArea};
ghost use Rattle.projection.specs.Inflow.{inflow_carbon, projected_year};

use classes::{Factors, Matrix, place};
use std::marker::Model;
use units::{AreaUnits, CarbonUnits};

/// The twelve areas of a region by class, and its balance: the area that rounding lost so far. Together they are at most 10^12 area units.
#[derive(Clone, Copy, Debug)]
pub struct Region {
    pub areas: [AreaUnits; 12],
    pub balance: AreaUnits,
}

impl Model for Region {
    ghost use Rattle.projection.specs.Values.{RegionValue};

    ghost Value = { RegionValue };

    ghost use Rattle.projection.specs.Ranges.{IsRegion};

    ghost view = { λ region. record { areas = region.areas; balance = region.balance } };

    ghost inverse = { λ region. record { areas = region.areas; balance = region.balance } };

    ghost invariant = { λ region. IsRegion (record { areas = region.areas; balance = region.balance }) };
}

/// A region after a year, and the projected carbon of that year.
#[derive(Drop)]
pub struct Projected {
    pub region: Region,
    pub carbon: CarbonUnits,
}

/// What flows into each class, and the carbon that all of it sets free.
#[derive(Drop)]
struct Inflows {
    areas: [AreaUnits; 12],
    carbon: CarbonUnits,
}

/// The flow of an area at a probability in millionths, rounded down.
fn flow(area: AreaUnits, probability: u64) -> AreaUnits
    requires small_area { SmallArea area.0 }
    requires small_probability { probability ≤ million }
    ensures { result.0 ≡ area.0 * probability / million }
{
    AreaUnits(area.0 * probability / 1_000_000)
}

/// The total of twelve areas.
#[tactic(auto, using(crate::proofs::ProjectionLaws::total_by_class))]
fn area_total(areas: &[AreaUnits; 12]) -> AreaUnits
    requires { SmallArea (area_total areas.now) }
    ensures { result.0 ≡ area_total areas.now }
{
    areas.iter().copied().sum()
}

impl Region {
    /// No area at all.
    #[tactic(auto, unfolding(arithmetic::specs::Sum::sum, crate::specs::Projection::opened_region))]
    pub fn none() -> Region
        ensures { result ≡ opened_region (replicate 12 (record { 0 = 0 })) }
    {
        Region::opened([AreaUnits(0); 12])
    }

    /// A region before its first year: the areas at inception, at most 10^12 area units, and no balance.
    #[tactic(auto, unfolding(crate::specs::Projection::opened_region))]
    pub fn opened(areas: [AreaUnits; 12]) -> Region
        requires { SmallArea (area_total areas) }
        ensures { result ≡ opened_region areas }
    {
        Region {
            areas,
            balance: AreaUnits(0),
        }
    }

    /// The flows into every class, and their carbon.
    #[tactic(auto, using(crate::proofs::ProjectionLaws::class_turns), unfolding(crate::specs::Inflow::inflow_carbon, crate::specs::Projection::next_area))]
    fn flows(&self, matrix: &Matrix, factors: &Factors) -> Inflows
        ensures areas { result.areas ≡ next_areas self.now.areas matrix.now }
        ensures carbon { result.carbon.0 ≡ projected_carbon (entry factors.now) self.now.areas matrix.now }
        ensures small { result.carbon.0 ≤ greatest_carbon }
        ensures kept { area_total result.areas + lost_area self.now.areas matrix.now ≡ area_total self.now.areas }
    {
        let mut areas = [AreaUnits(0); 12];
        let mut carbon = CarbonUnits(0);
        for class in 0..12 {
            let mut area = AreaUnits(0);
            for from in 0..12 {
                let pair = place(from, class);
                let flowing = flow(self.areas[from], matrix.entries[pair]);
                area += flowing;
                carbon += flowing * factors.entries[pair];
            }
            areas[class] = area;
        }
        Inflows { areas, carbon }
    }

    /// A year of this region by a matrix and a table of emission factors.
    #[tactic(auto, unfolding(crate::specs::Inflow::projected_year, crate::specs::Projection::projected_region))]
    pub fn projected(&self, matrix: &Matrix, factors: &Factors) -> Projected
        ensures value { result ≡ projected_year (entry factors.now) matrix.now self.now }
        ensures small { result.carbon.0 ≤ greatest_carbon }
    {
        let Inflows { areas, carbon } = self.flows(matrix, factors);
        let lost = area_total(&self.areas) - area_total(&areas);
        Projected {
            region: Region {
                areas,
                balance: self.balance + lost,
            },
            carbon,
        }
    }
}
