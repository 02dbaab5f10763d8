//! Activity records and their emissions.
#![tactic(auto)]

mod kinds;
mod records;

pub use kinds::{Crop, FuelKind, LimeMaterial, NitrogenSource};
pub use records::{Activity, FixingCrop, Fuel, Lime, Nitrogen, Part, Vehicles};

/// A record as two numbers, which tell the record.
#[derive(Clone, Copy, Debug, PartialEq, Eq)]
pub struct Words {
    pub low: u64,
    pub high: u64,
}
