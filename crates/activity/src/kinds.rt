//! The kinds that an activity record names by a number, and their factors.

ghost use Rattle.std.specs.Prelude.{◌≡◌, ◌≤◌};
ghost use Rattle.activity.specs.Activity.{fuel_factor, n2o_share, lime_factor};
ghost use Rattle.activity.specs.Kinds.{fuel_kind_number, nitrogen_source_number, crop_number, lime_material_number, IsKindOf};

use refusals::Refusal;

// Each has a conversion of its own from its number: a trait is implemented type by type, and no type has the numbers of another.

/// A fuel: of FU, and of the vehicles of VE.
#[derive(Clone, Copy, Debug, PartialEq, Eq)]
pub enum FuelKind {
    Diesel = 1,
    Gasoline = 2,
    Crude = 3,
}

/// Where the nitrogen applied to a soil comes from.
#[derive(Clone, Copy, Debug, PartialEq, Eq)]
pub enum NitrogenSource {
    Synthetic = 1,
    Organic = 2,
    Residue = 3,
}

/// The crop of a soil that nitrogen is applied to.
#[derive(Clone, Copy, Debug, PartialEq, Eq)]
pub enum Crop {
    Other = 1,
    FloodedRice = 2,
}

/// What of LI sets CO2 free.
#[derive(Clone, Copy, Debug, PartialEq, Eq)]
pub enum LimeMaterial {
    Limestone = 1,
    Dolomite = 2,
    Urea = 3,
}

impl TryFrom<u8> for FuelKind {
    type Error = Refusal;

    ghost try_from_gives = { λ number result. IsKindOf fuel_kind_number 3 number result };

    fn try_from(number: u8) -> Result<FuelKind, Refusal> {
        match number {
            1 => Ok(FuelKind::Diesel),
            2 => Ok(FuelKind::Gasoline),
            3 => Ok(FuelKind::Crude),
            _ => Err(Refusal::ActivityOutOfRange),
        }
    }
}

impl TryFrom<u8> for NitrogenSource {
    type Error = Refusal;

    ghost try_from_gives = { λ number result. IsKindOf nitrogen_source_number 3 number result };

    fn try_from(number: u8) -> Result<NitrogenSource, Refusal> {
        match number {
            1 => Ok(NitrogenSource::Synthetic),
            2 => Ok(NitrogenSource::Organic),
            3 => Ok(NitrogenSource::Residue),
            _ => Err(Refusal::ActivityOutOfRange),
        }
    }
}

impl TryFrom<u8> for Crop {
    type Error = Refusal;

    ghost try_from_gives = { λ number result. IsKindOf crop_number 2 number result };

    fn try_from(number: u8) -> Result<Crop, Refusal> {
        match number {
            1 => Ok(Crop::Other),
            2 => Ok(Crop::FloodedRice),
            _ => Err(Refusal::ActivityOutOfRange),
        }
    }
}

impl TryFrom<u8> for LimeMaterial {
    type Error = Refusal;

    ghost try_from_gives = { λ number result. IsKindOf lime_material_number 3 number result };

    fn try_from(number: u8) -> Result<LimeMaterial, Refusal> {
        match number {
            1 => Ok(LimeMaterial::Limestone),
            2 => Ok(LimeMaterial::Dolomite),
            3 => Ok(LimeMaterial::Urea),
            _ => Err(Refusal::ActivityOutOfRange),
        }
    }
}

impl FuelKind {
    /// Grams of CO2 from 100,000 grams of the fuel (docs/METHOD.md, "FU and VE").
    pub fn factor(self) -> u64
        ensures value { result ≡ fuel_factor (fuel_kind_number self) }
        ensures bound { result ≤ 318630 }
    {
        match self {
            FuelKind::Diesel => 318_630,
            FuelKind::Gasoline => 306_999,
            FuelKind::Crude => 310_059,
        }
    }
}

impl NitrogenSource {
    /// The share of the nitrogen applied to a crop that turns into N2O, in 10^-5 (2006 IPCC Guidelines, volume 4, tables 11.1 and 11.3).
    pub fn n2o_share(self, crop: Crop) -> u64
        ensures value { result ≡ n2o_share (nitrogen_source_number self) (crop_number crop) }
        ensures bound { result ≤ 1425 }
    {
        let direct = match crop {
            Crop::Other => 1_000,
            Crop::FloodedRice => 300,
        };
        let indirect = match self {
            NitrogenSource::Synthetic => 325,
            NitrogenSource::Organic => 425,
            NitrogenSource::Residue => 225,
        };
        direct + indirect
    }
}

impl LimeMaterial {
    /// Grams of CO2 from 300 grams of the material (methodology, equations 25 and 26).
    pub fn factor(self) -> u64
        ensures value { result ≡ lime_factor (lime_material_number self) }
        ensures bound { result ≤ 220 }
    {
        match self {
            LimeMaterial::Limestone => 132,
            LimeMaterial::Dolomite => 143,
            LimeMaterial::Urea => 220,
        }
    }
}
