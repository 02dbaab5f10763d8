//! The marks of the records (docs/DOSSIER.md): two letters as one number, the most significant first. Numbers and not an enum: any two bytes may
//! stand where a mark is due.

/// The head: option, first year and number of years.
pub const HD: u64 = 0x4844;

/// Carbon stocks by class, where the built-in ones do not apply.
pub const ST: u64 = 0x5354;

/// The project area at inception, by class.
pub const PA: u64 = 0x5041;

/// The displacement belt at inception, by class.
pub const DA: u64 = 0x4441;

/// The transition matrix of Option 2.
pub const MP: u64 = 0x4d50;

/// A year and its operating days.
pub const YR: u64 = 0x5952;

/// The project area's conversions in a year.
pub const CP: u64 = 0x4350;

/// The belt's conversions in a year.
pub const CD: u64 = 0x4344;

/// In place of a year's activity records: they are those of the plan.
pub const PL: u64 = 0x504c;

/// Fuel.
pub const FU: u64 = 0x4655;

/// Vehicles or machines.
pub const VE: u64 = 0x5645;

/// Nitrogen.
pub const NI: u64 = 0x4e49;

/// Lime and urea.
pub const LI: u64 = 0x4c49;

/// A nitrogen-fixing crop.
pub const CR: u64 = 0x4352;

/// A year of a plan.
pub const PY: u64 = 0x5059;

/// The end of a dossier or of a plan.
pub const EN: u64 = 0x454e;
