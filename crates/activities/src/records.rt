//! The activity records FU, VE, NI, LI and CR, each from its fields on.
#![tactic(auto, unfolding(dossier::specs::JudgingRecords::fields_of, dossier::specs::JudgingRecords::in_range, dossier::specs::Reader::followed, dossier::specs::Reader::present, dossier::specs::Reader::field, dossier::specs::Reader::within, dossier::specs::Reader::outside, dossier::specs::Reader::give, wire::specs::Bytes::total))]

ghost use Rattle.std.specs.Prelude.{◌≡◌, ◌≤◌, length, OnOk};
ghost use Rattle.activity.specs.Filed.{as_filed};
ghost use Rattle.dossier.specs.Reader.{present};
ghost use Rattle.dossier.specs.Layouts.{fuel, vehicles, nitrogen, lime, residue};
ghost use Rattle.dossier.specs.JudgingRecords.{fields_of, activity_mark};
ghost use Rattle.cursor.specs.Says.{says, done};
ghost use Rattle.activities.specs.Answers.{SaysUnder};

use activity::{
    Activity, Crop, FixingCrop, Fuel, FuelKind, Lime, LimeMaterial, Nitrogen, NitrogenSource, Part,
    Vehicles,
};
use cursor::Reader;
use cursor::marks::{CR, FU, LI, NI, VE};
use refusals::Refusal;

/// The most grams of FU, VE and LI.
const GREATEST_MASS: u64 = 1_000_000_000_000;

/// A whole in ten-thousandths: the most that a share or a nitrogen content is.
const WHOLE: u64 = 10_000;

/// The most that a ratio of residues to their yield is, in hundredths.
const GREATEST_RATIO: u64 = 500;

// That so many bytes of fields are left: otherwise `BytesMissing`.
fn present(reader: &Reader, size: usize) -> Result<(), Refusal>
    ensures value { says done result reader.now ≡ present size reader.now }
    ensures room { OnOk result (size ≤ length reader.now) }
{
    if reader.rest().len() < size {
        return Err(Refusal::BytesMissing);
    }
    Ok(())
}

// FU and LI differ in the type of the kind: one function over both types would ask for the numbers of each in its contract, and be no plainer.

// FU from its fields on.
fn read_fuel(reader: &mut Reader) -> Result<Activity, Refusal>
    ensures { says as_filed result reader.new ≡ fields_of fuel reader.old }
{
    present(reader, 9)?;
    let kind = FuelKind::try_from(reader.u8())?;
    let grams = reader.u64();
    if grams > GREATEST_MASS {
        return Err(Refusal::ActivityOutOfRange);
    }
    Ok(Activity::Fuel(Fuel { kind, grams }))
}

// VE from its fields on.
fn read_vehicles(reader: &mut Reader) -> Result<Activity, Refusal>
    ensures { says as_filed result reader.new ≡ fields_of vehicles reader.old }
{
    present(reader, 13)?;
    let kind = FuelKind::try_from(reader.u8())?;
    let count = u64::from(reader.u32());
    let average = u64::from(reader.u32());
    let rate = u64::from(reader.u32());
    if count > 1_000 || average > 1_000_000 || rate > 100_000 {
        return Err(Refusal::ActivityOutOfRange);
    }
    if count * average * rate > GREATEST_MASS {
        return Err(Refusal::ActivityOutOfRange);
    }
    Ok(Activity::Vehicles(Vehicles {
        kind,
        count,
        average,
        rate,
    }))
}

// NI from its fields on.
fn read_nitrogen(reader: &mut Reader) -> Result<Activity, Refusal>
    ensures { says as_filed result reader.new ≡ fields_of nitrogen reader.old }
{
    present(reader, 12)?;
    let source = NitrogenSource::try_from(reader.u8())?;
    let crop = Crop::try_from(reader.u8())?;
    let grams = reader.u64();
    let content = u64::from(reader.u16());
    if grams > 10_000_000_000 || content > WHOLE {
        return Err(Refusal::ActivityOutOfRange);
    }
    Ok(Activity::Nitrogen(Nitrogen {
        source,
        crop,
        grams,
        content,
    }))
}

// LI from its fields on.
fn read_lime(reader: &mut Reader) -> Result<Activity, Refusal>
    ensures { says as_filed result reader.new ≡ fields_of lime reader.old }
{
    present(reader, 9)?;
    let material = LimeMaterial::try_from(reader.u8())?;
    let grams = reader.u64();
    if grams > GREATEST_MASS {
        return Err(Refusal::ActivityOutOfRange);
    }
    Ok(Activity::Lime(Lime { material, grams }))
}

// CR from its fields on. Area and yield have no limit of their own but their 32 bits: their product is tested.
fn read_residue(reader: &mut Reader) -> Result<Activity, Refusal>
    ensures { says as_filed result reader.new ≡ fields_of residue reader.old }
{
    present(reader, 19)?;
    let crop = Crop::try_from(reader.u8())?;
    let area = u64::from(reader.u32());
    let harvest = u64::from(reader.u32());
    let renewed = u64::from(reader.u16());
    let above_ratio = u64::from(reader.u16());
    let below_ratio = u64::from(reader.u16());
    let above_content = u64::from(reader.u16());
    let below_content = u64::from(reader.u16());
    if area * harvest > 100_000_000 || renewed > WHOLE {
        return Err(Refusal::ActivityOutOfRange);
    }
    if above_ratio > GREATEST_RATIO
        || below_ratio > GREATEST_RATIO
        || above_content > WHOLE
        || below_content > WHOLE
    {
        return Err(Refusal::ActivityOutOfRange);
    }
    Ok(Activity::Residue(FixingCrop {
        crop,
        area,
        harvest,
        renewed,
        above: Part {
            ratio: above_ratio,
            content: above_content,
        },
        below: Part {
            ratio: below_ratio,
            content: below_content,
        },
    }))
}

/// Whether a mark is that of an activity record.
#[tactic(auto, unfolding(dossier::specs::JudgingRecords::activity_mark))]
pub fn is_activity(mark: u64) -> bool
    ensures { result ≡ activity_mark mark }
{
    matches!(mark, FU | VE | NI | LI | CR)
}

/// The activity record that stands after its mark; none where the mark is another.
#[tactic(auto, unfolding(dossier::specs::JudgingRecords::activity_mark, dossier::specs::JudgingRecords::activity_under))]
pub fn read_activity(mark: u64, reader: &mut Reader) -> Option<Result<Activity, Refusal>>
    ensures { SaysUnder mark reader.old result reader.new }
{
    match mark {
        FU => Some(read_fuel(reader)),
        VE => Some(read_vehicles(reader)),
        NI => Some(read_nitrogen(reader)),
        LI => Some(read_lime(reader)),
        CR => Some(read_residue(reader)),
        _ => None,
    }
}
