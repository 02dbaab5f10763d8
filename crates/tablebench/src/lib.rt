//! The reader of conversion tables before the one of the product, and a call of either, for bench/tables. No part of the product.
#![tactic(auto)]

ghost use Rattle.std.specs.Prelude.{◌≡◌, map, SomeIff, IfSome, IfOk};
ghost use Rattle.wire.specs.Bytes.{number, total as sum_of};
ghost use Rattle.classes.specs.Matrix.{entry};
ghost use Rattle.figures.specs.Figures.{monitored_carbon};
ghost use Rattle.figures.specs.Ranges.{SmallCarbon};
ghost use Rattle.cursor.specs.Says.{says};
ghost use Rattle.tables.specs.Answers.{monitored_table};
ghost use Rattle.tablebench.specs.Said.{ReadsTables, amount, carbon_said, both_tables};

use cursor::Reader;
use cursor::marks::{CD, CP};
use refusals::Refusal;
use tables::Weighing;
use units::{AreaUnits, CarbonUnits};

// What follows is a twin of `tables::Weighing` on purpose: the two readers are what bench/tables times side by side.

/// The carbon of a table's conversions, if their areas come to the total. Each is tested against what is left of it.
#[tactic(auto, using(crate::proofs::EntriesLaws::area_of_all, crate::proofs::EntriesLaws::carbon_of_all), unfolding(arithmetic::specs::Sum::sum))]
fn carbon_of(weighing: &Weighing, conversions: &[[u8; 8]; 144]) -> Option<CarbonUnits>
    ensures value { SomeIff result (sum_of (map number conversions.now) ≡ weighing.now.total.0) (record { 0 = monitored_carbon (entry weighing.now.factors.now) (map number conversions.now) }) }
    ensures small { IfSome result (λ carbon. SmallCarbon carbon.0) }
{
    let Weighing { total, factors } = *weighing;
    let mut left = total;
    let mut carbon = CarbonUnits(0);
    for (k, conversion) in conversions.iter().enumerate() {
        let area = tables::area_of(conversion);
        if left < area {
            return None;
        }
        left = left - area;
        carbon += area * factors.entries[k];
    }
    if left != AreaUnits(0) {
        return None;
    }
    Some(carbon)
}

/// The carbon of CP or CD, as `Weighing::read_table` has it, by the entries one after another.
#[tactic(auto, unfolding(tables::specs::Answers::monitored_table, dossier::specs::JudgingRecords::conversions, dossier::specs::Reader::followed, dossier::specs::Reader::fields, dossier::specs::Reader::equal, dossier::specs::Reader::give))]
fn read_by_entries(
    weighing: &Weighing,
    reader: &mut Reader,
    mark: u64,
) -> Result<CarbonUnits, Refusal>
    ensures value { says (λ carbon. carbon) result reader.new ≡ monitored_table (entry weighing.now.factors.now) mark weighing.now.total.0 reader.old }
    ensures small { IfOk result (λ carbon. SmallCarbon carbon.0) }
{
    reader.begin(mark, 1152)?;
    carbon_of(weighing, reader.fields()).ok_or(Refusal::ConversionTotalWrong)
}

/// The carbon of CP and CD together, each read by `read`, both weighed alike.
#[tactic(auto, unfolding(crate::specs::Said::both_tables, dossier::specs::Reader::followed, dossier::specs::Reader::give))]
fn read_both<F: Fn(&mut Reader, u64) -> Result<CarbonUnits, Refusal>>(
    weighing: &Weighing,
    reader: &mut Reader,
    read: F,
) -> Result<CarbonUnits, Refusal>
    requires callable { F.IsAlwaysCallable read }
    requires reads { ReadsTables (entry weighing.now.factors.now) weighing.now.total.0 (F.post read) }
    ensures { says amount result reader.new ≡ both_tables (entry weighing.now.factors.now) weighing.now.total.0 reader.old }
{
    let project = read(reader, CP)?;
    let belt = read(reader, CD)?;
    Ok(project + belt)
}

/// The carbon of CP and CD, both weighed alike, by the reader of the product; 0 where one is refused.
pub fn tables_by_rows(bytes: &[u8], weighing: &Weighing) -> u64
    ensures { result ≡ carbon_said (both_tables (entry weighing.now.factors.now) weighing.now.total.0 bytes.now) }
{
    let mut reader = Reader::new(bytes);
    read_both(
        weighing,
        &mut reader,
        |reader, mark| weighing.read_table(reader, mark),
    )
    .map_or(0, |carbon| carbon.0)
}

/// The same by the reader before it.
pub fn tables_by_entries(bytes: &[u8], weighing: &Weighing) -> u64
    ensures { result ≡ carbon_said (both_tables (entry weighing.now.factors.now) weighing.now.total.0 bytes.now) }
{
    let mut reader = Reader::new(bytes);
    read_both(
        weighing,
        &mut reader,
        |reader, mark| read_by_entries(weighing, reader, mark),
    )
    .map_or(0, |carbon| carbon.0)
}
