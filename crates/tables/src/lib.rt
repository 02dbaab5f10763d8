//! A table of conversions, CP or CD: weighed by the emission factors as it is read; nothing of it is stored.
#![tactic(auto)]

ghost use Rattle.std.specs.Prelude.{◌≡◌, ◌<◌, ◌≤◌, ◌*◌, All, map, SomeIff, IfSome, IfOk, OnErr};
ghost use Rattle.wire.specs.Bytes.{number, total as sum_of};
ghost use Rattle.classes.specs.Classes.{greatest_stock};
ghost use Rattle.classes.specs.Matrix.{entry};
ghost use Rattle.projection.specs.Ranges.{SmallArea};
ghost use Rattle.figures.specs.Figures.{monitored_carbon};
ghost use Rattle.figures.specs.Ranges.{SmallCarbon};
ghost use Rattle.cursor.specs.Says.{says};
ghost use Rattle.tables.specs.Answers.{monitored_table};
ghost use Rattle.tables.specs.Rows.{row_of};

use classes::{Factors, place};
use cursor::Reader;
use refusals::Refusal;
use units::{AreaUnits, CarbonUnits};

/// The area of a conversion, from its eight bytes.
#[tactic(auto, using(crate::proofs::TableLaws::eight_bytes))]
pub fn area_of(conversion: &[u8; 8]) -> AreaUnits
    ensures { result.0 ≡ number conversion.now }
{
    AreaUnits(u64::from_be_bytes(*conversion))
}

/// What the conversions of a row come to.
#[derive(Clone, Copy)]
struct Row {
    area: AreaUnits,
    carbon: CarbonUnits,
}

/// What a table of conversions is weighed by: the total that its areas have to come to, at most 10^12 area units, and the emission factors.
#[derive(Clone, Copy)]
pub struct Weighing<'a> {
    pub total: AreaUnits,
    pub factors: &'a Factors,
    ghost small: { SmallArea total.0 },
}

impl<'a> Weighing<'a> {
    /// The area and the carbon of the row of class `from`, where none of its conversions is above the total: each is tested by itself.
    fn row(&self, row: &[[u8; 8]; 12], from: usize) -> Option<Row>
        requires class { from < 12 }
        ensures value { SomeIff result (All (λ conversion. number conversion ≤ self.now.total.0) row.now) (row_of row.now self.now.factors.now from) }
        ensures small { IfSome result (λ row. row.carbon.0 ≤ row.area.0 * greatest_stock) }
    {
        let Weighing { total, factors } = *self;
        let mut sum = AreaUnits(0);
        let mut carbon = CarbonUnits(0);
        for (to, conversion) in row.iter().enumerate() {
            let area = area_of(conversion);
            if total < area {
                return None;
            }
            sum += area;
            carbon += area * factors.entries[place(from, to)];
        }
        Some(Row { area: sum, carbon })
    }

    /// The carbon that a table's conversions set free, if their areas come to the total. Their sum is tested once a row, against what the rows
    /// before it leave of the total.
    fn carbon_of(&self, conversions: &[[u8; 8]; 144]) -> Option<CarbonUnits>
        ensures value { SomeIff result (sum_of (map number conversions.now) ≡ self.now.total.0) (record { 0 = monitored_carbon (entry self.now.factors.now) (map number conversions.now) }) }
        ensures small { IfSome result (λ carbon. SmallCarbon carbon.0) }
    {
        let mut left = self.total;
        let mut carbon = CarbonUnits(0);
        let (rows, _) = conversions.as_chunks::<12>();
        for (from, row) in rows.iter().enumerate() {
            let sum = self.row(row, from)?;
            if left < sum.area {
                return None;
            }
            left = left - sum.area;
            carbon += sum.carbon;
        }
        if left != AreaUnits(0) {
            return None;
        }
        Some(carbon)
    }

    /// The carbon of CP or CD. Where its conversions do not come to the total, it is refused with `ConversionTotalWrong`.
    #[tactic(auto, unfolding(crate::specs::Answers::monitored_table, dossier::specs::JudgingRecords::conversions, dossier::specs::Reader::followed, dossier::specs::Reader::fields, dossier::specs::Reader::equal, dossier::specs::Reader::give))]
    pub fn read_table(&self, reader: &mut Reader, mark: u64) -> Result<CarbonUnits, Refusal>
        ensures value { says (λ carbon. carbon) result reader.new ≡ monitored_table (entry self.now.factors.now) mark self.now.total.0 reader.old }
        ensures small { IfOk result (λ carbon. SmallCarbon carbon.0) }
        ensures stays { OnErr result (reader.new ≡ reader.old) }
    {
        let mut ahead = Reader::new(reader.rest());
        ahead.begin(mark, 1152)?;
        let carbon = self
            .carbon_of(ahead.fields())
            .ok_or(Refusal::ConversionTotalWrong)?;
        *reader = ahead;
        Ok(carbon)
    }
}
