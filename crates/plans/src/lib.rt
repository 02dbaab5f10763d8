//! A plan: its years judged once, and the records of a year found among them.
#![tactic(auto)]

ghost use Rattle.std.specs.Prelude.{◌≡◌, ◌==◌, ◌≤◌, [], ◌∷◌, map, drop, length, option_map, All, IfOk, OnOk};
ghost use Rattle.std.proofs.Math.Option.{some};
ghost use Rattle.std.specs.List.{find};
ghost use Rattle.dossier.specs.JudgingPlan.{plan_year, plan_years, plan_fault as fault_number, lent_plan};
ghost use Rattle.dossier.specs.Plan.{records_for};
ghost use Rattle.refusals.specs.Refusals.{number_of};
ghost use Rattle.cursor.specs.Says.{says};
ghost use Rattle.plans.specs.Answers.{year_of, records_at, Holds, EndOf, IsPartOf, Finds};

use arrayvec::ArrayVec;
use cursor::Reader;
use cursor::marks::{EN, PY};
use refusals::Refusal;
use std::marker::Model;

/// The most years that a plan may have.
const MOST_YEARS: usize = 20;

/// A year of a plan, with the part of the plan's bytes that begins with its activity records.
#[derive(Drop, Default)]
struct PlannedYear<'a> {
    year: u16,
    records: &'a [u8],
}

/// A plan that is lent: its bytes, and its years, or no plan. Its records stay where they lie.
#[derive(Drop)]
pub struct Plan<'a> {
    bytes: &'a [u8],
    years: Option<ArrayVec<PlannedYear<'a>, MOST_YEARS>>,
}

impl<'a> Model for Plan<'a> {
    ghost use Rattle.std.specs.Prelude.{option_map, All, IfSome};
    ghost use Rattle.plans.specs.Answers.{Lent, IsPartOf, years_of};

    ghost Value = { Lent };

    ghost view = { λ plan. record { bytes = plan.bytes.now; years = years_of (option_map (λ years. years.items) plan.years) } };

    ghost invariant = { λ plan. IfSome plan.years (λ years. All (IsPartOf plan.bytes.now) years.items) };
}

/// The fault of a plan: two equal records of a year, or whatever else is not of its form.
fn plan_fault(refusal: Refusal) -> Refusal
    ensures { number_of result ≡ fault_number (number_of refusal) }
{
    match refusal {
        Refusal::RecordRepeated => Refusal::RecordRepeated,
        _ => Refusal::PlanNotOfForm,
    }
}

/// PY, its year, which is least or later, and its records.
#[tactic(auto, using(crate::proofs::RecordsLaws::records_refused, crate::proofs::RecordsLaws::records_read), unfolding(dossier::specs::JudgingPlan::plan_year, dossier::specs::Reader::followed, dossier::specs::Reader::field, dossier::specs::Reader::give))]
fn read_planned_year<'a>(reader: &mut Reader<'a>, least: u64) -> Result<PlannedYear<'a>, Refusal>
    ensures value { says year_of result reader.new ≡ plan_year least reader.old }
    ensures part { IfOk result (IsPartOf reader.old) }
    ensures rest { IfOk result (λ _. EndOf reader.old reader.new) }
{
    reader.begin(PY, 2)?;
    let year = reader.u16();
    reader.within(least, u64::from(year), 65_535, Refusal::PlanNotOfForm)?;
    let records = reader.rest();
    activities::read_run(reader)?;
    Ok(PlannedYear { year, records })
}

/// The plan's years, then EN and nothing more.
// Not inlined, for its array would be copied in pieces where no plan is lent, too (docs/PERFORMANCE.md).
#[inline(never)]
#[tactic(auto, unfolding(dossier::specs::JudgingPlan::plan_years, dossier::specs::JudgingPlan::plan_end, dossier::specs::Reader::followed, dossier::specs::Reader::upon, dossier::specs::Reader::give))]
fn read_years<'a>(reader: &mut Reader<'a>) -> Result<ArrayVec<PlannedYear<'a>, MOST_YEARS>, Refusal>
    ensures value { says (λ years. map year_of years.items) result reader.new ≡ plan_years 20 0 [] reader.old }
    ensures over { OnOk result (reader.new ≡ []) }
    ensures parts { IfOk result (λ years. All (IsPartOf reader.old) years.items) }
{
    let mut years: ArrayVec<PlannedYear<'a>, MOST_YEARS> = ArrayVec::new();
    let mut least: u64 = 0;
    // The two cases of the definition, room for a year more and PY: an iterator of years would lend the reader out between its turns.
    while !years.is_full() && reader.stands(PY) {
        let planned = read_planned_year(reader, least)?;
        least = u64::from(planned.year) + 1;
        years.push(planned);
    }
    reader.mark(EN)?;
    reader.nothing()?;
    Ok(years)
}

/// The one of these years that has this number, if there is one.
fn year_among<'y, 'a>(years: &'y [PlannedYear<'a>], year: u64) -> Option<&'y PlannedYear<'a>>
    ensures { option_map (λ planned. planned.now) result ≡ find (λ planned. planned.year == year) years.now }
{
    years.iter().find(|planned| u64::from(planned.year) == year)
}

impl<'a> Plan<'a> {
    /// Judges what is lent as a plan: no bytes are none. Refused with `RecordRepeated` where two records of a year are equal, with
    /// `PlanNotOfForm` for whatever else is not of its form (docs/DOSSIER.md, "The plan").
    #[tactic(auto, using(crate::proofs::LendLaws::no_plan, crate::proofs::LendLaws::plan_refused, crate::proofs::LendLaws::plan_read))]
    pub fn read(bytes: &'a [u8]) -> Result<Self, Refusal>
        ensures years { says (λ plan. plan.years) result [] ≡ lent_plan bytes.now }
        ensures bytes { IfOk result (λ plan. plan.bytes ≡ bytes.now) }
    {
        if bytes.is_empty() {
            return Ok(Plan { bytes, years: None });
        }
        let years = read_years(&mut Reader::new(bytes)).map_err(plan_fault)?;
        Ok(Plan {
            bytes,
            years: Some(years),
        })
    }

    /// Of a year whose activity records were found in these bytes, from a place on, whatever else the bytes hold: a plan of that year alone.
    pub fn of_year(bytes: &'a [u8], from: usize, year: u16) -> Self
        requires inside { from ≤ length bytes.now }
        requires found { Holds (records_at (drop from bytes.now)) (drop from bytes.now) }
        ensures years { result.years ≡ some (record { year = year; activities = records_at (drop from bytes.now) } ∷ []) }
        ensures bytes { result.bytes ≡ bytes.now }
    {
        let (_, part) = bytes.split_at(from);
        let mut years = ArrayVec::new();
        years.push(PlannedYear {
            year,
            records: part,
        });
        Plan {
            bytes,
            years: Some(years),
        }
    }

    /// The part of the plan's bytes that begins with the activity records of a year, where the plan has the year.
    #[tactic(auto, using(crate::proofs::FindLaws::records_are), unfolding(dossier::specs::Plan::records_for))]
    pub fn records_of(&self, year: u64) -> Option<&'a [u8]>
        ensures { Finds (records_for self.now.years year) self.now.bytes result }
    {
        let years = self.years.as_ref()?;
        let planned = year_among(years, year)?;
        Some(planned.records)
    }
}
