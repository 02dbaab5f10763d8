//! A year of a dossier: YR, CP, CD, and its activity records or PL.
#![tactic(auto)]

ghost use Rattle.std.specs.Prelude.{◌≡◌, ◌≤◌, ◌<◌, IfOk, OnErr};
ghost use Rattle.std.specs.Int.Signed.{mag};
ghost use Rattle.classes.specs.Matrix.{entry};
ghost use Rattle.classes.specs.Ranges.{greatest_activity};
ghost use Rattle.dossier.specs.Plan.{records_for};
ghost use Rattle.dossier.specs.Judging.{none_left, end};
ghost use Rattle.cursor.specs.Says.{says, done};
ghost use Rattle.dossier.specs.Marks.{mark_pl};
ghost use Rattle.dossier.specs.Reader.{is, stands as mark_stands};
ghost use Rattle.years.specs.Answers.{PartFor, summed_records, summarized_year};

use classes::Factors;
use cursor::Reader;
use cursor::marks::{CD, CP, EN, PL, YR};
use figures::{State, Terms, YearDays};
use plans::Plan;
use refusals::Refusal;
use std::marker::Model;
use tables::Weighing;
use units::{CarbonUnits, Grams};

/// A year as it is filed: its days, the carbon of its conversions in the project area and the belt, and the grams of CO2 of its activity
/// records, which are those of the plan where it is planned. The carbon and the grams are in the ranges in which figures fit 64 bits.
#[derive(Clone, Copy, Debug)]
pub struct YearSummary {
    pub days: YearDays,
    pub project: CarbonUnits,
    pub belt: CarbonUnits,
    // No answer, but what the rule for planned quantities asks of a year.
    pub planned: bool,
    pub activity: Grams,
}

impl Model for YearSummary {
    ghost use Rattle.years.specs.Answers.{Summary, SmallSummary};

    ghost Value = { Summary };

    ghost view = { λ y. record { days = y.days; project = y.project; belt = y.belt; planned = y.planned; activity = y.activity } };

    ghost inverse = { λ y. record { days = y.days; project = y.project; belt = y.belt; planned = y.planned; activity = y.activity } };

    ghost invariant = { λ y. SmallSummary (record { days = y.days; project = y.project; belt = y.belt; planned = y.planned; activity = y.activity }) };
}

/// The emissions of a year's activity records, and whether they are those of the plan.
#[derive(Drop)]
struct Emissions {
    planned: bool,
    activity: Grams,
}

/// The bytes that a year's activity records are read from, uncopied: where PL stands the plan's part that has the year, otherwise what is left of the
/// dossier. Refused with `PlannedYearWrong` where the plan lacks the year.
#[tactic(auto, using(crate::proofs::Rulesets::records))]
fn records_part<'a>(reader: &Reader<'a>, plan: &Plan<'a>, year: u64) -> Result<&'a [u8], Refusal>
    ensures { PartFor (mark_stands (is mark_pl) reader.now) (records_for plan.now.years year) plan.now.bytes reader.now result }
{
    if reader.stands(PL) {
        plan.records_of(year).ok_or(Refusal::PlannedYearWrong)
    } else {
        Ok(reader.rest())
    }
}

/// A year's activity records, or PL and those that the plan has for the year.
#[tactic(auto, using(crate::proofs::Rulesets::records), unfolding(crate::specs::Answers::summed_records, dossier::specs::Judging::taken, dossier::specs::Judging::from_the_plan, dossier::specs::Reader::followed, dossier::specs::Reader::upon, dossier::specs::Reader::give, dossier::specs::Reader::refuse))]
fn read_records<'a>(
    reader: &mut Reader<'a>,
    plan: &Plan<'a>,
    year: u64,
) -> Result<Emissions, Refusal>
    ensures value { says (λ emissions. emissions) result reader.new ≡ summed_records (records_for plan.now.years year) reader.old }
    ensures small { IfOk result (λ emissions. mag emissions.activity.0 ≤ greatest_activity) }
{
    let part = records_part(reader, plan, year)?;
    let mut records = Reader::new(part);
    if !reader.stands(PL) {
        let activity = activities::read_run(&mut records)?;
        *reader = records;
        return Ok(Emissions {
            planned: false,
            activity,
        });
    }
    reader.mark(PL)?;
    let activity = activities::read_run(&mut records)?;
    Ok(Emissions {
        planned: true,
        activity,
    })
}

/// YR to the last activity record or PL: the year that is due, where one is left, with conversions that sum to the totals of PA and DA
/// and are weighed by the factors that count. `YearWrong` where it is another year, none is left or its days are wrong;
/// `ConversionTotalWrong`; `PlannedYearWrong` where the plan lacks the year; and the refusals of activity records.
#[tactic(auto, using(crate::proofs::Rulesets::parts), unfolding(crate::specs::Answers::summarized_year, dossier::specs::Judging::year_left, dossier::specs::Judging::year_records, dossier::specs::Judging::none_left, dossier::specs::Reader::followed, dossier::specs::Reader::field, dossier::specs::Reader::give, dossier::specs::Reader::refuse))]
pub fn read_year<'a>(
    reader: &mut Reader<'a>,
    plan: &Plan<'a>,
    terms: &Terms,
    state: &State,
    counted: &Factors,
) -> Result<YearSummary, Refusal>
    ensures value { says (λ summary. summary) result reader.new ≡ summarized_year (entry counted.now) (records_for plan.now.years state.now.year) state.now.year state.now.left terms.now.start.0 terms.now.beltstart.0 reader.old }
    ensures left { IfOk result (λ _. 1 ≤ state.now.left) }
    ensures year { IfOk result (λ _. state.now.year < 65_536) }
    ensures stays { OnErr result (reader.new ≡ reader.old) }
{
    let mut ahead = Reader::new(reader.rest());
    ahead.begin(YR, 4)?;
    if state.left == 0 {
        return Err(Refusal::YearWrong);
    }
    let calendar_year = u64::from(ahead.u16());
    let operating = u64::from(ahead.u16());
    ahead.equal(calendar_year, state.year, Refusal::YearWrong)?;
    let calendar = classes::days_in_year(calendar_year);
    ahead.within(1, operating, calendar, Refusal::YearWrong)?;
    let days = YearDays {
        operating,
        calendar,
    };
    let project_table = Weighing {
        total: terms.start,
        factors: counted,
    };
    let belt_table = Weighing {
        total: terms.beltstart,
        factors: counted,
    };
    let project = project_table.read_table(&mut ahead, CP)?;
    let belt = belt_table.read_table(&mut ahead, CD)?;
    let Emissions { planned, activity } = read_records(&mut ahead, plan, state.year)?;
    *reader = ahead;
    Ok(YearSummary {
        days,
        project,
        belt,
        planned,
        activity,
    })
}

/// YR where no year is left: `YearWrong`, whatever follows it.
#[tactic(auto, unfolding(dossier::specs::Judging::none_left, dossier::specs::Reader::followed, dossier::specs::Reader::refuse))]
fn none_left(reader: &Reader) -> Result<(), Refusal>
    ensures { says done result reader.now ≡ none_left reader.now }
{
    Reader::new(reader.rest()).begin(YR, 4)?;
    Err(Refusal::YearWrong)
}

/// EN and nothing after it, once all years are read. YR stays due there, and is `YearWrong`.
#[tactic(auto, unfolding(dossier::specs::Judging::end, dossier::specs::Reader::followed, dossier::specs::Reader::upon))]
pub fn read_end(reader: &mut Reader) -> Result<(), Refusal>
    ensures value { says done result reader.new ≡ end reader.old }
    ensures stays { OnErr result (reader.new ≡ reader.old) }
{
    if reader.stands(YR) {
        return none_left(reader);
    }
    let mut ahead = Reader::new(reader.rest());
    ahead.mark(EN)?;
    ahead.nothing()?;
    *reader = ahead;
    Ok(())
}
