//! One year's reckoning: what the bytes of a year make of a ledger's state.
#![tactic(auto)]

ghost use Rattle.std.specs.Prelude.{◌≡◌, ◌+◌, ◌≤◌, ◌<◌, IfOk, OnErr};
ghost use Rattle.std.specs.Int.Signed.{mag};
ghost use Rattle.classes.specs.Matrix.{entry};
ghost use Rattle.classes.specs.Ranges.{greatest_figure, greatest_total};
ghost use Rattle.figures.specs.Ranges.{FiguresSmall};
ghost use Rattle.dossier.specs.Plan.{records_for};
ghost use Rattle.cursor.specs.Says.{says};
ghost use Rattle.reckoning.specs.Step.{summary_advanced, stepped_year};

use cursor::Reader;
use figures::{FactorTables, Figures, State, Terms, YearCarbon};
use plans::Plan;
use refusals::Refusal;
use years::YearSummary;

/// The state after a year, and the year's figures.
#[derive(Clone, Copy, Debug)]
pub struct Advanced {
    pub state: State,
    pub figures: Figures,
}

/// A year reckoned from the carbon of its tables and the emissions of its records.
#[tactic(auto, unfolding(crate::specs::Step::carbon_advanced, crate::specs::Step::advanced_figures, figures::specs::Reckoning::after_figures, projection::specs::Inflow::projected_year))]
fn advance(year: &YearSummary, terms: &Terms, state: &State, tables: &FactorTables) -> Advanced
    requires left { 1 ≤ state.now.left }
    requires year { state.now.year < 65_536 }
    requires small_total { mag state.now.total.0 ≤ greatest_total }
    ensures value { result ≡ summary_advanced (entry tables.now.projected) terms.now.matrix year.now state.now }
    ensures left { result.state.left + 1 ≡ state.now.left }
    ensures small { FiguresSmall result.figures }
    ensures total { mag result.state.total.0 ≤ mag state.now.total.0 + greatest_figure }
{
    let project = state.project.projected(&terms.matrix, &tables.projected);
    let belt = state.belt.projected(&terms.matrix, &tables.projected);
    let project_carbon = YearCarbon {
        projected: project.carbon,
        monitored: year.project,
    };
    let belt_carbon = YearCarbon {
        projected: belt.carbon,
        monitored: year.belt,
    };
    let figures = figures::year_figures(project_carbon, belt_carbon, year.activity, year.days);
    Advanced {
        state: State {
            year: state.year + 1,
            left: state.left - 1,
            project: project.region,
            belt: belt.region,
            total: state.total + figures.credited,
        },
        figures,
    }
}

// What is read, the plan, the terms and the state stay apart: the contract says of each what it does to the year, and a struct of the four would be made at
// every call.

/// The year that is due, read and reckoned. Planned quantities are refused where the year's activity emissions are too great for them.
#[tactic(auto, unfolding(crate::specs::Step::stepped_year, dossier::specs::Reader::followed, dossier::specs::Reader::holds, dossier::specs::Reader::give))]
pub fn step<'a>(
    reader: &mut Reader<'a>,
    plan: &Plan<'a>,
    terms: &Terms,
    state: &State,
    tables: &FactorTables,
) -> Result<Advanced, Refusal>
    requires small_total { mag state.now.total.0 ≤ greatest_total }
    ensures value { says (λ advanced. advanced) result reader.new ≡ stepped_year (entry tables.now.projected) (entry tables.now.monitored) terms.now.matrix (records_for plan.now.years state.now.year) terms.now.start.0 terms.now.beltstart.0 state.now reader.old }
    ensures left { IfOk result (λ advanced. advanced.state.left + 1 ≡ state.now.left) }
    ensures total { IfOk result (λ advanced. mag advanced.state.total.0 ≤ mag state.now.total.0 + greatest_figure) }
    ensures stays { OnErr result (reader.new ≡ reader.old) }
{
    let mut ahead = Reader::new(reader.rest());
    let year = years::read_year(&mut ahead, plan, terms, state, &tables.monitored)?;
    let advanced = advance(&year, terms, state, tables);
    if year.planned && !figures::small_activity(&advanced.figures) {
        return Err(Refusal::PlannedYearWrong);
    }
    *reader = ahead;
    Ok(advanced)
}
