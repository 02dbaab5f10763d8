//! The tables of factors, and the figures of a year; the values that an opening settles and that years change.
#![tactic(auto)]

ghost use Rattle.std.specs.Prelude.{◌≡◌, replicate, ◌+◌, ◌*◌, ◌≤◌, ◌<◌, cond, eqb, pos};
ghost use Rattle.std.specs.Int.Signed.{mag};
ghost use Rattle.classes.specs.Classes.{class_nf, emission_factor, greatest_stock};
ghost use Rattle.classes.specs.Matrix.{entry, table_of};
ghost use Rattle.classes.specs.Ranges.{greatest_emissions, greatest_activity, greatest_figure};
ghost use Rattle.figures.specs.Figures.{reference_level, counted_factor, stock_change_emissions, displaced_emissions, credited_of, tonnes_of, no_figures, small_activity};
ghost use Rattle.figures.specs.Carbon.{carbon_figures};
ghost use Rattle.figures.specs.Ranges.{FiguresSmall, SmallNet};
ghost use Rattle.figures.specs.Nothing.{no_terms, no_state};

use classes::{Factors, Matrix, Stocks};
use projection::Region;
use std::marker::Model;
use units::{AreaUnits, CarbonUnits, Grams};

/// What an opening settles and no year changes: the option, the carbon stocks and the matrix in use, and the starting areas of project and belt, each at
/// most 10^12 area units.
#[derive(Clone, Copy, Debug)]
pub struct Terms {
    // A number and not an enum: a refused opening leaves 0, and the factors that count are defined for any number, so that an enum would
    // be turned back into its number at each use.
    pub option: u64,
    pub stocks: Stocks,
    pub matrix: Matrix,
    pub start: AreaUnits,
    pub beltstart: AreaUnits,
}

impl Model for Terms {
    ghost use Rattle.figures.specs.Values.{TermsValue};

    ghost Value = { TermsValue };

    ghost use Rattle.figures.specs.Ranges.{TermsSmall};

    ghost view = { λ t. record { option = t.option; stocks = t.stocks; matrix = t.matrix; start = t.start; beltstart = t.beltstart } };

    ghost inverse = { λ t. record { option = t.option; stocks = t.stocks; matrix = t.matrix; start = t.start; beltstart = t.beltstart } };

    ghost invariant = { λ t. TermsSmall (record { option = t.option; stocks = t.stocks; matrix = t.matrix; start = t.start; beltstart = t.beltstart }) };
}

/// What years change: the year that is due, the years left, both regions, and the total credited.
#[derive(Clone, Copy, Debug)]
pub struct State {
    pub year: u64,
    pub left: u64,
    pub project: Region,
    pub belt: Region,
    pub total: Grams,
}

/// The eight figures of a year in grams of CO2, in the order in which they are reported.
#[derive(Clone, Copy, Debug)]
pub struct Figures {
    pub reference: Grams,
    pub project: Grams,
    pub activity: Grams,
    pub belt: Grams,
    pub belt_reference: Grams,
    pub displaced: Grams,
    pub reduction: Grams,
    pub credited: Grams,
}

/// The carbon of a region in a year: by its projection, and by its monitored conversions; each is at most that of 10^12 area units at the greatest factor.
#[derive(Clone, Copy, Debug)]
pub struct YearCarbon {
    pub projected: CarbonUnits,
    pub monitored: CarbonUnits,
}

impl Model for YearCarbon {
    ghost use Rattle.figures.specs.Values.{YearCarbonValue};

    ghost Value = { YearCarbonValue };

    ghost use Rattle.figures.specs.Ranges.{SmallYear};

    ghost view = { λ c. record { projected = c.projected; monitored = c.monitored } };

    ghost inverse = { λ c. record { projected = c.projected; monitored = c.monitored } };

    ghost invariant = { λ c. SmallYear (record { projected = c.projected; monitored = c.monitored }) };
}

/// The days of operation of a year and the days of its calendar year: d and D of the reference level. d is at most D.
#[derive(Clone, Copy, Debug)]
pub struct YearDays {
    pub operating: u64,
    pub calendar: u64,
}

impl Model for YearDays {
    ghost use Rattle.figures.specs.Values.{YearDaysValue};

    ghost Value = { YearDaysValue };

    ghost use Rattle.figures.specs.Ranges.{DaysOf};

    ghost view = { λ days. record { operating = days.operating; calendar = days.calendar } };

    ghost inverse = { λ days. record { operating = days.operating; calendar = days.calendar } };

    ghost invariant = { λ days. DaysOf (record { operating = days.operating; calendar = days.calendar }) };
}

/// The emission factors, for the projection, and those that count for monitored conversions: under Option 1 only those into NF.
#[derive(Clone, Copy, Debug)]
pub struct FactorTables {
    pub projected: Factors,
    pub monitored: Factors,
}

/// A factor into a class, if it counts for monitored conversions under the option of this number (see `Terms`).
fn counted_factor(option: u64, factor: u64, to: usize) -> u64
    ensures { result ≡ cond (eqb option 1) (cond (eqb to class_nf) factor 0) factor }
{
    if option == 1 && to != classes::NF {
        0
    } else {
        factor
    }
}

/// Fills a table with those of these factors that count for monitored conversions.
fn fill_counted(counted: &mut [u64; 144], factors: &[u64; 144], option: u64)
    ensures { counted.new ≡ table_of (counted_factor option (entry factors.now)) }
{
    classes::fill_table(
        counted,
        |from, to| counted_factor(option, factors[classes::place(from, to)], to),
    );
}

/// Fills both tables of factors: the emission factors, for the projection, and those that count for monitored conversions.
#[tactic(auto, using(crate::proofs::CountedLaws::counted_table))]
pub fn fill_factors(
    factors: &mut [u64; 144],
    counted: &mut [u64; 144],
    stocks: &[u64; 12],
    option: u64,
)
    ensures factors { factors.new ≡ table_of (emission_factor stocks.now) }
    ensures counted { counted.new ≡ table_of (counted_factor option (emission_factor stocks.now)) }
{
    classes::fill_factors(factors, stocks);
    fill_counted(counted, factors, option);
}

impl FactorTables {
    /// No factor above 0.
    pub fn none() -> FactorTables
        ensures { result ≡ record { projected = replicate 144 0; monitored = replicate 144 0 } }
    {
        FactorTables {
            projected: Factors::none(),
            monitored: Factors::none(),
        }
    }

    /// Takes the tables by the stocks and the option of these terms. They are filled where they lie: handed back as a value they would be copied, which
    /// takes as long as to fill them.
    pub fn take_terms(&mut self, terms: &Terms)
        ensures projected { self.new.projected ≡ table_of (emission_factor terms.now.stocks) }
        ensures monitored { self.new.monitored ≡ table_of (counted_factor terms.now.option (emission_factor terms.now.stocks)) }
    {
        let FactorTables {
            projected,
            monitored,
        } = self;
        let stocks = &terms.stocks;
        fill_factors(
            &mut projected.entries,
            &mut monitored.entries,
            &stocks.by_class,
            terms.option,
        );
    }
}

impl Terms {
    /// The terms of a ledger whose opening was refused: all zeros.
    pub fn none() -> Terms
        ensures { result ≡ no_terms }
    {
        Terms {
            option: 0,
            stocks: Stocks::none(),
            matrix: Matrix::none(),
            start: AreaUnits(0),
            beltstart: AreaUnits(0),
        }
    }
}

impl State {
    /// The state of a ledger whose opening was refused: all zeros.
    pub fn none() -> State
        ensures { result ≡ no_state }
    {
        State {
            year: 0,
            left: 0,
            project: Region::none(),
            belt: Region::none(),
            total: Grams(0),
        }
    }
}

impl Figures {
    /// The figures of a year not given yet.
    pub fn none() -> Figures
        ensures { result ≡ no_figures }
    {
        Figures {
            reference: Grams(0),
            project: Grams(0),
            activity: Grams(0),
            belt: Grams(0),
            belt_reference: Grams(0),
            displaced: Grams(0),
            reduction: Grams(0),
            credited: Grams(0),
        }
    }
}

impl YearCarbon {
    /// The reference level of a year of these days. Carbon × 11 × d passes 64 bits, so the quotient of the carbon by the divisor and its remainder are
    /// weighed apart.
    fn reference_level(&self, days: YearDays) -> Grams
        ensures value { result.0 ≡ pos (reference_level self.now.projected.0 days.operating days.calendar) }
        ensures small { mag result.0 ≤ greatest_emissions }
    {
        let carbon = self.projected.0;
        let weight = 11 * days.operating;
        let divisor = 300 * days.calendar;
        // `as`: proved to fit, so that `try_from` would bring a case that never comes. So in `stock_change_emissions`.
        Grams((carbon / divisor * weight + carbon % divisor * weight / divisor) as i64)
    }

    /// The emissions of the monitored conversions.
    fn stock_change_emissions(&self) -> Grams
        ensures value { result.0 ≡ pos (stock_change_emissions self.now.monitored.0) }
        ensures small { mag result.0 ≤ greatest_emissions }
    {
        Grams(arithmetic::divided_up(self.monitored.0 * 11, 300) as i64)
    }
}

/// The emissions displaced into the belt: those of the belt above its reference level, never below 0.
#[tactic(auto, unfolding(crate::specs::Figures::displaced_emissions))]
fn displaced_emissions(belt: Grams, reference: Grams) -> Grams
    requires belt { mag belt.0 ≤ greatest_emissions }
    requires reference { mag reference.0 ≤ greatest_emissions }
    ensures value { result.0 ≡ displaced_emissions belt.0 reference.0 }
    ensures small { mag result.0 ≤ 2 * greatest_emissions + 1 }
{
    (belt - reference).max(Grams(0))
}

/// Four fifths of a reduction, rounded down; a negative one whole.
#[tactic(auto, unfolding(crate::specs::Figures::credited_of))]
fn credited_part(reduction: Grams) -> Grams
    requires { mag reduction.0 < greatest_figure }
    ensures value { result.0 ≡ credited_of reduction.0 }
    ensures small { mag result.0 < greatest_figure }
{
    if reduction.0 < 0 {
        reduction
    } else {
        Grams(reduction.0 * 4 / 5)
    }
}

/// The whole tonnes of a total in grams, 0 of a negative one.
#[tactic(auto, unfolding(crate::specs::Figures::tonnes_of))]
pub fn tonnes(total: Grams) -> u64
    ensures { result ≡ tonnes_of total.0 }
{
    u64::try_from(total.0).unwrap_or(0) / 1_000_000
}

/// The figures of a year, from the carbon of the project area and of the belt and the emissions of the activity records.
#[tactic(auto, using(std::proofs::lemmas::Int::ints), unfolding(crate::specs::Figures::figures_of, crate::specs::Figures::reduction_of))]
pub fn year_figures(
    project: YearCarbon,
    belt: YearCarbon,
    activity: Grams,
    days: YearDays,
) -> Figures
    requires { mag activity.0 ≤ greatest_activity }
    ensures value { result ≡ carbon_figures project belt activity.0 days }
    ensures small { FiguresSmall result }
{
    let reference = project.reference_level(days);
    let emitted = project.stock_change_emissions();
    let belt_emitted = belt.stock_change_emissions();
    let belt_reference = belt.reference_level(days);
    let displaced = displaced_emissions(belt_emitted, belt_reference);
    let reduction = reference - emitted - activity - displaced;
    let credited = credited_part(reduction);
    Figures {
        reference,
        project: emitted,
        activity,
        belt: belt_emitted,
        belt_reference,
        displaced,
        reduction,
        credited,
    }
}

/// Whether a year's activity emissions are small enough for planned quantities: below five percent of its project net emissions.
#[tactic(auto, unfolding(crate::specs::Figures::small_activity))]
pub fn small_activity(figures: &Figures) -> bool
    requires { SmallNet figures.now }
    ensures { result ≡ small_activity figures.now }
{
    let net = figures.project + figures.displaced + figures.activity;
    20 * figures.activity.0 < net.0
}
