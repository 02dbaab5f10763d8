//! The reckoner's public calls: a ledger that is opened, given years and closed, and the whole reckoning of a dossier.
#![tactic(auto)]

ghost use Rattle.std.specs.Prelude.{◌≡◌, ◌+◌, ◌*◌, ◌≤◌, ◌<◌, length, replicate};
ghost use Rattle.std.specs.Int.Signed.{mag};
ghost use Rattle.classes.specs.Ranges.{greatest_figure};
ghost use Rattle.cursor.specs.Says.{says};
ghost use Rattle.figures.specs.Figures.{no_figures};
ghost use Rattle.dossier.specs.JudgingPlan.{under};
ghost use Rattle.reckoner.specs.Ledger.{new_ledger, empty_ledger, first_year};
ghost use Rattle.reckoner.specs.Calls.{open_call, year_call, periods_answer, periods_buffer, close_call, closed_buffer, dossier_call, HandedBack, answer_number, reckon_number, reckon_buffer};
ghost use Rattle.reckoner.specs.Parts.{opened_piece, give_years, given_piece, given_dossier, step_judged, step_made};
ghost use Rattle.reckoner.specs.Said.{ledger_with, answer_of, step_of};

use cursor::Reader;
use figures::{FactorTables, Figures, State, Terms};
use opening::Opened;
use plans::Plan;
use refusals::Refusal;
use std::marker::Model;

/// The years given: how many, the state that they left, and their figures.
#[derive(Clone, Copy)]
struct Years {
    given: u64,
    state: State,
    // Of the most years that a ledger has, those of the years given first. An array and no `ArrayVec`: a ledger is a plain value (`Copy`), which a host
    // keeps and hands back.
    figures: [Figures; 20],
}

/// A ledger: what its opening settled, and the years given since.
#[derive(Clone, Copy)]
pub struct Ledger {
    terms: Terms,
    years: Years,
}

impl Model for Ledger {
    ghost use Rattle.reckoner.specs.Ledger.{Ledger};

    ghost Value = { Ledger };

    ghost use Rattle.reckoner.specs.Calls.{HandedBack};
    ghost use Rattle.reckoner.specs.Said.{ledger_with};

    ghost view = { λ ledger. ledger_with ledger.terms ledger.years };

    ghost inverse = { λ ledger. record { terms = ledger.terms; years = record { given = ledger.given; state = ledger.state; figures = ledger.figures } } };

    ghost invariant = { λ ledger. HandedBack (ledger_with ledger.terms ledger.years) };
}

/// The ledger that a call hands back, and its answer: beside it and not in its place, for each step hands the ledger back, a refused one too.
#[derive(Drop)]
pub struct Step {
    pub ledger: Ledger,
    pub answer: Result<(), Refusal>,
}

impl Step {
    /// Of a call that made a ledger, or was refused and hands back the one that stays.
    fn of(made: Result<Ledger, Refusal>, stays: Ledger) -> Step
        ensures { step_of result ≡ step_made stays made }
    {
        match made {
            Ok(ledger) => Step {
                ledger,
                answer: Ok(()),
            },
            Err(refusal) => Step {
                ledger: stays,
                answer: Err(refusal),
            },
        }
    }
}

impl Years {
    /// No year given yet.
    fn none(state: State) -> Years
        ensures { result ≡ record { given = 0; state = state; figures = replicate 20 no_figures } }
    {
        Years {
            given: 0,
            state,
            figures: [Figures::none(); 20],
        }
    }

    /// Takes the next so many years of the bytes, one after the other, by the terms of a ledger and under a plan. Where one is refused, those before it
    /// are taken.
    fn give<'a>(
        &mut self,
        count: u64,
        terms: &Terms,
        plan: &Plan<'a>,
        reader: &mut Reader<'a>,
    ) -> Result<(), Refusal>
        requires room { self.old.given + self.old.state.left ≤ 20 }
        requires small_total { mag self.old.state.total.0 ≤ greatest_figure * self.old.given }
        ensures { says (λ _. ledger_with terms.now self.new) result reader.new ≡ give_years plan.now.years count (ledger_with terms.now self.old) reader.old }
    {
        let mut tables = FactorTables::none();
        tables.take_terms(terms);
        for _ in 0..count {
            let advanced = reckoning::step(reader, plan, terms, &self.state, &tables)?;
            // `as`: at most 20 years to a place. So in `write`.
            self.figures[self.given as usize] = advanced.figures;
            self.state = advanced.state;
            self.given += 1;
        }
        Ok(())
    }
}

impl Ledger {
    /// With no year given.
    #[tactic(auto, unfolding(crate::specs::Ledger::new_ledger))]
    fn new(opened: Opened) -> Ledger
        requires handed_back { HandedBack (new_ledger opened.terms opened.state) }
        ensures { result ≡ new_ledger opened.terms opened.state }
    {
        Ledger {
            terms: opened.terms,
            years: Years::none(opened.state),
        }
    }

    /// All zeros, as a refused opening hands it back.
    #[tactic(auto, unfolding(crate::specs::Ledger::new_ledger, crate::specs::Ledger::empty_ledger, dossier::specs::Records::empty_terms, dossier::specs::Records::empty_state))]
    fn empty() -> Ledger
        ensures { result ≡ empty_ledger }
    {
        Ledger::new(Opened {
            terms: Terms::none(),
            state: State::none(),
        })
    }

    /// Of an opening piece.
    #[tactic(auto, unfolding(crate::specs::Parts::opened_piece, dossier::specs::Reader::followed, dossier::specs::Reader::give))]
    fn of_piece(piece: &[u8]) -> Result<Ledger, Refusal>
        ensures { step_made empty_ledger result ≡ step_judged empty_ledger (opened_piece piece.now) }
    {
        let opened = opening::read_piece(piece)?;
        Ok(Ledger::new(opened))
    }

    /// Given the one year of a piece, under the plan that is lent.
    #[tactic(auto, unfolding(crate::specs::Parts::given_piece, dossier::specs::JudgingPlan::under, dossier::specs::Reader::followed, dossier::specs::Reader::give))]
    fn with_piece<'a>(self, piece: &'a [u8], plan: &'a [u8]) -> Result<Ledger, Refusal>
        ensures { step_made self result ≡ step_judged self (under plan.now (given_piece self) piece.now) }
    {
        let plan = Plan::read(plan)?;
        let mut reader = Reader::new(piece);
        let mut years = self.years;
        years.give(1, &self.terms, &plan, &mut reader)?;
        reader.end_of_piece()?;
        Ok(Ledger {
            terms: self.terms,
            years,
        })
    }

    /// Opened from a dossier and given all its years, under the plan that is lent.
    #[tactic(auto, unfolding(crate::specs::Parts::given_dossier, crate::specs::Ledger::new_ledger, dossier::specs::JudgingPlan::under, dossier::specs::Reader::followed, dossier::specs::Reader::give))]
    fn read<'a>(dossier: &'a [u8], plan: &'a [u8]) -> Result<Ledger, Refusal>
        ensures { step_made empty_ledger result ≡ step_judged empty_ledger (under plan.now given_dossier dossier.now) }
    {
        let plan = Plan::read(plan)?;
        let mut reader = Reader::new(dossier);
        let Opened { terms, state } = opening::read_opening(&mut reader)?;
        let count = state.left;
        let mut years = Years::none(state);
        years.give(count, &terms, &plan, &mut reader)?;
        years::read_end(&mut reader)?;
        Ok(Ledger { terms, years })
    }

    /// Writes the report of the years given so far, and after it the tonnes issued at each period end of a list. A list that is not sound is refused, and
    /// then a buffer that is too short.
    #[tactic(auto, unfolding(crate::specs::Calls::periods_answer, crate::specs::Calls::periods_buffer))]
    fn write(self, ends: &[u16], buffer: &mut [u8]) -> Result<(), Refusal>
        ensures answer { answer_of result ≡ periods_answer self ends.now (length buffer.old) }
        ensures buffer { buffer.new ≡ periods_buffer self ends.now buffer.old }
    {
        let first = self.first_year();
        let given = self.years();
        if !periods::sound(ends, first, given) {
            return Err(Refusal::PeriodEndsWrong);
        }
        let length = 64 * (given as usize) + 32;
        if buffer.len() < length + 8 * ends.len() {
            return Err(Refusal::BufferTooShort);
        }
        let all = self.years.figures;
        let figures = &all[..given as usize];
        let state = self.years.state;
        let project = state.project;
        let belt = state.belt;
        report::write_report(figures, state.total, project.balance, belt.balance, buffer);
        periods::write_issued(figures, first, ends, buffer, length);
        Ok(())
    }

    /// Opens a ledger with a piece from HD to DA, or to MP under Option 2; an empty ledger where that is refused.
    #[tactic(auto, using(crate::proofs::CallLaws::open_is))]
    pub fn open(piece: &[u8]) -> Step
        ensures { step_of result ≡ open_call piece.now }
    {
        Step::of(Ledger::of_piece(piece), Ledger::empty())
    }

    /// Gives one year, YR to its last activity record or PL, under the plan that is lent; the same ledger where that is refused.
    #[tactic(auto, using(crate::proofs::CallLaws::year_is))]
    pub fn year(self, piece: &[u8], plan: &[u8]) -> Step
        ensures { step_of result ≡ year_call self piece.now plan.now }
    {
        Step::of(self.with_piece(piece, plan), self)
    }

    /// Writes the report of the years given so far where the buffer is long enough; the same ledger.
    #[tactic(auto, unfolding(crate::specs::Calls::close_call))]
    pub fn close(self, buffer: &mut [u8]) -> Step
        ensures step { step_of result ≡ close_call self (length buffer.old) }
        ensures buffer { buffer.new ≡ closed_buffer self buffer.old }
    {
        Step {
            ledger: self,
            answer: self.write(&[], buffer),
        }
    }

    /// The number of years given so far, at most 20.
    pub fn years(self) -> u64
        ensures value { result ≡ self.given }
        ensures few { result ≤ 20 }
        ensures handed_back { HandedBack self }
    {
        self.years.given
    }

    /// The first of its years.
    pub fn first_year(self) -> u64
        ensures value { result ≡ first_year self }
        ensures small { result < 65_536 }
        ensures handed_back { HandedBack self }
    {
        self.years.state.year - self.years.given
    }

    /// Opens a ledger with a whole dossier and gives it all its years, under the plan that is lent; an empty ledger where plan or dossier is refused.
    #[tactic(auto, using(crate::proofs::CallLaws::dossier_is))]
    pub fn of_dossier(dossier: &[u8], plan: &[u8]) -> Step
        ensures { step_of result ≡ dossier_call dossier.now plan.now }
    {
        Step::of(Ledger::read(dossier, plan), Ledger::empty())
    }
}

// The dossier and the plan are two slices in every call, as a host in C lends them.

/// The whole reckoning of a dossier, under a plan or none, with a list of period ends or none. Where it is accepted, the report stands in the buffer, and
/// after it the tonnes issued at each end.
#[tactic(auto, using(crate::proofs::CallLaws::dossier_is), unfolding(crate::specs::Calls::reckon_says, crate::specs::Calls::reckon_buffer))]
pub fn reckon(dossier: &[u8], plan: &[u8], ends: &[u16], buffer: &mut [u8]) -> Result<(), Refusal>
    ensures number { answer_number (answer_of result) ≡ reckon_number dossier.now plan.now ends.now (length buffer.old) }
    ensures buffer { buffer.new ≡ reckon_buffer dossier.now plan.now ends.now buffer.old }
{
    let ledger = Ledger::read(dossier, plan)?;
    ledger.write(ends, buffer)
}

/// The number of an answer, by which a host knows it: 0, or that of the refusal.
pub fn number(answer: Result<(), Refusal>) -> u8
    ensures { result ≡ answer_number (answer_of answer) }
{
    match answer {
        Ok(()) => 0,
        Err(refusal) => refusal.number(),
    }
}
