//! Why a dossier, a plan, a piece, a closing or a list of period ends is refused.
#![tactic(auto)]

use std::error::Error;
use std::fmt;

/// The cause of a refusal. Records are judged in their order, and the first fault counts; docs/DOSSIER.md has the table of all.
#[derive(Clone, Copy, Debug, PartialEq, Eq)]
pub enum Refusal {
    /// The bytes end before or inside a mark that is still needed, or inside a record.
    BytesMissing = 1,
    /// A mark that is not due, or bytes after the end.
    MarkNotDue = 2,
    /// A field of HD.
    HeadOutOfRange = 3,
    /// The total of PA or of DA.
    AreaTotalWrong = 4,
    /// A row of MP does not sum to 1,000,000.
    RowSumWrong = 5,
    /// A year that is not the next, one where none is left, or its days of operation.
    YearWrong = 6,
    /// CP or CD does not sum to the total of PA or of DA.
    ConversionTotalWrong = 7,
    /// A field of an activity record, or a product of its fields.
    ActivityOutOfRange = 8,
    /// The 61st activity record of a year, or the third CR.
    TooManyActivities = 9,
    /// The result buffer is too short.
    BufferTooShort = 10,
    /// A field of ST.
    StockOutOfRange = 11,
    /// The bytes that are lent as a plan are not of its form.
    PlanNotOfForm = 12,
    /// The plan lacks the year, or its activity emissions are too great for planned quantities.
    PlannedYearWrong = 13,
    /// An activity record equals one before it.
    RecordRepeated = 14,
    /// The list of period ends.
    PeriodEndsWrong = 15,
}

impl Refusal {
    ghost use Rattle.std.specs.Prelude.{◌≡◌};
    ghost use Rattle.refusals.specs.Refusals.{number_of, text_of};

    /// The number of the cause, by which a host, a sheet and a report of faults know it.
    pub fn number(self) -> u8
        ensures { result ≡ number_of self }
    {
        // `as`: of a cause to its number; a `From` of its own would say the numbers once more.
        self as u8
    }

    /// The cause in words.
    pub fn text(self) -> &'static str
        ensures { result.now ≡ text_of self }
    {
        match self {
            Refusal::BytesMissing => "bytes are missing: a mark or a record is cut",
            Refusal::MarkNotDue => "a mark that is not due, or bytes after the end",
            Refusal::HeadOutOfRange => "a field of HD is out of range",
            Refusal::AreaTotalWrong => "the total of PA or of DA is out of range",
            Refusal::RowSumWrong => "a row of MP does not sum to 1,000,000",
            Refusal::YearWrong => "a year that is not the next, or its days of operation are wrong",
            Refusal::ConversionTotalWrong => "CP or CD does not sum to the total of PA or of DA",
            Refusal::ActivityOutOfRange => "a field of an activity record is out of range",
            Refusal::TooManyActivities => "more activity records than a year may have",
            Refusal::BufferTooShort => "the result buffer is too short",
            Refusal::StockOutOfRange => "a field of ST is out of range",
            Refusal::PlanNotOfForm => "the plan is not of its form",
            Refusal::PlannedYearWrong => "the plan lacks the year, or the year may not be planned",
            Refusal::RecordRepeated => "an activity record equals one before it",
            Refusal::PeriodEndsWrong => "the list of period ends is wrong",
        }
    }
}

impl fmt::Display for Refusal {
    ghost use Rattle.std.specs.Prelude.{Some};
    ghost use Rattle.refusals.specs.Refusals.{text_of};

    ghost output = { λ refusal. Some (text_of refusal) };

    fn fmt<W: fmt::Write>(&self, f: &mut fmt::Formatter<W>) -> fmt::Result {
        let text = self.text();
        write!(f, "{text}")
    }
}

impl Error for Refusal {}
