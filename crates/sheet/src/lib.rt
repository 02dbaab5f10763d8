//! The texts of a reckoning, made from its report: none needs the heap, and none can fail.
#![tactic(auto)]

ghost use Rattle.std.specs.Prelude.{◌≡◌, ◌+◌, ◌*◌, ◌≤◌, ◌++◌, length};
ghost use Rattle.arrayvec.specs.ArrayString.{array_string_len};
ghost use Rattle.wire.specs.Signed.{figure_at};
ghost use Rattle.sheet.specs.CallLine.{numbers_line};
ghost use Rattle.sheet.specs.Sheet.{spaced, named, year_line, year_lines, total_line, sheet_of, refusal_of};

use arrayvec::ArrayString;
use itoa::Buffer;

/// A text that lies in the value itself, with room for the longest: a sheet of 20 years has at most 3,966 bytes.
pub type Text = ArrayString<4096>;

// The figure that the eight bytes from a place say.
#[tactic(auto, using(crate::proofs::Rulesets::signed_figures), unfolding(wire::specs::Signed::figure_at))]
fn figure_at(report: &[u8], at: usize) -> i64
    requires { at + 8 ≤ length report.now }
    ensures { result ≡ figure_at report.now at }
{
    wire::field64(report, at).cast_signed()
}

// Each of these appends a text, and asks for room for the longest of its kind. The report stays whole and its place beside it: the layout of a
// report says each figure by its place, and a part would be cut at each call and its place be said again in the contract.

// `k` figures of a report from a place on, each after a space.
#[tactic(auto, using(crate::proofs::Rulesets::figures), unfolding(crate::specs::Sheet::spaced))]
fn push_figures(text: &mut Text, k: usize, report: &[u8], from: usize)
    requires inside { from + 8 * k ≤ length report.now }
    requires fits { array_string_len text.old + 21 * k ≤ 4096 }
    ensures bytes { text.new.bytes ≡ text.old.bytes ++ spaced k report.now from }
    ensures room { array_string_len text.new ≤ array_string_len text.old + 21 * k }
{
    for i in 0..k {
        text.push(' ');
        text.push_str(Buffer::new().format(figure_at(report, from + 8 * i)));
    }
}

// The line of a year.
#[tactic(auto, unfolding(crate::specs::Sheet::year_line))]
fn push_year(text: &mut Text, year: u64, report: &[u8], from: usize)
    requires inside { from + 64 ≤ length report.now }
    requires fits { array_string_len text.old + 189 ≤ 4096 }
    ensures bytes { text.new.bytes ≡ text.old.bytes ++ year_line year report.now from }
    ensures room { array_string_len text.new ≤ array_string_len text.old + 189 }
{
    text.push_str(Buffer::new().format(year));
    push_figures(text, 8, report, from);
    text.push('\n');
}

// A word and the figures that it names.
#[tactic(auto, unfolding(crate::specs::Sheet::named))]
fn push_named(text: &mut Text, word: &str, k: usize, report: &[u8], from: usize)
    requires inside { from + 8 * k ≤ length report.now }
    requires fits { array_string_len text.old + length word.now + 21 * k ≤ 4096 }
    ensures bytes { text.new.bytes ≡ text.old.bytes ++ named word.now k report.now from }
    ensures room { array_string_len text.new ≤ array_string_len text.old + length word.now + 21 * k }
{
    text.push_str(word);
    push_figures(text, k, report, from);
}

// The line of totals.
#[tactic(auto, unfolding(crate::specs::Sheet::named, crate::specs::Sheet::total_line))]
fn push_totals(text: &mut Text, report: &[u8], from: usize)
    requires inside { from + 32 ≤ length report.now }
    requires fits { array_string_len text.old + 105 ≤ 4096 }
    ensures { text.new.bytes ≡ text.old.bytes ++ total_line report.now from }
{
    push_named(text, "total", 1, report, from);
    push_named(text, " tonnes", 1, report, from + 8);
    push_named(text, " balance", 2, report, from + 16);
    text.push('\n');
}

/// The sheet of so many years from the first on, at most 20, from their report.
#[tactic(auto, using(crate::proofs::Rulesets::lines), unfolding(crate::specs::Sheet::header, crate::specs::Sheet::year_lines, crate::specs::Sheet::sheet_of))]
pub fn sheet_of(first: u16, years: u64, report: &[u8; 1312]) -> Text
    requires { years ≤ 20 }
    ensures { result.bytes ≡ sheet_of first years report.now }
{
    let mut text = Text::new();
    text.push_str(
        "year reference project activity belt belt-reference displaced reduction credited\n",
    );
    // `as`, here and below: at most 20 years to a place.
    for i in 0..years {
        push_year(&mut text, u64::from(first) + i, report, 64 * i as usize);
    }
    push_totals(&mut text, report, 64 * years as usize);
    text
}

// A refusal and an answer stand here by their numbers, since a sheet is made from what crosses to C alone. Text is pushed and not written by `write!`, which
// could not be shown never to fail.

/// The line of a refusal, which has its number.
#[tactic(auto, unfolding(crate::specs::Sheet::refusal_of))]
pub fn refusal_of(refusal: u8) -> Text
    ensures { result.bytes ≡ refusal_of refusal }
{
    let mut text = Text::new();
    text.push_str("refused ");
    text.push_str(Buffer::new().format(refusal));
    text.push('\n');
    text
}

/// What follows the word in the line of a call, for testers: its number and every whole figure of a part of a report.
#[tactic(auto, unfolding(crate::specs::CallLine::numbers_line))]
pub fn numbers_line(number: u8, figures: &[u8]) -> Text
    requires { length figures.now ≤ 1472 }
    ensures { result.bytes ≡ numbers_line number figures.now }
{
    let mut text = Text::new();
    text.push(' ');
    text.push_str(Buffer::new().format(number));
    push_figures(&mut text, figures.len() / 8, figures, 0);
    text.push('\n');
    text
}
