//! Verification periods (docs/METHOD.md, "Verification periods"): whether a list of period ends is sound, and the tonnes issued at each end.
#![tactic(auto)]

ghost use Rattle.std.specs.Prelude.{◌≡◌, true, ◌+◌, ◌*◌, ◌≤◌, max, pos, length};
ghost use Rattle.std.specs.Int.Signed.{mag};
ghost use Rattle.std.proofs.lemmas.List.Edits.{sets};
ghost use Rattle.wire.specs.Signed.{figures_bytes};
ghost use Rattle.periods.specs.Periods.{ends_sound, credited_in, issued_now, issued_tonnes};
ghost use Rattle.periods.specs.Ranges.{SmallYears, Kept, Small};

use figures::Figures;
use units::Grams;

/// Whether a list of period ends is sound for so many years from the first on: rising, each one of the years, and the last end the last year.
/// A list with no end is.
#[tactic(auto, using(crate::proofs::Rulesets::ends))]
pub fn sound(ends: &[u16], first: u64, years: u64) -> bool
    ensures { result ≡ ends_sound first years ends.now }
{
    if ends.is_empty() {
        return true;
    }
    let mut least = first;
    for &end in ends {
        let end = u64::from(end);
        if end < least || years <= end - first {
            return false;
        }
        least = end + 1;
    }
    least - first == years
}

/// The running credited totals in grams, kept for all the years: at each number of years that of so many from the first on.
#[tactic(auto, using(crate::proofs::Rulesets::totals))]
fn running_totals(figures: &[Figures]) -> [Grams; 21]
    requires { SmallYears (length figures.now) figures.now }
    ensures kept { Kept (length figures.now) figures.now result }
    ensures small { Small (length figures.now) result }
{
    let mut totals = [Grams(0); 21];
    for (y, year) in figures.iter().enumerate() {
        totals[y + 1] = totals[y] + year.credited;
    }
    totals
}

/// The tonnes issued at an end with this running total, where so many were issued before.
#[tactic(auto, using(crate::proofs::Rulesets::issues))]
fn issued_now(total: Grams, before: u64) -> u64
    ensures value { pos result ≡ issued_now (pos before) total.0 }
    ensures together { before + result ≤ max before (mag total.0) }
{
    figures::tonnes(total).saturating_sub(before)
}

/// Writes the tonnes issued at each end of a sound list, eight bytes each, from a place on. There are at most 20 years.
/// With no list no running totals are kept.
#[tactic(auto, using(crate::proofs::Rulesets::years), unfolding(wire::specs::Signed::figures_bytes))]
pub fn write_issued(figures: &[Figures], first: u64, ends: &[u16], buffer: &mut [u8], at: usize)
    requires small_years { SmallYears (length figures.now) figures.now }
    requires sound_ends { ends_sound first (length figures.now) ends.now ≡ true }
    requires room { at + 8 * length ends.now ≤ length buffer.old }
    ensures { buffer.new ≡ sets buffer.old at (figures_bytes (issued_tonnes first (credited_in figures.now) ends.now)) }
{
    if ends.is_empty() {
        return;
    }
    let totals = running_totals(figures);
    let mut before = 0;
    for (i, &end) in ends.iter().enumerate() {
        let years = u64::from(end) + 1 - first;
        // `as`, here and below: a number of years to a place, and tonnes that are proved to fit.
        let total = totals[years as usize];
        let tonnes = issued_now(total, before);
        wire::put_figure(buffer, at + 8 * i, tonnes as i64);
        before += tonnes;
    }
}
