//! The report of a closing, written into the lent buffer.
#![tactic(auto)]

ghost use Rattle.std.specs.Prelude.{◌≡◌, ◌++◌, ◌+◌, ◌*◌, ◌^◌, ◌≤◌, ◌<◌, length};
ghost use Rattle.wire.specs.Signed.{written};
ghost use Rattle.report.specs.Report.{eight, eights, closing};

use figures::Figures;
use units::{AreaUnits, Grams};

/// A year's figures in grams CO2e, in the order in which they are reported.
fn eight(year: &Figures) -> [i64; 8]
    ensures { result ≡ eight year.now }
{
    [
        year.reference.0,
        year.project.0,
        year.activity.0,
        year.belt.0,
        year.belt_reference.0,
        year.displaced.0,
        year.reduction.0,
        year.credited.0,
    ]
}

/// The numbers that close a report: the total in grams CO2e, its whole tonnes, and the balances of the project and the belt.
#[tactic(auto, using(crate::proofs::Rulesets::numbers))]
fn closing(total: Grams, project: AreaUnits, belt: AreaUnits) -> [i64; 4]
    requires project_is_signed { project.0 < 2 ^ 63 }
    requires belt_is_signed { belt.0 < 2 ^ 63 }
    ensures { result ≡ closing total.0 project.0 belt.0 }
{
    // `as`: tonnes are proved to fit, and the balances are asked to.
    let tonnes = figures::tonnes(total) as i64;
    [total.0, tonnes, project.0 as i64, belt.0 as i64]
}

/// Writes the report from the buffer's start on: the figures of each year, then total, tonnes, and the balances of the project and the belt,
/// as docs/DOSSIER.md, "The report", has them. The bytes beyond keep their content.
#[tactic(auto, using(crate::proofs::Rulesets::parts), unfolding(crate::specs::Report::eights))]
pub fn write_report(
    figures: &[Figures],
    total: Grams,
    project: AreaUnits,
    belt: AreaUnits,
    buffer: &mut [u8],
)
    requires room { 64 * length figures.now + 32 ≤ length buffer.old }
    requires project_is_signed { project.0 < 2 ^ 63 }
    requires belt_is_signed { belt.0 < 2 ^ 63 }
    ensures { buffer.new ≡ written (eights figures.now ++ closing total.0 project.0 belt.0) buffer.old }
{
    for (y, year) in figures.iter().enumerate() {
        wire::put_figures(buffer, 64 * y, &eight(year));
    }
    wire::put_figures(buffer, 64 * figures.len(), &closing(total, project, belt));
}
