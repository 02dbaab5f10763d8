//! What `yearsheet` prints for the bytes it is handed.
#![tactic(auto)]

ghost use Rattle.std.specs.Prelude.{◌≡◌};
ghost use Rattle.printout.specs.Printout.{printout};
ghost use Rattle.printout.specs.LedgerSheet.{ledger_sheet};

use reckoner::{Ledger, Step};
use sheet::Text;

// The sheet of a ledger, from its report in a buffer for 20 years.
#[tactic(auto, unfolding(crate::specs::LedgerSheet::ledger_sheet))]
fn ledger_sheet(ledger: Ledger) -> Text
    ensures { result.bytes ≡ ledger_sheet ledger }
{
    let mut report = [0u8; 1312];
    ledger.close(&mut report);
    // `as`: a ledger that the calls handed back has a first year of 16 bits.
    sheet::sheet_of(ledger.first_year() as u16, ledger.years(), &report)
}

/// The sheet of a dossier, with no plan lent, or the line of its refusal.
#[tactic(auto, using(crate::proofs::Rulesets::printed))]
pub fn printout_of(dossier: &[u8]) -> Text
    ensures { result.bytes ≡ printout dossier.now }
{
    let Step { ledger, answer } = Ledger::of_dossier(dossier, b"");
    match answer {
        Err(refusal) => sheet::refusal_of(refusal.number()),
        Ok(()) => ledger_sheet(ledger),
    }
}
