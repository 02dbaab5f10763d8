//! The reckoner for a host in C: three calls of the library's whole reckoning, under their C names.
#![tactic(auto)]

ghost use Rattle.std.specs.Prelude.{◌≡◌, length, []};
ghost use Rattle.reckoner.specs.Calls.{reckon_number, reckon_buffer};

/// The whole reckoning for a host in C, under a plan or none, with a list of period ends or none.
#[unsafe(no_mangle)]
pub extern "C" fn kh_am004_reckon_periods<'a>(
    dossier: &'a [u8],
    plan: &'a [u8],
    ends: &[u16],
    res: &mut [u8],
) -> u32
    ensures value { result ≡ reckon_number dossier.now plan.now ends.now (length res.old) }
    ensures res_after { res.new ≡ reckon_buffer dossier.now plan.now ends.now res.old }
{
    u32::from(reckoner::number(reckoner::reckon(dossier, plan, ends, res)))
}

/// The same with no list.
#[unsafe(no_mangle)]
pub extern "C" fn kh_am004_reckon_plan<'a>(dossier: &'a [u8], plan: &'a [u8], res: &mut [u8]) -> u32
    ensures value { result ≡ reckon_number dossier.now plan.now [] (length res.old) }
    ensures res_after { res.new ≡ reckon_buffer dossier.now plan.now [] res.old }
{
    kh_am004_reckon_periods(dossier, plan, &[], res)
}

/// The same with neither list nor plan.
#[unsafe(no_mangle)]
pub extern "C" fn kh_am004_reckon(dossier: &[u8], res: &mut [u8]) -> u32
    ensures value { result ≡ reckon_number dossier.now [] [] (length res.old) }
    ensures res_after { res.new ≡ reckon_buffer dossier.now [] [] res.old }
{
    kh_am004_reckon_plan(dossier, &[], res)
}
