//! Both readers of conversion tables for a host in C, bench/tables. No part of the product.
#![tactic(auto)]

ghost use Rattle.std.specs.Prelude.{◌≡◌, ◌≤◌, length, drop};
ghost use Rattle.classes.specs.Matrix.{entry};
ghost use Rattle.projection.specs.Ranges.{SmallArea};
ghost use Rattle.tablebench.specs.Said.{carbon_said, both_tables};

use classes::Factors;
use tables::Weighing;
use units::AreaUnits;

// One call for each reader, since C calls both by name.

/// The carbon of CP and CD from a place, both of this total, by the reader of the product; 0 where one is refused. bench/tables.c sees to the
/// ranges.
#[unsafe(no_mangle)]
pub extern "C" fn tables_by_rows(s: &[u8], at: usize, total: u64, factors: &Factors) -> u64
    requires at_in_bounds { at ≤ length s.now }
    requires small_total { SmallArea total }
    ensures { result ≡ carbon_said (both_tables (entry factors.now) total (drop at s.now)) }
{
    let weighing = Weighing {
        total: AreaUnits(total),
        factors,
    };
    tablebench::tables_by_rows(&s[at..], &weighing)
}

/// The same by the reader before it.
#[unsafe(no_mangle)]
pub extern "C" fn tables_by_entries(s: &[u8], at: usize, total: u64, factors: &Factors) -> u64
    requires at_in_bounds { at ≤ length s.now }
    requires small_total { SmallArea total }
    ensures { result ≡ carbon_said (both_tables (entry factors.now) total (drop at s.now)) }
{
    let weighing = Weighing {
        total: AreaUnits(total),
        factors,
    };
    tablebench::tables_by_entries(&s[at..], &weighing)
}
