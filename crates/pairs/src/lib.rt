//! The keys of a year's activity records, and whether two of them are equal.
#![tactic(auto)]

ghost use Rattle.std.specs.Prelude.{◌≡◌, ◌<◌, ◌≤◌, ◌↔◌, IsTrue, [], ◌∷◌, ◌++◌, length};
ghost use Rattle.pairs.specs.Pairs.{keys, slot, is_among, some_equal};

use activity::Words;
use arrayvec::ArrayVec;
use std::marker::Model;

/// How many records a year has at most.
const ROOM: usize = 60;

/// A prime.
const FLAGS: u64 = 1_021;

/// The keys of up to sixty records. The low words lie by themselves, and the high ones: in one array the pairs take 1.4 times as long to compare.
#[derive(Drop)]
pub struct Keys {
    low: ArrayVec<u64, ROOM>,
    high: ArrayVec<u64, ROOM>,
}

impl Model for Keys {
    ghost use Rattle.std.specs.Prelude.{◌≡◌, List, length};
    ghost use Rattle.activity.specs.declared.Words.{Words};
    ghost use Rattle.pairs.specs.Pairs.{keys};

    ghost Value = { List Words };

    ghost view = { λ k. keys k.low.items k.high.items };

    ghost invariant = { λ k. length k.low.items ≡ length k.high.items };
}

// The flag of a key: its low word's remainder by a prime, so that words in equal steps have different flags, as those of round quantities.
#[tactic(auto, unfolding(crate::specs::Pairs::slot))]
fn slot_of(key: Words) -> usize
    ensures value { result ≡ slot key }
    ensures bound { result < 1021 }
{
    // `as`: a number below 1,021 to a place, where `try_from` would bring a case that never comes.
    (key.low % FLAGS) as usize
}

// Whether a key is among those of these words. Each is compared, with no branch, so that the compiler takes several at a time.
#[tactic(auto, using(crate::proofs::PairsLaws::scanned))]
fn is_among(low: &[u64], high: &[u64], key: Words) -> bool
    requires { length low.now ≡ length high.now }
    ensures { result ≡ is_among (keys low.now high.now) key }
{
    let mut found = false;
    for j in 0..low.len() {
        found |= (low[j] == key.low) & (high[j] == key.high);
    }
    found
}

impl Keys {
    /// No keys.
    #[tactic(auto, using(crate::proofs::PairsLaws::pushed))]
    pub fn new() -> Keys
        ensures { result ≡ [] }
    {
        Keys {
            low: ArrayVec::new(),
            high: ArrayVec::new(),
        }
    }

    /// Whether there is no room for another.
    #[tactic(auto, using(crate::proofs::PairsLaws::pushed))]
    pub fn is_full(&self) -> bool
        ensures { IsTrue result ↔ (60 ≤ length self.now) }
    {
        self.low.is_full()
    }

    /// One key more.
    #[tactic(auto, using(crate::proofs::PairsLaws::pushed))]
    pub fn add(&mut self, key: Words)
        requires { length self.old < 60 }
        ensures { self.new ≡ self.old ++ key ∷ [] }
    {
        self.low.push(key.low);
        self.high.push(key.high);
    }

    /// Whether two of the keys are equal. A key whose flag is not set yet equals no earlier one.
    #[tactic(auto, using(crate::proofs::PairsLaws::equals))]
    pub fn any_equal(&self) -> bool
        ensures { result ≡ some_equal self.now }
    {
        let low = self.low.as_slice();
        let high = self.high.as_slice();
        if low.len() < 2 {
            return false;
        }
        // `as`: a constant to a length, where no conversion can be called.
        let mut flags = [false; FLAGS as usize];
        for k in 0..low.len() {
            let key = Words {
                low: low[k],
                high: high[k],
            };
            let slot = slot_of(key);
            if flags[slot] && is_among(&low[..k], &high[..k], key) {
                return true;
            }
            flags[slot] = true;
        }
        false
    }
}
