//! Sums of a root in a log, and in all logs.

ghost use Rattle.std.specs.Prelude.{◌≡◌, ◌+◌, ◌-◌, ◌↔◌, ◌^◌, ℕ, IsTrue};
ghost use Rattle.run_check.specs.Tallying.{no_sums, more_births, sums_step, no_totals, plus, AreAtMost, TotalsAtMost, AreTotals};

use super::{Sums, Totals};
use pool_law::RefDid;

impl Sums {
    /// Nothing is noted.
    pub fn none() -> Sums
        ensures { result ≡ no_sums }
    {
        Sums {
            births: 0,
            borns: 0,
            retains: 0,
            releases: 0,
            ends: 0,
        }
    }

    // One more birth.
    pub(crate) fn more_births(&self) -> Sums
        requires { AreAtMost (2 ^ 64 - 2) self.now }
        ensures { result ≡ more_births self.now }
    {
        Sums {
            births: self.births + 1,
            borns: self.borns,
            retains: self.retains,
            releases: self.releases,
            ends: self.ends,
        }
    }

    // After one more note on the count.
    pub(crate) fn step(&self, did: RefDid) -> Sums
        requires { AreAtMost (2 ^ 64 - 2) self.now }
        ensures { result ≡ sums_step self.now did }
    {
        let mut sums = *self;
        match did {
            RefDid::Born => sums.borns += 1,
            RefDid::Retain => sums.retains += 1,
            RefDid::Kept => sums.releases += 1,
            RefDid::Ended => {
                sums.releases += 1;
                sums.ends += 1;
            }
            RefDid::Vacated | RefDid::Look(_) => {}
        }
        sums
    }
}

impl Totals {
    /// Nothing is noted.
    pub fn none() -> Totals
        ensures { result ≡ no_totals }
    {
        Totals {
            births: 0,
            borns: 0,
            retains: 0,
            releases: 0,
            ends: 0,
        }
    }

    // These with the sums of one more log.
    pub(crate) fn plus(&self, sums: &Sums) -> Totals
        requires { TotalsAtMost (2 ^ 128 - 2 ^ 64) self.now }
        ensures sums { result ≡ plus sums.now self.now }
        ensures most { (n : ℕ) → TotalsAtMost n self.now → TotalsAtMost (n + (2 ^ 64 - 1)) result }
    {
        Totals {
            births: u128::from(sums.births) + self.births,
            borns: u128::from(sums.borns) + self.borns,
            retains: u128::from(sums.retains) + self.retains,
            releases: u128::from(sums.releases) + self.releases,
            ends: u128::from(sums.ends) + self.ends,
        }
    }

    /// Whether the total of a root is 0, which is one for its birth, and all retains less all
    /// releases.
    pub fn is_over(&self) -> bool
        ensures { IsTrue result ↔ ((1 + self.now.retains) - self.now.releases ≡ 0) }
    {
        self.releases >= 1 && self.releases - 1 >= self.retains
    }

    /// Whether these are the sums of a root that was born.
    pub fn are_totals(&self) -> bool
        ensures { IsTrue result ↔ AreTotals self.now }
    {
        if self.releases >= 1 && self.releases - 1 > self.retains {
            return false;
        }
        if self.borns != 1 || self.ends > 1 {
            return false;
        }
        if self.is_over() {
            self.ends == 1
        } else {
            self.ends == 0
        }
    }
}
