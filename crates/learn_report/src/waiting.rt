//! The numbers of the reports that wait, in ascending order: each look into them halves what is left to search.
ghost use Rattle.std.specs.Prelude.{◌≡◌, ◌+◌, ◌*◌, ◌<◌, ◌∷◌, ◌==◌, [], true, not, length, IfOk, IsPermutation};
ghost use Rattle.std.specs.Bool.{OnTrue, OnFalse};
ghost use Rattle.std.specs.List.{list_any};
ghost use Rattle.br_model.specs.Table.Limits.{most_reports};
ghost use Rattle.learn_report.specs.Index.{numbered, IsRanged};

use crate::NoMemory;
use crate::reports::Report;
use br_model::limits::MOST_REPORTS;
use std::alloc::Global;
use std::marker::Model;

/// How many ports a byte numbers.
const PORTS: u128 = 256;

/// Ascending numbers, with room for those of as many reports as may wait. Contracts see the numbers.
#[derive(Drop)]
pub(crate) struct Waiting {
    numbers: Vec<u128>,
}

impl Model for Waiting {
    ghost use Rattle.std.specs.Prelude.{ℕ, ◌≤◌, List, vec_capacity};
    ghost use Rattle.std.specs.List.Sorted.{IsNonDecreasing};
    ghost use Rattle.br_model.specs.Table.Limits.{most_reports};

    ghost Value = { List ℕ };

    ghost view = { λ w. w.numbers.items };

    ghost invariant = { λ w. IsNonDecreasing w.numbers.items × (most_reports ≤ vec_capacity w.numbers) };
}

/// The number of a report, which no other one has.
pub(crate) fn number_of(report: &Report) -> u128
    ensures value { result ≡ numbered report.now }
    ensures ranged { IsRanged report.now }
{
    u128::from(report.1.in_vlan(report.0)) * PORTS + u128::from(report.2.number())
}

impl Waiting {
    /// No number, and the room for all.
    pub(crate) fn make(alloc: Global) -> Result<Waiting, NoMemory>
        ensures { IfOk result (λ w. w ≡ []) }
    {
        let numbers = Vec::with_capacity(alloc, MOST_REPORTS)?;
        Ok(Waiting { numbers })
    }

    /// Adds a number. `false` exactly where it is there already.
    pub(crate) fn put(&mut self, number: u128) -> bool
        requires { length self.old < most_reports }
        ensures value { result ≡ not (list_any (λ n. n == number) self.old) }
        ensures put { OnTrue result (IsPermutation (number ∷ self.old) self.new) }
        ensures kept { OnFalse result (self.new ≡ self.old) }
    {
        match self.numbers.binary_search(&number) {
            Ok(_) => false,
            Err(place) => match self.numbers.insert(place, number) {
                Ok(()) => true,
                Err(_) => unreachable!(),
            },
        }
    }

    /// Takes out a number that is there.
    pub(crate) fn take(&mut self, number: u128)
        requires { list_any (λ n. n == number) self.old ≡ true }
        ensures { IsPermutation self.old (number ∷ self.new) }
    {
        match self.numbers.binary_search(&number) {
            Ok(place) => {
                self.numbers.remove(place);
            }
            Err(_) => unreachable!(),
        }
    }
}
