ghost use Rattle.std.specs.Prelude.{◌≡◌, Bool, map, nat_le, nat_lt, position, reverse, IfOk};
ghost use Rattle.model.specs.Lists.{any};
ghost use Rattle.conflicts.specs.Rising.{number_of};
ghost use Rattle.transactions.specs.Transactions.{model_of};
ghost use Rattle.conflicts.specs.declared.window.Committed.{Committed};
ghost use Rattle.conflicts.specs.Marks.{lowest, mark_of, is_passed, is_passing, turns, would_pivot, remarked, new_mark};

use super::*;
use model::*;
use std::alloc::{AllocError, Global};
use transactions::*;

impl Committed {
    // What is kept of t, committed with this number after these.
    #[tactic(auto, using(crate::proofs::Loops::lowest_map))]
    pub fn of(
        heap: Global,
        t: &Transaction,
        number: u32,
        all: &[Committed],
    ) -> Result<Committed, AllocError>
        ensures { IfOk result (λ c. mark_of c ≡ new_mark (model_of t.now) number (map mark_of all.now)) }
    {
        Ok(Committed {
            number,
            reads: Vec::from_slice(heap, t.own_reads())?,
            writes: Vec::from_slice(heap, t.own_writes())?,
            passes: first_number(all, |c| c.is_passed(t)),
            passed_by: first_number(all, |c| c.is_passing(t)),
        })
    }

    // Whether t, which commits now, passes it.
    pub fn is_passed(&self, t: &Transaction) -> bool
        ensures { result ≡ is_passed (model_of t.now) (mark_of self.now) }
    {
        t.begin <= self.number && reads_some(t.own_reads(), t.own_writes(), &self.writes)
    }

    // Whether it passes t, which commits now.
    pub fn is_passing(&self, t: &Transaction) -> bool
        ensures { result ≡ is_passing (model_of t.now) (mark_of self.now) }
    {
        t.begin <= self.number && reads_some(&self.reads, &self.writes, t.own_writes())
    }

    // Whether it would be a pivot with t among the commits.
    pub fn turns(&self, t: &Transaction) -> bool
        ensures { result ≡ turns (model_of t.now) (mark_of self.now) }
    {
        let passed = self.is_passed(t);
        let passing = self.is_passing(t);
        passed && (self.passes.is_some() || passing) || passing && self.passed_by.is_some()
    }

    // Notes that t has committed with this number.
    pub fn remark(&mut self, t: &Transaction, number: u32)
        ensures { mark_of self.new ≡ remarked (model_of t.now) number (mark_of self.old) }
    {
        let passing = self.is_passing(t);
        let passed = self.is_passed(t);
        self.passes = self.passes.or(passing.then_some(number));
        self.passed_by = self.passed_by.or(passed.then_some(number));
    }
}

// Whether one of them would be a pivot with t among the commits.
fn some_turns(t: &Transaction, all: &[Committed]) -> bool
    ensures { result ≡ any (λ (c : Committed). turns (model_of t.now) (mark_of c)) all.now }
{
    all.iter().any(|c| c.turns(t))
}

// The number of the first that passes the test.
fn first_number<F: Fn(&Committed) -> bool>(all: &[Committed], test: F) -> Option<u32>
    requires { F.IsAlwaysCallable test }
    ensures { (p : Committed → Bool) → ((c : _) (r : Bool) → F.post test c r → r ≡ p c.now) → result ≡ lowest number_of p all.now }
{
    all.iter().find(|c| test(*c)).map(|c| c.number)
}

// Whether t or one of them would be a pivot with t among the commits.
#[tactic(auto, using(transactions::proofs::Anys::any_map, crate::proofs::Loops::lowest_map))]
pub fn pivot_with(t: &Transaction, all: &[Committed]) -> bool
    ensures { result ≡ would_pivot (model_of t.now) (map mark_of all.now) }
{
    some_turns(t, all)
        || first_number(all, |c| c.is_passed(t)).is_some()
            && first_number(all, |c| c.is_passing(t)).is_some()
}

// The place of the first with a number of at least the floor.
pub fn first_from(all: &[Committed], floor: u32) -> Option<usize>
    ensures { result ≡ position (λ (c : Committed). nat_le floor c.number) all.now }
{
    all.iter().position(|c| c.number >= floor)
}

// The place, counted from the end, of the last with a number below the floor.
pub fn last_below(all: &[Committed], floor: u32) -> Option<usize>
    ensures { result ≡ position (λ (c : Committed). nat_lt c.number floor) (reverse all.now) }
{
    all.iter().rev().position(|c| c.number < floor)
}

// Notes with each that t has committed with this number, which is the caller's to give and no part of t.
pub fn remark_all(t: &Transaction, number: u32, all: &mut [Committed])
    ensures { map mark_of all.new ≡ map (remarked (model_of t.now) number) (map mark_of all.old) }
{
    for c in all.iter_mut() {
        c.remark(t, number);
    }
}
