ghost use Rattle.std.specs.Prelude.{◌≡◌, ◌≤◌, true, [], ◌∷◌, ◌++◌, map, length};
ghost use Rattle.transactions.specs.Transactions.{model_of};
ghost use Rattle.conflicts.specs.Marks.{marks_of, would_pivot, judged, from_floor, Taken, TakenIn};
ghost use Rattle.conflicts.specs.Rising.{number_of, Rise, FrontBelow, RestFrom};
ghost use Rattle.model.specs.Refusals.{refusal_in};
ghost use Rattle.conflicts.specs.Held.{Fresh, PivotTold, Entered, Forgot, VerdictTold};

use super::marks::*;
use super::*;
use model::*;
use std::alloc::{AllocError, Global};
use transactions::*;

impl Window {
    // Holds nothing, as is right with any commits done where no Serial is under way.
    pub fn new(heap: Global) -> Window
        ensures marks { marks_of result ≡ [] }
        ensures rules { Fresh result }
    {
        Window {
            all: Vec::new(heap),
            rising: true,
        }
    }

    // A place with only numbers below begin in front of it, and, where the numbers are known to rise, none behind it.
    fn unseen_from(&self, begin: u32) -> usize
        ensures within { result ≤ length self.now.all.items }
        ensures seen { FrontBelow begin result self.now.all.items }
        ensures unseen { self.now.rising ≡ true → RestFrom begin result self.now.all.items }
    {
        if self.rising {
            self.all.len() - last_below(&self.all, begin).unwrap_or(self.all.len())
        } else {
            0
        }
    }

    // Whether the numbers are known to rise with this one behind them.
    fn rising_with(&self, number: u32) -> bool
        ensures { result ≡ true → Rise (map number_of self.now.all.items ++ (number ∷ [])) }
    {
        self.rising && self.all.last().is_none_or(|c| c.number <= number)
    }

    // Whether there would be a pivot with t, a Serial, among the commits.
    pub fn would_pivot(&self, t: &Transaction) -> bool
        ensures marks { result ≡ would_pivot (model_of t.now) (marks_of self.now) }
        ensures rules { PivotTold self.now (model_of t.now) result }
    {
        let from = self.unseen_from(t.begin);
        pivot_with(t, &self.all[from..])
    }

    // Whether the rules allow the commit of t, or why they refuse it, given whether a commit that t did not see wrote a key
    // that it writes.
    pub fn verdict(&self, t: &Transaction, conflict: bool) -> Result<(), Refusal>
        ensures marks { refusal_in result ≡ judged (model_of t.now).level conflict (would_pivot (model_of t.now) (marks_of self.now)) }
        ensures rules { VerdictTold self.now (model_of t.now) conflict (refusal_in result) }
    {
        match t.level {
            Level::Latest => Ok(()),
            _ if conflict => Err(Refusal::WriteConflict),
            Level::Serial if self.would_pivot(t) => Err(Refusal::Pivot),
            Level::Snapshot | Level::Serial => Ok(()),
        }
    }

    // Takes in a Serial, committed with this number; where memory fails all is as before.
    fn enter(&mut self, t: &Transaction, number: u32) -> Result<(), AllocError>
        ensures { Taken (model_of t.now) number (marks_of self.old) (marks_of self.new) result }
    {
        self.all.reserve(1)?;
        let heap = *self.all.allocator();
        let from = self.unseen_from(t.begin);
        let new = Committed::of(heap, t, number, &self.all[from..])?;
        let rising = self.rising_with(number);
        remark_all(t, number, &mut self.all[from..]);
        self.all.push_reserved(new);
        self.rising = rising;
        Ok(())
    }

    // Takes in t, committed with this number. Only a Serial is kept. Where memory fails all is as before.
    pub fn take_in(&mut self, t: &Transaction, number: u32) -> Result<(), Refusal>
        ensures marks { TakenIn (model_of t.now) number (marks_of self.old) (marks_of self.new) result }
        ensures rules { Entered self.old self.new (model_of t.now) number result }
    {
        if t.level == Level::Serial {
            self.enter(t, number)?;
        }
        Ok(())
    }

    // Forgets those whose number is below the floor, which is the lowest begin of the Serials under way, or the number of
    // commits done where there is none.
    pub fn forget(&mut self, floor: u32)
        ensures marks { marks_of self.new ≡ from_floor floor (marks_of self.old) }
        ensures rules { Forgot self.old self.new floor }
    {
        // `drain` would turn all that goes round as well.
        let gone = first_from(&self.all, floor).unwrap_or(self.all.len());
        let left = self.all.len() - gone;
        self.all.rotate_left(gone);
        self.all.truncate(left);
    }
}
