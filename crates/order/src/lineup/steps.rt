ghost use Rattle.std.specs.Prelude.{◌≡◌, ◌-◌, ◌^◌, ◌<◌, true, length, find, IfSome, IfOk};
ghost use Rattle.std.specs.List.{range_with_len};
ghost use Rattle.order.specs.Order.{first_free};
ghost use Rattle.order.specs.Taking.{gone_of, holds_up, is_free};
ghost use Rattle.order.specs.Lineup.{commits_of, left_in, Starts, Compares, Took};

use super::*;
use std::alloc::{AllocError, Global};

impl<'p> Lineup<'p> {
    // At first nobody is taken or compared.
    pub fn new(heap: Global, pasts: &'p [Past]) -> Result<Lineup<'p>, AllocError>
        requires { length pasts.now < 2 ^ 32 }
        ensures { IfOk result (Starts pasts.now) }
    {
        Ok(Lineup {
            pasts,
            cursors: vec![in heap; Some(0); pasts.len()]?,
            first: 0,
            order: Vec::with_capacity(heap, pasts.len())?,
        })
    }

    // Whether number j is left and has to stand before number i. The numbers come from one loop over the commits, so each step
    // asks for the bound.
    fn holds_up(&self, i: usize, j: usize) -> bool
        requires within { i < length self.now.pasts.now }
        requires within_too { j < length self.now.pasts.now }
        ensures { result ≡ holds_up (commits_of self.now) (gone_of self.now.cursors.items) i j }
    {
        self.cursors[j].is_some() && self.pasts[j].stands_before(j, &self.pasts[i], i)
    }

    // The lowest number, from `from` on, that holds up number i.
    fn next_before(&self, i: usize, from: usize) -> Option<usize>
        requires { i < length self.now.pasts.now }
        ensures { result ≡ find (holds_up (commits_of self.now) (gone_of self.now.cursors.items) i) (range_with_len from (length self.now.pasts.now - from)) }
    {
        (from..self.pasts.len()).find(|j| self.holds_up(i, *j))
    }

    // Whether number i is left and none of those left has to stand before it.
    fn is_free(&mut self, i: usize) -> bool
        requires within { i < length self.old.pasts.now }
        ensures same { Compares self.old self.new }
        ensures told { result ≡ is_free (commits_of self.old) (gone_of self.old.cursors.items) i }
    {
        let Some(from) = self.cursors[i] else {
            if i == self.first {
                self.first = i + 1;
            }
            return false;
        };
        let from = self.first.max(from as usize);
        let next = self.next_before(i, from);
        self.cursors[i] = Some(next.unwrap_or(self.pasts.len()) as u32);
        next.is_none()
    }

    // The lowest number of one that is left and that none of those left has to stand before. Each look may move a cursor, and
    // no clause of `find` says what such a closure leaves.
    fn first_free(&mut self) -> Option<usize>
        ensures same { Compares self.old self.new }
        ensures told { result ≡ first_free (commits_of self.old) (left_in self.old) }
        ensures within { IfSome result (λ i. i < length self.old.pasts.now) }
    {
        for i in self.first..self.pasts.len() {
            if self.is_free(i) {
                return Some(i);
            }
        }
        None
    }

    // Takes the lowest number that is free, if there is one, and says whether there was; the number itself is in the order.
    fn take_one(&mut self) -> bool
        ensures { Took 1 self.old self.new result }
    {
        let Some(i) = self.first_free() else {
            return false;
        };
        self.cursors[i] = None;
        self.order.push_reserved(i as u32);
        true
    }

    // Takes n one after the other, or as many as are free in turn, and says whether there were n. It calls itself, as the
    // order is defined by how many are left, for one half of them and then the other, so it is as deep as n has binary digits.
    pub fn take(&mut self, n: usize) -> bool
        ensures { Took n self.old self.new result }
    {
        match n {
            0 => true,
            1 => self.take_one(),
            _ => self.take(n / 2) && self.take(n - n / 2),
        }
    }
}
