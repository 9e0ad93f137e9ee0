// Records put into the table, replaced and taken out of it. What ascends still does afterwards.
ghost use Rattle.std.specs.Prelude.{◌≡◌, ◌+◌, ◌-◌, ◌<◌, ◌≤◌, length, take, MatchResult, MatchOption, slice_index_or, slice_set, true};
ghost use Rattle.std.specs.Bool.{MatchBool, Decides};
ghost use Rattle.std.specs.List.{insert, remove};
ghost use Rattle.std.specs.Cmp.{IsStrictWeakOrder};
ghost use Rattle.table.specs.Order.{before, Ascending, Parts, Found, Between, Alike};

use super::{Record, Refusal, Table};
use crate::order::{ByOrd, OrderedBy, is_before};
use crate::shift::{close, open};

impl<T: OrderedBy<By> + Copy, By> Table<'_, T, By> {
    // Puts a record in at its place. Where it is refused, nothing is changed.
    pub fn insert(&mut self, x: T) -> Result<usize, Refusal>
        ensures ascends { Ascending T.before self.old.slots.now self.old.len → Ascending T.before self.new.slots.now self.new.len }
        ensures room { length self.new.slots.now ≡ length self.old.slots.now }
        ensures same { self.new.slots.ghost_name ≡ self.old.slots.ghost_name }
        ensures rows { MatchResult result
            (λ i. (i ≤ self.old.len) × (Ascending T.before self.old.slots.now self.old.len → Parts T.before self.old.slots.now self.old.len x i)
            × (self.new.len ≡ self.old.len + 1)
            × (take self.new.len self.new.slots.now ≡ insert (take self.old.len self.old.slots.now) i x))
            (λ e. (self.new.len ≡ self.old.len)
            × (self.new.slots.now ≡ self.old.slots.now)
            × elim e [ Refusal.Full ↦ self.old.len ≡ length self.old.slots.now | Refusal.Known i ↦ Ascending T.before self.old.slots.now self.old.len → Found T.before self.old.slots.now self.old.len x i ]) }
    {
        match self.find(&x) {
            Ok(i) => Err(Refusal::Known(i)),
            Err(i) => {
                if self.len >= self.slots.len() {
                    return Err(Refusal::Full);
                }
                self.put(i, x);
                Ok(i)
            }
        }
    }

    // Puts a record in at an index, if there is a slot and the index parts those before it from those after it.
    // Where it is refused, nothing is changed.
    pub fn insert_at(&mut self, i: usize, x: T) -> bool
        ensures ascends { Ascending T.before self.old.slots.now self.old.len → Ascending T.before self.new.slots.now self.new.len }
        ensures room { length self.new.slots.now ≡ length self.old.slots.now }
        ensures same { self.new.slots.ghost_name ≡ self.old.slots.ghost_name }
        ensures granted { Ascending T.before self.old.slots.now self.old.len → Decides result ((self.old.len < length self.old.slots.now) × Parts T.before self.old.slots.now self.old.len x i) }
        ensures rows { MatchBool result
            ((i ≤ self.old.len)
            × (self.new.len ≡ self.old.len + 1)
            × (take self.new.len self.new.slots.now ≡ insert (take self.old.len self.old.slots.now) i x))
            ((self.new.len ≡ self.old.len) × (self.new.slots.now ≡ self.old.slots.now)) }
    {
        if self.len >= self.slots.len() || !self.parts(i, &x) {
            return false;
        }
        self.put(i, x);
        true
    }

    // Whether an index parts the records before `x` from those after it.
    fn parts(&self, i: usize, x: &T) -> bool
        ensures within { result ≡ true → i ≤ self.now.len }
        ensures place { Ascending T.before self.now.slots.now self.now.len → Decides result (Parts T.before self.now.slots.now self.now.len x.now i) }
    {
        if i > self.len {
            return false;
        }
        self.follows(i, x) && self.precedes(x, i)
    }

    // Whether `x` comes after the record before an index, if there is one.
    fn follows(&self, i: usize, x: &T) -> bool
        requires { i ≤ self.now.len }
        ensures { Decides result ((d : T) → 0 < i → T.before (slice_index_or self.now.slots.now (i - 1) d) x.now ≡ true) }
    {
        i == 0 || is_before::<T, By>(&self.records()[i - 1], x)
    }

    // Whether `x` comes before the record at an index, if there is one.
    fn precedes(&self, x: &T, i: usize) -> bool
        requires { i ≤ self.now.len }
        ensures { Decides result ((d : T) → i < self.now.len → T.before x.now (slice_index_or self.now.slots.now i d) ≡ true) }
    {
        i == self.len || is_before::<T, By>(x, &self.records()[i])
    }

    // Puts a record in at an index.
    #[tactic(auto, using(crate::proofs::Slides::take_opened))]
    fn put(&mut self, i: usize, x: T)
        requires within { self.old.len < length self.old.slots.now }
        requires place { i ≤ self.old.len }
        ensures ascends { Ascending T.before self.old.slots.now self.old.len → Parts T.before self.old.slots.now self.old.len x i → Ascending T.before self.new.slots.now self.new.len }
        ensures room { length self.new.slots.now ≡ length self.old.slots.now }
        ensures same { self.new.slots.ghost_name ≡ self.old.slots.ghost_name }
        ensures rows { (self.new.len ≡ self.old.len + 1) × (take self.new.len self.new.slots.now ≡ insert (take self.old.len self.old.slots.now) i x) }
    {
        let len = self.len;
        open(self.slots, i, len, x);
        self.len = len + 1;
    }

    // Puts a record in the place of one that is the same in the order, if it stands between the two beside it. Where it is refused, nothing is changed.
    // In an order where what is the same as the same is the same, as in a total one, it always stands there; so does one that compares with every record as the old one does.
    pub fn replace(&mut self, i: usize, x: T) -> bool
        ensures ascends { Ascending T.before self.old.slots.now self.old.len → Ascending T.before self.new.slots.now self.new.len }
        ensures same { self.new.slots.ghost_name ≡ self.old.slots.ghost_name }
        ensures granted { Ascending T.before self.old.slots.now self.old.len → Decides result (Found T.before self.old.slots.now self.old.len x i × Between T.before self.old.slots.now self.old.len x i) }
        ensures weak { Ascending T.before self.old.slots.now self.old.len → IsStrictWeakOrder T.before → Decides result (Found T.before self.old.slots.now self.old.len x i) }
        ensures alike { Ascending T.before self.old.slots.now self.old.len → i < self.old.len → Alike T.before self.old.slots.now x i → result ≡ true }
        ensures rows { (self.new.len ≡ self.old.len) × MatchBool result ((i < self.old.len) × (self.new.slots.now ≡ slice_set self.old.slots.now i x)) (self.new.slots.now ≡ self.old.slots.now) }
    {
        if !self.fits(i, &x) {
            return false;
        }
        self.slots[i] = x;
        true
    }

    // Whether `x` can stand in the place of the record at an index.
    fn fits(&self, i: usize, x: &T) -> bool
        ensures within { result ≡ true → i < self.now.len }
        ensures place { Ascending T.before self.now.slots.now self.now.len → Decides result (Found T.before self.now.slots.now self.now.len x.now i × Between T.before self.now.slots.now self.now.len x.now i) }
    {
        self.has(i, x) && self.between(i, x)
    }

    // Whether a record that is the same in the order stands at an index.
    fn has(&self, i: usize, x: &T) -> bool
        ensures { Decides result (Found T.before self.now.slots.now self.now.len x.now i) }
    {
        i < self.len && self.records()[i].compare_by(x).is_eq()
    }

    // Whether `x` comes after the record before an index and before the one behind it, where there are such.
    fn between(&self, i: usize, x: &T) -> bool
        requires { i < self.now.len }
        ensures { Ascending T.before self.now.slots.now self.now.len → Decides result (Between T.before self.now.slots.now self.now.len x.now i) }
    {
        self.follows(i, x) && self.precedes(x, i + 1)
    }

    // Takes out the record at an index, if there are so many.
    #[tactic(auto, using(crate::proofs::Slides::take_closed))]
    pub fn remove(&mut self, i: usize) -> Option<T>
        ensures ascends { Ascending T.before self.old.slots.now self.old.len → Ascending T.before self.new.slots.now self.new.len }
        ensures room { length self.new.slots.now ≡ length self.old.slots.now }
        ensures same { self.new.slots.ghost_name ≡ self.old.slots.ghost_name }
        ensures rows { MatchOption result
            ((self.old.len ≤ i) × (self.new.len ≡ self.old.len) × (self.new.slots.now ≡ self.old.slots.now))
            (λ x. (i < self.old.len)
            × ((d : T) → x ≡ slice_index_or self.old.slots.now i d)
            × (self.new.len + 1 ≡ self.old.len)
            × (take self.new.len self.new.slots.now ≡ remove (take self.old.len self.old.slots.now) i)) }
    {
        let x = *self.get(i)?;
        let len = self.len;
        close(self.slots, i, len);
        self.len = len - 1;
        Some(x)
    }
}

impl<T: Record> Table<'_, T, ByOrd> {
    // Gives the record at an index another rest, if there are so many; it stays where it stands.
    pub(crate) fn set_rest(&mut self, i: usize, rest: T::Rest) -> bool
        ensures ascends { Ascending (before T.cmp) self.old.slots.now self.old.len → Ascending (before T.cmp) self.new.slots.now self.new.len }
        ensures same { self.new.slots.ghost_name ≡ self.old.slots.ghost_name }
        ensures rows { (self.new.len ≡ self.old.len) × MatchBool result
            ((i < self.old.len) × ((d : T) → self.new.slots.now ≡ slice_set self.old.slots.now i (T.with_rest (slice_index_or self.old.slots.now i d) rest)))
            ((self.old.len ≤ i) × (self.new.slots.now ≡ self.old.slots.now)) }
    {
        if i >= self.len {
            return false;
        }
        let record = self.slots[i];
        self.slots[i] = record.with(rest);
        true
    }
}
