// Tables of records with an order that is strict and no more, with one of their own, with the library's, and with none.
ghost use Rattle.std.specs.Prelude.{◌≡◌, nat_lt, nat_eq, ◌&&◌, Some, refl};
ghost use Rattle.std.specs.Cmp.{on_equiv, on_total, partial_equiv_from_equiv, partial_order_from_agreeing_total, nat_eq_equiv, nat_cmp_total, unsigned_ties};
ghost use Rattle.std.specs.Ordering.{nat_cmp};
ghost use Rattle.std.proofs.Common.{rules};
ghost use Rattle.table.specs.Order.{before, Ascending};
ghost use Rattle.table.specs.Total.{total_alone};

use crate::{Ordered, OrderedBy, Record, Refusal, Sorted, Table};
use std::cmp::Ordering;
use std::test::Fail;

// One comes before another if it is smaller in both numbers. There is no `Ord`.
#[derive(Clone, Copy, PartialEq, Debug)]
struct Pair(u8, u8);

// Names the order of pairs by both numbers.
struct ByBoth;

impl OrderedBy<ByBoth> for Pair {
    ghost before = { λ x y. nat_lt x.0 y.0 && nat_lt x.1 y.1 };

    ghost chain = { Prim.search rules };

    ghost alone = { Prim.search rules };

    fn compare_by(&self, other: &Pair) -> Ordering {
        if self.0 < other.0 && self.1 < other.1 {
            Ordering::Less
        } else if other.0 < self.0 && other.1 < self.1 {
            Ordering::Greater
        } else {
            Ordering::Equal
        }
    }
}

// A record that is the same as one and as the next, which are not the same, takes the place of neither.
#[test]
fn keeps_apart_what_one_is_the_same_as(rt: HostRuntime) -> Result<(), Fail> {
    let mut slots = [Pair(0, 0); 3];
    let mut table: Table<Pair, ByBoth> = Table::with_order(&mut slots);
    assert_eq!(rt; table.insert(Pair(2, 6)), Ok(0));
    assert_eq!(rt; table.insert(Pair(1, 5)), Ok(0));
    assert_eq!(rt; table.insert(Pair(3, 5)), Err(Refusal::Known(1)));
    assert!(rt; !table.replace(0, Pair(3, 3)));
    assert!(rt; table.replace(0, Pair(1, 4)));
    assert_eq!(rt; table.get(0), Some(&Pair(1, 4)));
    assert_eq!(rt; table.find(&Pair(3, 7)), Err(2));
    Ok(())
}

// What has no order is counted.
#[test]
fn counts_what_has_no_order(rt: HostRuntime) -> Result<(), Fail> {
    let mut lent = [[0u8; 2]; 3];
    let table = Table::new(&mut lent);
    assert_eq!(rt; table.len(), 0);
    assert_eq!(rt; table.room(), 3);
    assert!(rt; table.get(0).is_none());
    Ok(())
}

// A record with an order of its own, which has no name.
#[derive(Clone, Copy, PartialEq, Debug)]
struct Turned(u8);

impl Ordered for Turned {
    ghost before = { λ x y. nat_lt y.0 x.0 };

    ghost chain = { Prim.search rules };

    ghost alone = { Prim.search rules };

    fn compare(&self, other: &Turned) -> Ordering {
        other.0.cmp(&self.0)
    }
}

// A table goes by that order where its type names none.
#[test]
fn goes_by_the_own_order(rt: HostRuntime) -> Result<(), Fail> {
    let mut slots = [Turned(0); 2];
    let mut table = Table::new(&mut slots);
    assert_eq!(rt; table.insert(Turned(4)), Ok(0));
    assert_eq!(rt; table.insert(Turned(4)), Err(Refusal::Known(0)));
    assert_eq!(rt; table.insert(Turned(9)), Ok(0));
    assert_eq!(rt; table.insert(Turned(1)), Err(Refusal::Full));
    assert_eq!(rt; table.find(&Turned(5)), Err(1));
    assert_eq!(rt; table.remove(0), Some(Turned(9)));
    assert!(rt; table.insert_at(0, Turned(5)));
    assert!(rt; !table.replace(1, Turned(6)));
    assert_eq!(rt; table.get(0), Some(&Turned(5)));
    Ok(())
}

// A sorted table goes by the library's order.
#[test]
fn keeps_the_library_order(rt: HostRuntime) -> Result<(), Fail> {
    let mut slots = [0u8; 3];
    let mut table = Sorted::new(&mut slots);
    assert_eq!(rt; table.insert(7), Ok(0));
    assert_eq!(rt; table.insert(2), Ok(0));
    assert_eq!(rt; table.find(&5), Err(1));
    assert!(rt; !table.insert_at(0, 5));
    assert!(rt; table.insert_at(1, 5));
    assert!(rt; table.replace(1, 5));
    assert!(rt; !table.replace(1, 6));
    assert_eq!(rt; table.insert(9), Err(Refusal::Full));
    assert_eq!(rt; table.remove(0), Some(2));
    assert_eq!(rt; table.len(), 2);
    assert_eq!(rt; table.room(), 3);
    assert_eq!(rt; table.get(1), Some(&7));
    Ok(())
}

// Two records in lent slots: that they ascend there is known when the table is gone.
fn fill<T: Ord + Copy>(slots: &mut [T], x: T, y: T) -> usize
    ensures { Ascending (before T.cmp) slots.new result }
{
    let mut table = Sorted::new(slots);
    let _ = table.insert(x);
    let _ = table.insert(y);
    table.len()
}

// A sorted table gives its slots back with the records in them.
#[test]
fn gives_the_slots_back(rt: HostRuntime) -> Result<(), Fail> {
    let mut slots = [0u8; 3];
    assert_eq!(rt; fill(&mut slots, 7, 2), 2);
    assert_eq!(rt; slots, [2, 7, 0]);
    Ok(())
}

// A record that goes by its key, with a rest beside it.
// Kept: a derive would compare the rest too.
#[derive(Clone, Copy, Debug)]
struct Keyed {
    key: u8,
    rest: u8,
}

impl PartialEq for Keyed {
    ghost eq = { λ a b. nat_eq a.key b.key };

    ghost laws = { partial_equiv_from_equiv (on_equiv (λ k. k.key) nat_eq_equiv) };

    fn eq(&self, other: &Keyed) -> bool {
        self.key == other.key
    }
}

impl Eq for Keyed {
    ghost laws = { on_equiv (λ k. k.key) nat_eq_equiv };
}

impl PartialOrd for Keyed {
    ghost partial_cmp = { λ a b. Some (nat_cmp a.key b.key) };

    ghost laws = { partial_order_from_agreeing_total (λ a b. nat_cmp a.key b.key) (on_total (λ k. k.key) nat_cmp_total) (λ _ _. refl) (λ a b. unsigned_ties a.key b.key) };

    fn partial_cmp(&self, other: &Keyed) -> Option<Ordering> {
        Some(self.cmp(other))
    }
}

impl Ord for Keyed {
    ghost cmp = { λ a b. nat_cmp a.key b.key };

    ghost total = { on_total (λ k. k.key) nat_cmp_total };

    ghost matches_partial_cmp = { λ _ _. refl };

    ghost matches_eq = { λ a b. unsigned_ties a.key b.key };

    fn cmp(&self, other: &Keyed) -> Ordering {
        self.key.cmp(&other.key)
    }
}

impl Record for Keyed {
    type Rest = u8;

    ghost with_rest = { λ k rest. record k { rest = rest } };

    fn with(self, rest: u8) -> Keyed {
        Keyed { rest, ..self }
    }

    ghost alike = { λ k _. (total_alone (on_total (λ k. k.key) nat_cmp_total) k, total_alone (on_total (λ k. k.key) nat_cmp_total) k) };
}

// A record gets another rest where it stands.
#[test]
fn gives_another_rest(rt: HostRuntime) -> Result<(), Fail> {
    let mut slots = [Keyed { key: 0, rest: 0 }; 2];
    let mut table = Sorted::new(&mut slots);
    assert_eq!(rt; table.insert(Keyed { key: 5, rest: 1 }), Ok(0));
    assert_eq!(rt; table.insert(Keyed { key: 3, rest: 2 }), Ok(0));
    assert!(rt; table.set_rest(1, 9));
    assert!(rt; !table.set_rest(2, 9));
    let rests = [table.get(0).map(|k| k.rest), table.get(1).map(|k| k.rest)];
    assert_eq!(rt; rests, [Some(2), Some(9)]);
    Ok(())
}
