// Records that have an order.
ghost use Rattle.std.specs.Prelude.{◌≡◌, Bool, true, false};
ghost use Rattle.std.specs.Ordering.{MatchOrdering};
ghost use Rattle.table.specs.Order.{Same, ranked};

mod named;

pub use named::{ByOrd, ByOwn};
use std::cmp::Ordering;

// A record with a strict order: what comes before what comes before a third comes before that, and nothing before itself.
// Kept: the library's `Ord` is a total order, and a table's need only be strict.
pub trait Ordered: Sized {
    ghost before: { Self → Self → Bool };

    fn compare(&self, other: &Self) -> Ordering
        ensures { MatchOrdering result (before self.now other.now ≡ true) (Same before self.now other.now) (before other.now self.now ≡ true) };

    ghost chain: { (x y z : Self) → before x y ≡ true → before y z ≡ true → before x z ≡ true };

    ghost alone: { (x : Self) → before x x ≡ false };
}

// A record with a strict order that a type names, since it may have several: `ByOwn` names that of `Ordered`, `ByOrd` that of `Ord`.
pub trait OrderedBy<By>: Sized {
    ghost before: { Self → Self → Bool };

    fn compare_by(&self, other: &Self) -> Ordering
        ensures { MatchOrdering result (before self.now other.now ≡ true) (Same before self.now other.now) (before other.now self.now ≡ true) };

    ghost chain: { (x y z : Self) → before x y ≡ true → before y z ≡ true → before x z ≡ true };

    ghost alone: { (x : Self) → before x x ≡ false };
}

// Where one record stands to another.
pub(crate) fn rank<T: OrderedBy<By>, By>(x: &T, y: &T) -> Ordering
    ensures { result ≡ ranked T.before x.now y.now }
{
    x.compare_by(y)
}

// Whether one record comes before another.
pub(crate) fn is_before<T: OrderedBy<By>, By>(x: &T, y: &T) -> bool
    ensures { result ≡ T.before x.now y.now }
{
    x.compare_by(y).is_lt()
}
