// The two orders that a record's traits give it.
ghost use Rattle.table.specs.Order;
ghost use Rattle.table.specs.Total.{total_chain, total_alone};

use super::{Ordered, OrderedBy};
use std::cmp::Ordering;

// Names the order that a record has as its own.
#[derive(Drop)]
pub struct ByOwn;

impl<T: Ordered> OrderedBy<ByOwn> for T {
    ghost before = { T.before };

    ghost chain = { T.chain };

    ghost alone = { T.alone };

    fn compare_by(&self, other: &T) -> Ordering {
        self.compare(other)
    }
}

// Names the order of `Ord`.
#[derive(Drop)]
pub struct ByOrd;

impl<T: Ord> OrderedBy<ByOrd> for T {
    ghost before = { Order.before T.cmp };

    ghost chain = { total_chain T.total };

    ghost alone = { total_alone T.total };

    #[tactic(auto, using(crate::proofs::Totals::told))]
    fn compare_by(&self, other: &T) -> Ordering {
        self.cmp(other)
    }
}
