// Slots in the order of their keys.
ghost use Rattle.std.specs.Prelude.{Some, refl};
ghost use Rattle.std.specs.Cmp.{on_equiv, on_total, partial_equiv_from_equiv, partial_order_from_agreeing_total};
ghost use Rattle.text.specs.Bytes.{same};
ghost use Rattle.text.proofs.TotalOrders.{byte_order_total, same_equivalence, same_ties};
ghost use Rattle.shelves.specs.Slots.{slot, slot_text, slot_before, slot_order};
ghost use Rattle.shelves.specs.Ranks.{same_key};
ghost use Rattle.table.specs.Total.{total_chain, total_alone};

use super::{Slot, Span};
use std::cmp::Ordering;
use table::{Ordered, Record};
use text::compare;

// Kept: where the value lies is not compared, so none of these four is derived.
impl PartialEq for Slot {
    ghost eq = { λ a b. same (slot_text a) (slot_text b) };

    ghost laws = { partial_equiv_from_equiv (on_equiv slot_text same_equivalence) };

    fn eq(&self, other: &Slot) -> bool {
        self.cmp(other).is_eq()
    }
}

impl Eq for Slot {
    ghost laws = { on_equiv slot_text same_equivalence };
}

impl PartialOrd for Slot {
    ghost partial_cmp = { λ a b. Some (slot_order a b) };

    ghost laws = { partial_order_from_agreeing_total slot_order (on_total slot_text byte_order_total) (λ _ _. refl) (λ a b. same_ties (slot_text a) (slot_text b)) };

    fn partial_cmp(&self, other: &Slot) -> Option<Ordering> {
        Some(self.cmp(other))
    }
}

impl Ord for Slot {
    ghost cmp = { slot_order };

    ghost total = { on_total slot_text byte_order_total };

    ghost matches_partial_cmp = { λ _ _. refl };

    ghost matches_eq = { λ a b. same_ties (slot_text a) (slot_text b) };

    fn cmp(&self, other: &Slot) -> Ordering {
        compare(self.key.as_bytes(), other.key.as_bytes())
    }
}

// A table of slots whose type names no order goes by this one.
impl Ordered for Slot {
    ghost before = { slot_before };

    ghost chain = { total_chain (on_total slot_text byte_order_total) };

    ghost alone = { total_alone (on_total slot_text byte_order_total) };

    fn compare(&self, other: &Slot) -> Ordering {
        Ord::cmp(self, other)
    }
}

// Where the value of a slot lies does not change where the slot stands.
impl Record for Slot {
    type Rest = Span;

    ghost with_rest = { λ s span. slot s.key span.place span.size };

    fn with(self, span: Span) -> Slot {
        Slot { span, ..self }
    }

    ghost alike = { λ s span. same_key s span.place span.size };
}
