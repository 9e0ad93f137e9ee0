// Path order.
ghost use Rattle.std.specs.Prelude.{◌≡◌, Some, refl};
ghost use Rattle.paths.specs.Paths.{same_path, rank, path_order};
ghost use Rattle.paths.specs.Values.{names_of};
ghost use Rattle.paths.specs.TotalOrders.{path_order_total, same_path_equivalence, same_path_ties};
ghost use Rattle.std.specs.Cmp.{on_equiv, on_total, partial_equiv_from_equiv, partial_order_from_agreeing_total};

use super::NodePath;
use std::cmp::Ordering;
use text::{ByteRank, compare_by};

// Kept: paths compare name by name, which is no order of the fields; equality is told by names too, where a derived one would tell of bytes.
impl PartialEq for NodePath {
    ghost eq = { λ a b. same_path (names_of a) (names_of b) };

    ghost laws = { partial_equiv_from_equiv (on_equiv names_of same_path_equivalence) };

    fn eq(&self, other: &NodePath) -> bool {
        self.cmp(other).is_eq()
    }
}

impl Eq for NodePath {
    ghost laws = { on_equiv names_of same_path_equivalence };
}

impl PartialOrd for NodePath {
    ghost partial_cmp = { λ a b. Some (path_order (names_of a) (names_of b)) };

    ghost laws = { partial_order_from_agreeing_total (λ a b. path_order (names_of a) (names_of b)) (on_total names_of path_order_total) (λ _ _. refl) (λ a b. same_path_ties (names_of a) (names_of b)) };

    fn partial_cmp(&self, other: &NodePath) -> Option<Ordering> {
        Some(self.cmp(other))
    }
}

// Name by name, each by its bytes; a path that ends first is smaller.
impl Ord for NodePath {
    ghost cmp = { λ a b. path_order (names_of a) (names_of b) };

    ghost total = { on_total names_of path_order_total };

    ghost matches_partial_cmp = { λ _ _. refl };

    ghost matches_eq = { λ a b. same_path_ties (names_of a) (names_of b) };

    fn cmp(&self, other: &NodePath) -> Ordering {
        compare_by::<SlashFirst>(self.text.as_bytes(), other.text.as_bytes())
    }
}

// The ranks by which texts compare as paths: `/`, where a name ends, comes before every other byte.
pub struct SlashFirst;

impl ByteRank for SlashFirst {
    ghost ranks = { λ b. rank b };

    fn rank(b: u8) -> u16 {
        if b == b'/' { 0 } else { u16::from(b) + 1 }
    }
}
