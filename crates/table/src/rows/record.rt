// Records with a part that their order does not read.
ghost use Rattle.std.specs.Prelude.{◌≡◌};
ghost use Rattle.table.specs.Order.{before, Same};

// A record whose order is that of a key, beside which it holds a rest.
pub trait Record: Ord + Copy {
    type Rest: Copy;

    ghost with_rest: { Self → Self.Rest → Self };

    // The record with the same key and another rest.
    fn with(self, rest: Self::Rest) -> Self
        ensures { result ≡ with_rest self rest };

    ghost alike: { (x : Self) (rest : Self.Rest) → Same (before Self.cmp) (with_rest x rest) x };
}
