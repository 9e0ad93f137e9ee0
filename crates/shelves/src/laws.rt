// What the shelf takes. The function's contract is a theorem, and its proof is asked for by that.
ghost use Rattle.shelves.specs.Laws.{TakesExactly};

// A pair is taken exactly if afterwards the pairs fit the slots and all values fit the bytes.
#[tactic(auto, using(crate::proofs::Writing::takes_exactly))]
pub fn takes_what_fits()
    ensures { TakesExactly }
{}
