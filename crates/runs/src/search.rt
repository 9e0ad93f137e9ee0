// A place among pairs, by halving.
ghost use Rattle.std.specs.Prelude.{◌++◌};
ghost use Rattle.runs.specs.Search.{Parted};

use crate::order::comes_before;
use crate::run::PairRun;

// How many keys come before a text given in two parts.
pub fn seek<R: PairRun>(run: &R, front: &[u8], back: &[u8]) -> usize
    ensures { Parted (front.now ++ back.now) (R.PairRun.pairs run.now) result }
{
    // Kept: the library halves a slice only, and these keys lie behind a trait, each read by its place.
    let mut low = 0;
    let mut high = run.count();
    while low < high {
        let mid = low + (high - low) / 2;
        if comes_before(run.key_at(mid), front, back) {
            low = mid + 1;
        } else {
            high = mid;
        }
    }
    low
}
