// A walk as another crate may have its own. What it has to show is what `Walk` asks, and no more: it has no state to tell where the budget is spent.

ghost use Rattle.zykov.specs.Walk.{plain};

use steps::{Plain, State, Walk};
use wide::Set;

// The plain walk by another name.
pub struct Own;

impl Walk for Own {
    ghost rule = { plain };

    fn enter(
        words: usize,
        n: usize,
        live: Set,
        rows: &mut [u64],
        names: &mut [u8],
        best: &mut [u8],
        trail: &mut [u16],
        at: usize,
        s: State,
    ) -> Option<State> {
        Plain::enter(words, n, live, rows, names, best, trail, at, s)
    }
}
