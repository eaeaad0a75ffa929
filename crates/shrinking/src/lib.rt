// Document 02's Ask 8, "Shrink first": before the walk entries are removed that need no group of their own, and after it they are put back.
#![tactic(auto)]

ghost use Rattle.std.specs.Prelude.{◌≡◌, cond, max, length};
ghost use Rattle.bounds.specs.Names.{mycielskian};
ghost use Rattle.bounds.specs.Lent.{of_list};
ghost use Rattle.walk.specs.Promise.{Open, Promised};
ghost use Rattle.shrink.specs.Shrunk.{shrunk_walk};

use bounds::{clique_of, mycielskian_bound};
use refusals::Unsolved;
use removing::shrink;
use restoring::{number, put_back, seated, small_rows};
use sets::size;
use walk::{Fewest, fewest};

// The larger of the bound and k where somebody had few clashes, else k.
fn larger(few: bool, bound: usize, k: usize) -> usize
    ensures { result ≡ cond few (max bound k) k }
{
    if few {
        return bound.max(k);
    }
    k
}

// A list that is valid, with room for its colours, is shrunk by its bound, walked over and put back.
fn walk_shrunk(
    rows: &[u64],
    bound: usize,
    colours: &mut [u8],
    budget: u64,
) -> Result<Fewest, Unsolved>
    requires fact { Open rows.now (length colours.old) }
    requires bound_value { bound ≡ of_list mycielskian rows.now }
    ensures { Promised (shrunk_walk mycielskian) rows.now colours.old budget result colours.new }
{
    let s = shrink(rows, bound);
    let m = size(s.present);
    let small = small_rows(rows, s.present);
    let mut inner = [0; 64];
    let found = fewest(&small[..m], &mut inner, budget)?;
    let seats = put_back(rows, s, seated(s.present, inner, found.k));
    number(rows.len(), seats, colours);
    Ok(Fewest {
        k: larger(s.few, bound, found.k),
        clique: clique_of(rows),
        ..found
    })
}

// The fewest sittings of a lent clash list that is shrunk first: k, the nodes of the walk over the shrunk list and the full list's clique, and each
// entry's sitting in the lent bytes.
pub fn fewest_shrunk(rows: &[u64], colours: &mut [u8], budget: u64) -> Result<Fewest, Unsolved>
    ensures { Promised (shrunk_walk mycielskian) rows.now colours.old budget result colours.new }
{
    let bound = mycielskian_bound(rows)?;
    if colours.len() < rows.len() {
        return Err(Unsolved::Short);
    }
    walk_shrunk(rows, bound.size, colours, budget)
}
