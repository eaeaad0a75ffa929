// Document 01's two walks over the Zykov tree of a lent clash list, each with a budget of nodes: who is admitted, and what is told.
#![tactic(auto)]

ghost use Rattle.std.specs.Prelude.{◌≡◌, ◌≤◌, length};
ghost use Rattle.bounds.specs.Names.{mycielskian};
ghost use Rattle.zykov.specs.Walk.{bounded_walk_lem, plain_walk_lem};
ghost use Rattle.walk.specs.Promise.{Open, Promised, Gated, Told, SolvedBy};

mod found;

use bounds::clique_of;
use clashes::validity;
pub use found::Fewest;
use refusals::Unsolved;
use steps::{Bounded, Plain, State, TellingWalk, walk_list_telling};

// May the walk start? Refusals 1 to 5.
fn admitted(rows: &[u64], room: usize) -> Result<(), Unsolved>
    ensures { Gated rows.now room result }
{
    validity(rows)?;
    if rows.len() <= room {
        return Ok(());
    }
    Err(Unsolved::Short)
}

// What a walk over these rows found that came to s and to this best: the colours are written, and the clique is found.
fn told(rows: &[u64], s: State, best: &[u8], colours: &mut [u8]) -> Fewest
    requires fact { Open rows.now (length colours.old) }
    requires rows_in_bounds { length rows.now ≤ length best.now }
    ensures { Told rows.now s best.now colours.old result colours.new }
{
    let n = rows.len();
    colours[..n].copy_from_slice(&best[..n]);
    Fewest {
        k: s.k,
        nodes: s.nodes,
        leaves: s.leaves,
        clique: clique_of(rows),
    }
}

// The answer of a walk over a lent clash list, and each entry's sitting in the lent bytes.
fn solved<W: TellingWalk>(rows: &[u64], colours: &mut [u8], budget: u64) -> Result<Fewest, Unsolved>
    ensures { SolvedBy W.rule rows.now colours.old budget result colours.new }
{
    admitted(rows, colours.len())?;
    let n = rows.len();
    let mut held: [u64; 64] = [0; 64];
    let mut names: [u8; 64] = [0; 64];
    let mut best: [u8; 64] = [0; 64];
    let mut trail: [u16; 2016] = [0; 2016]; // as many pairs as 64 entries have
    let end = walk_list_telling::<W>(
        1, n, rows, &mut held, &mut names, &mut best, &mut trail, budget,
    );
    match end {
        Ok(s) => Ok(told(rows, s, &best, colours)),
        Err(_) => Err(Unsolved::Budget(budget)),
    }
}

// The fewest sittings of a lent clash list, by the bounded walk: k, nodes and the clique, and each entry's sitting in the lent bytes.
pub fn fewest(rows: &[u64], colours: &mut [u8], budget: u64) -> Result<Fewest, Unsolved>
    ensures { Promised (bounded_walk_lem mycielskian) rows.now colours.old budget result colours.new }
{
    solved::<Bounded>(rows, colours, budget)
}

// The same by the plain walk, which has no bounds: k, nodes, complete graphs and the clique.
pub fn plain(rows: &[u64], colours: &mut [u8], budget: u64) -> Result<Fewest, Unsolved>
    ensures { Promised plain_walk_lem rows.now colours.old budget result colours.new }
{
    solved::<Plain>(rows, colours, budget)
}
