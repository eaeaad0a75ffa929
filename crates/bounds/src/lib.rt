// The two bounds of document 01, at a node and on a lent matrix. The crates above see their names and laws, not their definitions.
#![tactic(auto)]

ghost use Rattle.std.specs.Prelude.{◌≡◌, leb, length};
ghost use Rattle.wide.specs.Words.{num, rows_of};
ghost use Rattle.clashes.specs.Matrix.{Sound};
ghost use Rattle.graphs.specs.Held.{view, Held, Holds, Each, HoldsAt, EachAt};
ghost use Rattle.bounds.specs.Names.{clique_set, clique_bound_lem, mycielskian};
ghost use Rattle.bounds.specs.Lent.{of_list, no_members, Answers};

use clashes::validity;
use cliques::clique;
use graphs::{Node, root};
use mycielski::{bound_among, bound_up_to};
use refusals::Invalid;
use sets::size;
use wide::Set;

// A bound of a lent matrix, with the members of the clique where it is that one's size.
#[derive(Clone, Copy)]
pub struct Bound {
    pub size: usize,
    pub members: u64,
}

// The clique of a list's graph, as the set of its members.
pub fn clique_of(rows: &[u64]) -> u64
    requires { Sound rows.now }
    ensures { result ≡ of_list clique_set rows.now }
{
    let h = root(rows);
    clique(h)
}

// The Mycielskian bound of a node: none is above 64.
pub fn mycielskian_at(h: Node) -> usize
    requires { Held h }
    ensures { result ≡ mycielskian h.n (view h) }
{
    bound_up_to(h, 65)
}

// Is the Mycielskian bound of lent rows not below `best`? It ends as soon as that is known: fewer live vertices than `best` need no clique.
pub fn reaches(live: u64, rows: &[u64], best: usize) -> bool
    requires { Holds live rows.now }
    ensures { Each live rows.now (λ h. result ≡ leb best (mycielskian h.n (view h))) }
{
    if size(live) < best {
        return false;
    }
    best <= bound_among::<u64, 64>(live, rows, best)
}

// The same of lent rows of four words.
pub fn reaches_wide(live: Set, rows: &[u64], best: usize) -> bool
    requires rows_len { length rows.now ≡ 1024 }
    requires holds_at { HoldsAt 256 (num live) (rows_of 4 256 rows.now) }
    ensures { EachAt 256 (num live) (rows_of 4 256 rows.now) (λ h. result ≡ leb best (mycielskian h.n (view h))) }
{
    if wide::size(live) < best {
        return false;
    }
    best <= bound_among::<Set, 1024>(live, rows, best)
}

// The clique bound of a lent matrix, and the clique's members; or document 01's refusals 1 to 4, with the lowest row at fault.
pub fn clique_bound(rows: &[u64]) -> Result<Bound, Invalid>
    ensures { Answers clique_bound_lem clique_set rows.now result }
{
    validity(rows)?;
    let members = clique_of(rows);
    Ok(Bound {
        size: size(members),
        members,
    })
}

// The Mycielskian bound of a lent matrix, which has no members; or the same refusals.
pub fn mycielskian_bound(rows: &[u64]) -> Result<Bound, Invalid>
    ensures { Answers mycielskian no_members rows.now result }
{
    validity(rows)?;
    let size = mycielskian_at(root(rows));
    Ok(Bound { size, members: 0 })
}
