// A node of the walk, held in words: its root, and the pair at which it is split. Its rows are lent; each contract says, by the view, which graph is held.
#![tactic(auto)]

ghost use Rattle.std.specs.Prelude.{◌≡◌, length};
ghost use Rattle.sets.specs.Lists.{members, over};
ghost use Rattle.sets.specs.Set.{has as member};
ghost use Rattle.clashes.specs.Matrix.{Sound};
ghost use Rattle.graphs.specs.Graph.{pair};
ghost use Rattle.graphs.specs.Held.{view, choice_of, Holds, Each};
ghost use Rattle.graphs.specs.Acts.{IsRoot, lead, shared, Mutual, Hopeful};

use counts::{Counts, at_least, counted, greatest};
use sets::{below, less, lowest, meet, rest, size};

// How many entries there are, the live vertices, a row of neighbours for each, and which live vertex stands for each entry.
#[derive(Clone, Copy)]
pub struct Node {
    pub n: usize,
    pub live: u64,
    pub rows: [u64; 64],
    pub names: [u8; 64],
}

// The pair that leads so far, with one more than its common neighbours; 0 where there is none yet, since 0 is the least of these sizes: an Option
// of it would be unpacked at each comparison.
#[derive(Clone, Copy)]
pub struct Lead {
    pub size: usize,
    pub u: usize,
    pub v: usize,
}

// The node of a list: every entry stands for itself.
pub fn root(rows: &[u64]) -> Node
    requires { Sound rows.now }
    ensures { IsRoot rows.now result }
{
    let n = rows.len();
    let mut held: [u64; 64] = [0; 64];
    held[..n].copy_from_slice(rows);
    let mut names: [u8; 64] = [0; 64];
    for i in 0..n {
        names[i] = i as u8;
    }
    Node {
        n,
        live: below(n),
        rows: held,
        names,
    }
}

// The leading pair after u with each vertex of apart: near are u's neighbours. Pair by pair.
fn by_pairs(rows: &[u64], u: usize, near: u64, apart: u64, best: Lead) -> Lead
    requires { length rows.now ≡ 64 }
    ensures { result ≡ over (lead (shared rows.now near) u) best (members (member apart) 64) }
{
    let mut top = best.size;
    let mut at = best.v;
    let mut left = apart;
    while left != 0 {
        let v = lowest(left);
        left = rest(left);
        let common = size(meet(near, rows[v])) + 1;
        if top < common {
            top = common;
            at = v;
        }
    }
    if best.size < top {
        return Lead {
            size: top,
            u,
            v: at,
        };
    }
    best
}

// The same. A row with fewer neighbours than would lead is passed over. Where apart is small beside near, pairs cost less than counts; else the counts
// tell who shares most, and all others are passed over.
fn led(rows: &[u64], u: usize, near: u64, apart: u64, best: Lead) -> Lead
    requires rows_len { length rows.now ≡ 64 }
    requires fact { Mutual rows.now near apart }
    ensures { result ≡ over (lead (shared rows.now near) u) best (members (member apart) 64) }
{
    if apart == 0 {
        return best;
    }
    let degree = size(near);
    if degree < best.size {
        return best;
    }
    if 2 * size(apart) <= degree + 8 {
        return by_pairs(rows, u, near, apart, best);
    }
    let v = lowest(greatest(counted(rows, near), apart));
    let most = size(meet(near, rows[v])) + 1;
    if best.size < most {
        return Lead { size: most, u, v };
    }
    best
}

// Of left who has neighbours enough to lead, where more are needed than before.
fn hopeful(degrees: Counts, before: usize, need: usize, left: u64) -> u64
    ensures { Hopeful degrees need left result }
{
    if need <= before {
        return left;
    }
    at_least(degrees, need, left)
}

// Of the non-adjacent live u < v the pair with most common neighbours, then smallest u, then smallest v; none where the node is complete. Who has fewer neighbours than would lead is
// passed over, as u and as v.
pub fn choose_among(live: u64, rows: &[u64]) -> Option<(usize, usize)>
    requires { Holds live rows.now }
    ensures { Each live rows.now (λ h. choice_of result ≡ pair h.n (view h)) }
{
    let degrees = counted(rows, live);
    let mut best = Lead {
        size: 0,
        u: 0,
        v: 0,
    };
    let mut left = live;
    while left != 0 {
        let u = lowest(left);
        left = rest(left);
        let near = meet(rows[u], live);
        let apart = less(left, near);
        let before = best.size;
        best = led(rows, u, near, apart, best);
        left = hopeful(degrees, before, best.size, left);
    }
    if best.size == 0 {
        return None;
    }
    Some((best.u, best.v))
}
