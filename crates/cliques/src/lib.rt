// The clique of a node: document 01's, grown a clique at a time in sets of any width.
#![tactic(auto)]

ghost use Rattle.std.specs.Prelude.{◌≡◌, ℕ, ◌<◌, T, length};
ghost use Rattle.sets.specs.Set.{has};
ghost use Rattle.graphs.specs.Held.{view, Held, HoldsAt, EachAt};
ghost use Rattle.cliques.specs.Clique.{clique as clique_of};
ghost use Rattle.cliques.specs.Growth.{IsSetOf, opening, in_numbers, Grown, GrowsAt, Within, ReachesAt};

use graphs::Node;
use wide::Bits;

// A clique on the way: its members, and the live vertices that it admits.
#[derive(Clone, Copy)]
pub struct Growth<S> {
    pub set: S,
    pub near: S,
}

// c grown by the vertices of `left`, lowest first: each that is still adjacent to all of c.
pub fn grow<S: Bits>(rows: &[u64], c: Growth<S>, left: S) -> Growth<S>
    requires rows_len { length rows.now ≡ S.lent }
    requires by_index { (l : ℕ) × Within (S.as_num c.near) l × HoldsAt S.cap l (S.as_rows rows.now) }
    requires within { Within (S.as_num left) (S.as_num c.near) }
    ensures { (l : ℕ) → Within (S.as_num c.near) l → EachAt S.cap l (S.as_rows rows.now) (λ h. GrowsAt S.cap h.n (view h) (S.as_num left) (in_numbers S.as_num c) (in_numbers S.as_num result)) }
{
    let mut set = c.set;
    let mut near = c.near;
    let mut rest = left;
    while !rest.is_empty() {
        let v = rest.lowest();
        let row = S::row(rows, v);
        set = set.with(v);
        near = near.meet(row);
        rest = rest.meet(row);
    }
    Growth {
        set: set,
        near: near,
    }
}

// The clique that s opens: it grows along the live vertices after s.
pub fn opened<S: Bits>(live: S, rows: &[u64], s: usize) -> Growth<S>
    requires rows_len { length rows.now ≡ S.lent }
    requires holds { HoldsAt S.cap (S.as_num live) (S.as_rows rows.now) }
    requires s_bound { s < S.cap }
    requires t { T (has (S.as_num live) s) }
    ensures { EachAt S.cap (S.as_num live) (S.as_rows rows.now) (λ h. Grown h.n (view h) (opening h.n (view h) s) (in_numbers S.as_num result)) }
{
    let near = live.meet(S::row(rows, s));
    let c = Growth {
        set: S::none().with(s),
        near: near,
    };
    grow(rows, c, near.less(S::below(s)))
}

// The clique of lent rows, or a clique on the way to it that has as many members as are enough. The next opener is the lowest vertex in no clique
// yet; each clique grows along the vertices after its opener, and then along all; the first that is the largest stays. Where all that a clique
// admits would not make it the largest, it does not grow.
pub fn clique_among<S: Bits>(live: S, rows: &[u64], enough: usize) -> S
    requires rows_len { length rows.now ≡ S.lent }
    requires holds { HoldsAt S.cap (S.as_num live) (S.as_rows rows.now) }
    ensures { EachAt S.cap (S.as_num live) (S.as_rows rows.now) (λ h. ReachesAt S.cap h.n (view h) enough (S.as_num result)) }
{
    let mut free = live;
    let mut best = S::none();
    let mut most: usize = 0;
    while !free.is_empty() {
        let s = free.lowest();
        let c = opened(live, rows, s);
        free = free.less(c.set);
        if most < c.set.join(c.near).size() {
            let d = grow(rows, c, c.near);
            let members = d.set.size();
            if most < members {
                best = d.set;
                most = members;
                if enough <= most {
                    return best;
                }
            }
        }
    }
    best
}

// The members of the clique.
pub fn clique(h: Node) -> u64
    requires { Held h }
    ensures { IsSetOf (clique_of h.n (view h)) result }
{
    clique_among(h.live, &h.rows, 65)
}
