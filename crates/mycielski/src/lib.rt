// The Mycielskian bound of a node, in sets of any width. H is a set of vertices, and rows of its edges; S(v) and W are meets and joins of rows.
#![tactic(auto)]

ghost use Rattle.std.specs.Prelude.{◌≡◌, ◌&&◌, ℕ, zero, ◌<◌, T, length, replicate};
ghost use Rattle.sets.specs.Set.{has, size as size_of};
ghost use Rattle.graphs.specs.Held.{view, Held, HoldsAt, EachAt};
ghost use Rattle.cliques.specs.Clique.{clique};
ghost use Rattle.cliques.specs.Growth.{IsSetOf, Within};
ghost use Rattle.mycielski.specs.Rounds.{every_edge, near_all, of_w_lem, extend, mycielskian};
ghost use Rattle.mycielski.specs.Words.{sub, part_of, Among, reachable, Serves, ServesAll, Ties, LacksAt, Outside, Climbs};

use cliques::clique_among;
use graphs::Node;
use wide::Bits;

// H: its vertices, and for each the vertices that an edge of H joins it to, in rows of N numbers.
#[derive(Clone, Copy)]
pub struct Sub<S, const N: usize> {
    pub set: S,
    pub near: [u64; N],
}

// The live vertices that are not adjacent to some member of a set, and those that are not adjacent to two.
#[derive(Clone, Copy)]
pub struct Lack<S> {
    pub once: S,
    pub twice: S,
}

// Rows that have no edge get every edge between two members of the clique c. This, `servings`, `first_servings` and `extended` write into rows that a caller
// lends: those of four words take 8 KiB, and `climb` keeps each in one place. By each stands the same for one who has no rows to lend: its rows are new.
pub fn whole<S: Bits>(c: S, near: &mut [u64])
    requires { near.old ≡ replicate S.lent zero }
    ensures near_len { length near.new ≡ S.lent }
    ensures near_after { part_of (sub (S.as_num c) (S.as_rows near.new)) ≡ every_edge (has (S.as_num c)) }
{
    let mut left = c;
    while !left.is_empty() {
        let v = left.lowest();
        c.without(v).put(near, v);
        left = left.rest();
    }
}

// The clique c, with every edge between two of its members, in new rows.
pub fn whole_sub<S: Bits, const N: usize>(c: S) -> Sub<S, N>
    requires room { N ≡ S.lent }
    ensures vertices { result.set ≡ c }
    ensures near_len { length result.near ≡ S.lent }
    ensures edges { part_of (sub (S.as_num result.set) (S.as_rows result.near)) ≡ every_edge (has (S.as_num c)) }
{
    let mut near = [0u64; N];
    whole(c, &mut near);
    Sub { set: c, near: near }
}

// S(v), where `near` has the H-neighbours of v: the live vertices that are adjacent to all of them.
pub fn serving<S: Bits>(live: S, rows: &[u64], near: S) -> S
    requires rows_len { length rows.now ≡ S.lent }
    requires within { Within (S.as_num near) (S.as_num live) }
    ensures { EachAt S.cap (S.as_num live) (S.as_rows rows.now) (λ h. (x : ℕ) → has (S.as_num result) x ≡ near_all h.n (view h) (has (S.as_num near)) x) }
{
    let mut s = live;
    let mut left = near;
    while !left.is_empty() {
        let y = left.lowest();
        s = s.meet(S::row(rows, y));
        left = left.rest();
    }
    s
}

// The vertices that are adjacent to some member of s; bits of others mean nothing.
pub fn reached<S: Bits>(rows: &[u64], s: S) -> S
    requires { length rows.now ≡ S.lent }
    ensures { (l : ℕ) → Within (S.as_num s) l → EachAt S.cap l (S.as_rows rows.now) (λ h. (w : ℕ) → (has l w && has (S.as_num result) w) ≡ reachable h.n (view h) (S.as_num s) w) }
{
    let mut r = S::none();
    let mut left = s;
    while !left.is_empty() {
        let x = left.lowest();
        r = r.join(S::row(rows, x));
        left = left.rest();
    }
    r
}

// Edges between u and each of ys.
pub fn tie<S: Bits>(near: &mut [u64], u: usize, ys: S)
    requires near_len { length near.old ≡ S.lent }
    requires u_bound { u < S.cap }
    ensures near_len_2 { length near.new ≡ S.lent }
    ensures ties { Ties (S.as_rows near.old) u (S.as_num ys) (S.as_rows near.new) }
{
    S::row(near, u).join(ys).put(near, u);
    let mut left = ys;
    while !left.is_empty() {
        let y = left.lowest();
        S::row(near, y).with(u).put(near, y);
        left = left.rest();
    }
}

// Which live vertices lack one member of c, and which two.
pub fn lacking<S: Bits>(live: S, rows: &[u64], c: S) -> Lack<S>
    requires { length rows.now ≡ S.lent }
    ensures { LacksAt S.cap (S.as_num live) (S.as_rows rows.now) (S.as_num c) (record { once = S.as_num result.once; twice = S.as_num result.twice }) }
{
    let mut once = S::none();
    let mut twice = S::none();
    let mut left = c;
    while !left.is_empty() {
        let v = left.lowest();
        let away = live.less(S::row(rows, v));
        twice = twice.join(once.meet(away));
        once = once.join(away);
        left = left.rest();
    }
    Lack {
        once: once,
        twice: twice,
    }
}

// Where W of the first round is looked for: no member of c is in it, if every vertex lacks some member.
fn outside<S: Bits>(live: S, c: S, once: S) -> S
    requires { Within (S.as_num once) (S.as_num live) }
    ensures { Outside (S.as_num live) (S.as_num c) (S.as_num once) (S.as_num result) }
{
    if live.less(once).is_empty() {
        return live.less(c);
    }
    live
}

// W of the first round, where H is c: S(v) has the vertices that lack no member of c, or v alone.
pub fn first_witnesses<S: Bits>(live: S, rows: &[u64], c: S) -> S
    requires rows_len { length rows.now ≡ S.lent }
    requires within { Within (S.as_num c) (S.as_num live) }
    ensures { EachAt S.cap (S.as_num live) (S.as_rows rows.now) (λ h. (x : ℕ) → has (S.as_num result) x ≡ of_w_lem h.n (view h) (every_edge (has (S.as_num c))) x) }
{
    let lack = lacking(live, rows, c);
    let few = live.less(lack.twice);
    let mut ws = outside(live, c, lack.once);
    let mut left = c;
    while !left.is_empty() {
        let v = left.lowest();
        let s = few.less(lack.once.meet(S::row(rows, v)));
        ws = ws.meet(reached(rows, s));
        if ws.is_empty() {
            return ws;
        }
        left = left.rest();
    }
    ws
}

// W: the live vertices that are adjacent, for each v in H, to some member of S(v).
pub fn witnesses<S: Bits>(live: S, rows: &[u64], set: S, near: &[u64]) -> S
    requires rows_len { (length rows.now ≡ S.lent) × (length near.now ≡ S.lent) }
    requires among { Among (S.as_num live) (sub (S.as_num set) (S.as_rows near.now)) }
    ensures { EachAt S.cap (S.as_num live) (S.as_rows rows.now) (λ h. (x : ℕ) → has (S.as_num result) x ≡ of_w_lem h.n (view h) (part_of (sub (S.as_num set) (S.as_rows near.now))) x) }
{
    let mut ws = live;
    let mut left = set;
    while !left.is_empty() {
        let v = left.lowest();
        let s = serving(live, rows, S::row(near, v));
        ws = ws.meet(reached(rows, s));
        if ws.is_empty() {
            return ws;
        }
        left = left.rest();
    }
    ws
}

// `fit` gets S(v) of each v in H.
pub fn servings<S: Bits>(live: S, rows: &[u64], set: S, near: &[u64], fit: &mut [u64])
    requires rows_len { (length rows.now ≡ S.lent) × (length near.now ≡ S.lent) }
    requires fit_len { length fit.old ≡ S.lent }
    requires among { Among (S.as_num live) (sub (S.as_num set) (S.as_rows near.now)) }
    ensures fit_len_2 { length fit.new ≡ S.lent }
    ensures serves { EachAt S.cap (S.as_num live) (S.as_rows rows.now) (λ h. Serves h.n (view h) (sub (S.as_num set) (S.as_rows near.now)) (S.as_rows fit.new)) }
{
    let mut left = set;
    while !left.is_empty() {
        let v = left.lowest();
        serving(live, rows, S::row(near, v)).put(fit, v);
        left = left.rest();
    }
}

// S(v) of each v in H, in new rows.
pub fn servings_rows<S: Bits, const N: usize>(
    live: S,
    rows: &[u64],
    set: S,
    near: &[u64],
) -> [u64; N]
    requires room { N ≡ S.lent }
    requires rows_len { (length rows.now ≡ S.lent) × (length near.now ≡ S.lent) }
    requires among { Among (S.as_num live) (sub (S.as_num set) (S.as_rows near.now)) }
    ensures fit_len { length result ≡ S.lent }
    ensures serves { EachAt S.cap (S.as_num live) (S.as_rows rows.now) (λ h. Serves h.n (view h) (sub (S.as_num set) (S.as_rows near.now)) (S.as_rows result)) }
{
    let mut fit = [0u64; N];
    servings(live, rows, set, near, &mut fit);
    fit
}

// `fit` gets the same where H is the set c with every edge, by who lacks one member of c, and who two.
pub fn first_servings<S: Bits>(live: S, rows: &[u64], c: S, fit: &mut [u64])
    requires rows_len { length rows.now ≡ S.lent }
    requires fit_len { length fit.old ≡ S.lent }
    requires within { Within (S.as_num c) (S.as_num live) }
    ensures fit_len_2 { length fit.new ≡ S.lent }
    ensures serves { EachAt S.cap (S.as_num live) (S.as_rows rows.now) (λ h. ServesAll h.n (view h) (S.as_num c) (S.as_rows fit.new)) }
{
    let lack = lacking(live, rows, c);
    let single = live.less(lack.twice);
    let mut left = c;
    while !left.is_empty() {
        let v = left.lowest();
        single.less(lack.once.meet(S::row(rows, v))).put(fit, v);
        left = left.rest();
    }
}

// The same, in new rows.
pub fn first_servings_rows<S: Bits, const N: usize>(live: S, rows: &[u64], c: S) -> [u64; N]
    requires room { N ≡ S.lent }
    requires rows_len { length rows.now ≡ S.lent }
    requires within { Within (S.as_num c) (S.as_num live) }
    ensures fit_len { length result ≡ S.lent }
    ensures serves { EachAt S.cap (S.as_num live) (S.as_rows rows.now) (λ h. ServesAll h.n (view h) (S.as_num c) (S.as_rows result)) }
{
    let mut first = [0u64; N];
    first_servings(live, rows, c, &mut first);
    first
}

// The vertices of H after a round with w of W, where `fit` has S(v): for each v of the old H the lowest member of S(v) that is adjacent to w comes in,
// tied to w and to v's old H-neighbours. Rows that are those of the old H get the edges.
pub fn extended<S: Bits>(
    live: S,
    rows: &[u64],
    set: S,
    old: &[u64],
    near: &mut [u64],
    w: usize,
    fit: &[u64],
) -> S
    requires rows_len { length rows.now ≡ S.lent }
    requires old_len { (length old.now ≡ S.lent) × (length fit.now ≡ S.lent) }
    requires near_value { near.old ≡ old.now }
    requires holds { HoldsAt S.cap (S.as_num live) (S.as_rows rows.now) }
    requires among { Among (S.as_num live) (sub (S.as_num set) (S.as_rows old.now)) }
    requires w_bound { w < S.cap }
    requires each { EachAt S.cap (S.as_num live) (S.as_rows rows.now) (λ h. T (of_w_lem h.n (view h) (part_of (sub (S.as_num set) (S.as_rows old.now))) w)) }
    requires each_2 { EachAt S.cap (S.as_num live) (S.as_rows rows.now) (λ h. Serves h.n (view h) (sub (S.as_num set) (S.as_rows old.now)) (S.as_rows fit.now)) }
    ensures near_len { length near.new ≡ S.lent }
    ensures round { EachAt S.cap (S.as_num live) (S.as_rows rows.now) (λ h. part_of (sub (S.as_num result) (S.as_rows near.new)) ≡ extend h.n (view h) (part_of (sub (S.as_num set) (S.as_rows old.now))) w) }
{
    let row = S::row(rows, w);
    let mut next = set.with(w);
    let mut left = set;
    'members: while !left.is_empty() {
        let v = left.lowest();
        let s = S::row(fit, v);
        let u = s.meet(row).lowest();
        next = next.with(u);
        let ys = S::row(old, v).with(w);
        tie(near, u, ys);
        left = left.rest();
    }
    next
}

// H after a round with w of W, in new rows; S(v) is found on the way.
pub fn extended_sub<S: Bits, const N: usize>(
    live: S,
    rows: &[u64],
    set: S,
    old: &[u64],
    w: usize,
) -> Sub<S, N>
    requires room { N ≡ S.lent }
    requires rows_len { length rows.now ≡ S.lent }
    requires old_len { length old.now ≡ S.lent }
    requires holds { HoldsAt S.cap (S.as_num live) (S.as_rows rows.now) }
    requires among { Among (S.as_num live) (sub (S.as_num set) (S.as_rows old.now)) }
    requires w_bound { w < S.cap }
    requires each { EachAt S.cap (S.as_num live) (S.as_rows rows.now) (λ h. T (of_w_lem h.n (view h) (part_of (sub (S.as_num set) (S.as_rows old.now))) w)) }
    ensures near_len { length result.near ≡ S.lent }
    ensures round { EachAt S.cap (S.as_num live) (S.as_rows rows.now) (λ h. part_of (sub (S.as_num result.set) (S.as_rows result.near)) ≡ extend h.n (view h) (part_of (sub (S.as_num set) (S.as_rows old.now))) w) }
{
    let mut near = [0u64; N];
    near.copy_from_slice(old);
    let fit = servings_rows::<S, N>(live, rows, set, old);
    let next = extended(live, rows, set, old, &mut near, w, &fit);
    Sub {
        set: next,
        near: near,
    }
}

// The bound from the clique c and W of the first round, or a bound on the way to it that is as great as is enough, by rounds on H. Rows are N numbers.
pub fn climb<S: Bits, const N: usize>(live: S, rows: &[u64], c: S, ws: S, enough: usize) -> usize
    requires room { N ≡ S.lent }
    requires rows_len { length rows.now ≡ S.lent }
    requires holds { HoldsAt S.cap (S.as_num live) (S.as_rows rows.now) }
    requires each { EachAt S.cap (S.as_num live) (S.as_rows rows.now) (λ h. IsSetOf (clique h.n (view h)) (S.as_num c)) }
    requires each_2 { EachAt S.cap (S.as_num live) (S.as_rows rows.now) (λ h. (x : ℕ) → has (S.as_num ws) x ≡ of_w_lem h.n (view h) (every_edge (has (S.as_num c))) x) }
    requires fact { S.as_num ws ≡ 0 → ⊥ }
    requires c_bound { size_of S.cap (S.as_num c) < size_of S.cap (S.as_num live) }
    ensures { EachAt S.cap (S.as_num live) (S.as_rows rows.now) (λ h. Climbs (mycielskian h.n (view h)) enough result) }
{
    let all = live.size();
    let mut b = c.size() + 1;
    let mut near = [0u64; N];
    whole(c, &mut near);
    let mut fit = [0u64; N];
    first_servings(live, rows, c, &mut fit);
    let old = near;
    let mut set = extended(live, rows, c, &old, &mut near, ws.lowest(), &fit);
    while b < enough {
        if all <= set.size() {
            return b;
        }
        let ws = witnesses(live, rows, set, &near);
        if ws.is_empty() {
            return b;
        }
        if enough <= b + 1 {
            return b + 1;
        }
        servings(live, rows, set, &near, &mut fit);
        let old = near;
        set = extended(live, rows, set, &old, &mut near, ws.lowest(), &fit);
        b = b + 1;
    }
    b
}

// The bound, or a bound on the way to it that is as great as is enough. Where the clique and one round tell, H is not made.
pub fn bound_among<S: Bits, const N: usize>(live: S, rows: &[u64], enough: usize) -> usize
    requires room { N ≡ S.lent }
    requires rows_len { length rows.now ≡ S.lent }
    requires holds { HoldsAt S.cap (S.as_num live) (S.as_rows rows.now) }
    ensures { EachAt S.cap (S.as_num live) (S.as_rows rows.now) (λ h. Climbs (mycielskian h.n (view h)) enough result) }
{
    let c = clique_among(live, rows, enough);
    let b = c.size();
    if enough <= b {
        return b;
    }
    if live.size() <= b {
        return b;
    }
    let ws = first_witnesses(live, rows, c);
    if ws.is_empty() {
        return b;
    }
    if enough <= b + 1 {
        return b + 1;
    }
    climb::<S, N>(live, rows, c, ws, enough)
}

// The same of a node.
pub fn bound_up_to(h: Node, enough: usize) -> usize
    requires { Held h }
    ensures { Climbs (mycielskian h.n (view h)) enough result }
{
    bound_among::<u64, 64>(h.live, &h.rows, enough)
}
