// The first round on the clique of a list, and what is told of the H that it makes: by the functions that fill lent rows and by those that return new ones.
// What S(v), W and H are is gone through entry by entry, as document 01 says it, for every list of six entries on which one can be made. At four words `climb` alone runs these
// bodies, in `trials_wide`.

ghost use Rattle.std.specs.Prelude.{◌≡◌, length};
ghost use Rattle.graphs.specs.Held.{HoldsAt};

use crate::lists::{OF_SIX, rows_of};
use clashes::validity;
use cliques::clique_among;
use graphs::root;
use mycielski::{
    Sub, extended, extended_sub, first_servings, first_servings_rows, first_witnesses, servings,
    servings_rows, whole, whole_sub,
};
use refusals::Invalid;
use std::process::Abort;

// H of six entries or fewer, entry by entry: whether x is in it is bit x of `set`, and whether x and y are joined is bit y of row x.
#[derive(Clone, Copy, PartialEq, Debug)]
struct H {
    set: u64,
    near: [u64; 6],
}

// Is x in s?
fn has(s: u64, x: usize) -> bool {
    s >> (x % 64) & 1 == 1
}

// The first six of lent rows.
fn six(rows: &[u64]) -> [u64; 6] {
    let mut front = [0u64; 6];
    for (row, &lent) in front.iter_mut().zip(rows) {
        *row = lent;
    }
    front
}

// Every two members of c are joined.
fn every_two(c: u64) -> H {
    let mut near = [0u64; 6];
    for x in 0..6usize {
        for y in 0..6usize {
            if has(c, x) && has(c, y) && x != y {
                near[x] |= 1 << y;
            }
        }
    }
    H { set: c, near }
}

// Is u adjacent to all of these?
fn serves(graph: &[u64; 6], near: u64, u: usize) -> bool {
    for y in 0..6usize {
        if has(near, y) && !has(graph[y], u) {
            return false;
        }
    }
    true
}

// S(v) of each v in H, and nothing of the others.
fn all_servings(graph: &[u64; 6], h: H) -> [u64; 6] {
    let mut fit = [0u64; 6];
    for v in 0..6usize {
        for u in 0..6usize {
            if has(h.set, v) && serves(graph, h.near[v], u) {
                fit[v] |= 1 << u;
            }
        }
    }
    fit
}

// W: the entries that are adjacent, for each v in H, to some member of S(v).
fn all_witnesses(graph: &[u64; 6], h: H) -> u64 {
    let fit = all_servings(graph, h);
    let mut ws: u64 = 0;
    for w in 0..6usize {
        let mut fine = true;
        for v in 0..6usize {
            if has(h.set, v) && fit[v] & graph[w] == 0 {
                fine = false;
            }
        }
        if fine {
            ws |= 1 << w;
        }
    }
    ws
}

// H after a round with w: for each v of the old H the lowest member of S(v) that is adjacent to w comes in, tied to w and to v's old H-neighbours.
fn next(graph: &[u64; 6], old: H, w: usize) -> H {
    let fit = all_servings(graph, old);
    let mut h = old;
    h.set |= 1 << (w % 6);
    for v in 0..6usize {
        let mut chosen = !has(old.set, v);
        for u in 0..6usize {
            if !chosen && has(fit[v], u) && has(graph[u], w) {
                chosen = true;
                h.set |= 1 << u;
                for y in 0..6usize {
                    if y == w || has(old.near[v], y) {
                        h.near[u] |= 1 << y;
                        h.near[y] |= 1 << u;
                    }
                }
            }
        }
    }
    h
}

// One list: is a round made?
fn round(rt: &impl Abort, list: usize, live: u64, rows: &[u64]) -> bool
    requires rows_len { length rows.now ≡ 64 }
    requires holds { HoldsAt 64 live rows.now }
{
    let graph = rows_of(list);
    let enough: usize = 65;
    let c = clique_among(live, rows, enough);
    let b = sets::size(c);
    if enough <= b {
        return false;
    }
    if sets::size(live) <= b {
        return false;
    }
    let first = every_two(c);
    let mut near = [0u64; 64];
    whole(c, &mut near);
    assert_eq!(rt; six(&near), first.near, "list {list}");
    let sub: Sub<u64, 64> = whole_sub(c);
    assert_eq!(rt;
        H {
            set: sub.set,
            near: six(&sub.near)
        },
        first,
        "list {list}"
    );

    let fit_wanted = all_servings(&graph, first);
    let mut fit = [0u64; 64];
    first_servings(live, rows, c, &mut fit);
    assert_eq!(rt; six(&fit), fit_wanted, "list {list}");
    let new_fit: [u64; 64] = first_servings_rows(live, rows, c);
    assert_eq!(rt; six(&new_fit), fit_wanted, "list {list}");

    let ws = first_witnesses(live, rows, c);
    assert_eq!(rt; ws, all_witnesses(&graph, first), "list {list}");
    if ws == 0 {
        return false;
    }
    let w = sets::lowest(ws);
    let second = next(&graph, first, w);
    let old = near;
    let set = extended(live, rows, c, &old, &mut near, w, &fit);
    assert_eq!(rt;
        H {
            set,
            near: six(&near)
        },
        second,
        "list {list}"
    );
    let sub: Sub<u64, 64> = extended_sub(live, rows, c, &old, w);
    assert_eq!(rt;
        H {
            set: sub.set,
            near: six(&sub.near)
        },
        second,
        "list {list}"
    );

    let fit_wanted = all_servings(&graph, second);
    let mut fit = [0u64; 64];
    servings(live, rows, set, &near, &mut fit);
    assert_eq!(rt; six(&fit), fit_wanted, "list {list}");
    let new_fit: [u64; 64] = servings_rows(live, rows, set, &near);
    assert_eq!(rt; six(&new_fit), fit_wanted, "list {list}");
    true
}

// A list by its number.
fn round_on(rt: &impl Abort, list: usize) -> Result<bool, Invalid> {
    let rows = rows_of(list);
    validity(&rows)?;
    let h = root(&rows);
    Ok(round(rt, list, h.live, &h.rows))
}

// A round is made on some list, so nothing above is passed over in all.
#[test]
fn first_rounds(rt: HostRuntime) {
    let mut made: usize = 0;
    for list in 0..OF_SIX {
        let end = round_on(&rt, list);
        assert!(rt; end.is_ok(), "list {list}");
        if let Ok(true) = end {
            made = made.wrapping_add(1);
        }
    }
    assert!(rt; made > 12, "{made} rounds");
}
