// The walk that tells nothing where the budget has no more, by each rule and by a walk of this crate's own.

use crate::lists::{OF_FIVE, clash, rows_of};
use crate::own::Own;
use clashes::validity;
use refusals::Invalid;
use steps::{Bounded, Plain, State, Walk, walk_list};

// What the walk by W over these rows comes to.
fn walked<W: Walk>(rows: &[u64], budget: u64) -> Result<Option<State>, Invalid> {
    validity(rows)?;
    let mut held: [u64; 64] = [0; 64];
    let mut names: [u8; 64] = [0; 64];
    let mut best: [u8; 64] = [0; 64];
    let mut trail: [u16; 2016] = [0; 2016];
    let n = rows.len();
    Ok(walk_list::<W>(
        1, n, rows, &mut held, &mut names, &mut best, &mut trail, budget,
    ))
}

// Its groups, nodes and complete graphs, where it came to its end.
fn ended<W: Walk>(rows: &[u64], budget: u64) -> Option<(usize, u64, u64)> {
    match walked::<W>(rows, budget) {
        Ok(Some(s)) => Some((s.k, s.nodes, s.leaves)),
        _ => None,
    }
}

// Is it out of budget?
fn spent<W: Walk>(rows: &[u64], budget: u64) -> bool {
    match walked::<W>(rows, budget) {
        Ok(None) => true,
        _ => false,
    }
}

// The clash-free divisions of a list: how many there are, and the groups of the smallest.
fn divisions(list: usize) -> (u64, usize) {
    let mut many: u64 = 0;
    let mut fewest: usize = 5;
    for b in 0..2usize {
        for c in 0..3usize {
            for d in 0..4usize {
                for e in 0..5usize {
                    let of = [0, b, c, d, e];
                    let mut groups: usize = 0;
                    let mut fine = true;
                    for v in 0..5usize {
                        if groups < of[v] {
                            fine = false; // no number is passed over
                        }
                        if groups == of[v] {
                            groups = groups.wrapping_add(1);
                        }
                        for u in 0..v {
                            if of[u] == of[v] && clash(list, u, v) {
                                fine = false;
                            }
                        }
                    }
                    if fine {
                        many = many.wrapping_add(1);
                        fewest = fewest.min(groups);
                    }
                }
            }
        }
    }
    (many, fewest)
}

// Demand 3: with both bounds off the walk enters 2P - 1 nodes, P of them complete, and is out of budget with one node less.
#[test]
fn plain_walks(rt: HostRuntime) {
    for list in 0..OF_FIVE {
        let rows = rows_of(list);
        let (many, fewest) = divisions(list);
        let nodes = many.wrapping_mul(2).wrapping_sub(1);
        let want = Some((fewest, nodes, many));
        assert_eq!(rt; ended::<Plain>(&rows[..5], nodes), want, "list {list}");
        assert_eq!(rt; ended::<Own>(&rows[..5], nodes), want, "list {list}");
        assert!(rt;
            spent::<Plain>(&rows[..5], nodes.wrapping_sub(1)),
            "list {list}"
        );
        assert!(rt;
            spent::<Own>(&rows[..5], nodes.wrapping_sub(1)),
            "list {list}"
        );
    }
}

// By the bound it comes to the same number of groups with no more nodes, on some list with fewer, and is out of budget with one node less than it enters.
#[test]
fn bounded_walks(rt: HostRuntime) {
    let mut shorter: usize = 0;
    for list in 0..OF_FIVE {
        let rows = rows_of(list);
        let (many, fewest) = divisions(list);
        let most = many.wrapping_mul(2).wrapping_sub(1);
        let (k, nodes, _) = ended::<Bounded>(&rows[..5], most).expect(
            &rt,
            "a walk with budget enough",
        );
        assert_eq!(rt; k, fewest, "list {list}");
        if nodes < most {
            shorter = shorter.wrapping_add(1);
        }
        assert_eq!(rt;
            ended::<Bounded>(&rows[..5], nodes).map(|end| end.1),
            Some(nodes),
            "list {list}"
        );
        assert!(rt;
            spent::<Bounded>(&rows[..5], nodes.wrapping_sub(1)),
            "list {list}"
        );
    }
    assert!(rt; 0 < shorter, "no walk is cut off");
}
