// The steps of document 01's two walks over the Zykov tree, written once for rows of one word and of four. All is lent: the rows and names of a node, in
// which a merging is done in place and undone; the best division so far; and a trail, on which the pairs that a node has separated stand until its walk
// goes back.
#![tactic(auto)]

ghost use Rattle.std.specs.Prelude.{◌≡◌, ℕ, ◌++◌, ◌*◌, ◌≤◌, ◌<◌, length, drop};
ghost use Rattle.wide.specs.Words.{num, rows_of};
ghost use Rattle.wide.specs.Form.{Form, Fits};
ghost use Rattle.undo.specs.Forest.{Forest};
ghost use Rattle.clashes.specs.Divisions.{alone as alone_of};
ghost use Rattle.bounds.specs.Names.{mycielskian};
ghost use Rattle.zykov.specs.Walk.{Rule, become, compare, bounded, plain};
ghost use Rattle.steps.specs.Going.{lending, begun, counted as counted_of, Finds, Merging, Unmerging, Parting, Enters, Entered, EnteredTelling, Splits, Onward, Lends, Lays, Walked, WalkedTelling};

use seam::{choose_among, reaches};
use undo::{Undo, colours, merge, restore, separate, unmerge};
use wide::{Set, below, size, without};

// A walk on its way: the number of groups of the best division, the nodes entered, the complete graphs met, and the budget of nodes. A walk answers with
// the state in which it ended, or, as an error, with the one in which it would have had to enter more nodes than that. A `Walk` tells none there.
#[derive(Clone, Copy)]
pub struct State {
    pub k: usize,
    pub nodes: u64,
    pub leaves: u64,
    pub budget: u64,
}

// No node is entered yet.
fn start(n: usize, budget: u64) -> State
    ensures { result ≡ begun n budget }
{
    State {
        k: n,
        nodes: 0,
        leaves: 0,
        budget,
    }
}

// One node more, or the state as it is where the budget has no more.
fn counted(s: State) -> Result<State, State>
    ensures { result ≡ counted_of s }
{
    if s.nodes < s.budget {
        return Ok(State {
            nodes: s.nodes + 1,
            ..s
        });
    }
    Err(s)
}

// The groups of a complete graph become the best.
fn improved(n: usize, live: Set, names: &[u8], best: &mut [u8], s: State) -> State
    requires forest { Forest names.now }
    requires n_in_bounds { (n ≤ length names.now) × (n ≤ length best.old) × (n ≤ 256) }
    ensures { Finds become n (num live) names.now best.old s best.new result }
{
    colours(n, names, best);
    State { k: size(live), ..s }
}

// In rows and names v is merged into u; told is what undoes it.
fn merge_at(words: usize, live: Set, rows: &mut [u64], names: &mut [u8], u: usize, v: usize) -> Undo
    requires form { Form words rows.old }
    requires names_len { (length names.old ≡ 64 * words) × (u < 64 * words) × (v < 64 * words) }
    ensures { Merging words live rows.old names.old u v rows.new names.new result }
{
    names[v] = u as u8;
    merge(words, live, rows, u, v)
}

// Rows and names as they were before that.
fn unmerge_at(words: usize, rows: &mut [u64], names: &mut [u8], u: usize, v: usize, undo: Undo)
    requires form { Form words rows.old }
    requires names_len { (length names.old ≡ 64 * words) × (u < 64 * words) × (v < 64 * words) }
    requires fits { Fits (64 * words) (num undo.old) × Fits (64 * words) (num undo.near) }
    ensures { Unmerging words rows.old names.old u v undo rows.new names.new }
{
    names[v] = v as u8;
    unmerge(words, rows, u, undo);
}

// u and v become adjacent, and the pair stands on the trail. The casts of these functions are proved to lose nothing: `try_from` would answer an error
// that cannot come.
fn separate_at(words: usize, rows: &mut [u64], trail: &mut [u16], top: usize, u: usize, v: usize)
    requires form { Form words rows.old }
    requires u_bound { (u < 64 * words) × (v < 64 * words) × (top < length trail.old) }
    ensures { Parting words rows.old trail.old top u v rows.new trail.new }
{
    trail[top] = (u * 256 + v) as u16;
    separate(words, rows, u, v);
}

// The node of these parts is entered. Rows and names are as they were when it is done, and so is the trail below at.
#[cycle(enter_split)]
fn enter(
    words: usize,
    n: usize,
    live: Set,
    rows: &mut [u64],
    names: &mut [u8],
    best: &mut [u8],
    trail: &mut [u16],
    at: usize,
    s: State,
) -> Result<State, State>
    requires { Enters words n live (lending rows.old names.old best.old trail.old) at s }
    ensures { EnteredTelling words (bounded n mycielskian) n live (lending rows.old names.old best.old trail.old) at s (lending rows.new names.new best.new trail.new) result }
{
    let entered = counted(s)?;
    if reaches(words, live, rows, entered.k) {
        return Ok(entered); // a node that is cut off is counted
    }
    match choose_among(words, live, rows) {
        None => Ok(improved(n, live, names, best, entered)),
        Some((u, v)) => {
            let mut apart: usize = 0;
            let end = split(
                words, n, live, rows, names, best, trail, at, &mut apart, u, v, entered,
            );
            restore(words, rows, trail, at, apart);
            end
        }
    }
}

// The node of these parts, entered already, is split at u and v: the merged graph is entered, then the graph with u and v adjacent, which is split in
// its turn. Mergings are undone; the separated pairs are on the trail, as many as `more` says.
#[cycle(enter_split)]
fn split(
    words: usize,
    n: usize,
    live: Set,
    rows: &mut [u64],
    names: &mut [u8],
    best: &mut [u8],
    trail: &mut [u16],
    at: usize,
    more: &mut usize,
    u: usize,
    v: usize,
    s: State,
) -> Result<State, State>
    requires { Splits words n live (lending rows.old names.old best.old trail.old) at more.old u v s }
    ensures { Onward words (bounded n mycielskian) n live (lending rows.old names.old best.old trail.old) at u v s (lending rows.new names.new best.new trail.new) result more.new }
{
    let mut a = u;
    let mut b = v;
    let mut t = s;
    loop {
        let d = merge_at(words, live, rows, names, a, b);
        let below = enter(
            words,
            n,
            without(live, b),
            rows,
            names,
            best,
            trail,
            at + *more,
            t,
        );
        unmerge_at(words, rows, names, a, b, d);
        t = below?;
        separate_at(words, rows, trail, at + *more, a, b);
        *more += 1;
        t = counted(t)?;
        if reaches(words, live, rows, t.k) {
            return Ok(t);
        }
        match choose_among(words, live, rows) {
            None => return Ok(improved(n, live, names, best, t)),
            Some((x, y)) => {
                a = x;
                b = y;
            }
        }
    }
}

// A complete graph is met: it counts, and its groups are kept where they are fewer than the best.
fn compared(n: usize, live: Set, names: &[u8], best: &mut [u8], s: State) -> State
    requires forest { Forest names.now }
    requires n_in_bounds { (n ≤ length names.now) × (n ≤ length best.old) × (n ≤ 256) }
    requires leaves_lt_nodes { s.leaves < s.nodes }
    ensures { Finds compare n (num live) names.now best.old s best.new result }
{
    let t = State {
        leaves: s.leaves + 1,
        ..s
    };
    if size(live) < t.k {
        return improved(n, live, names, best, t);
    }
    t
}

// The plain walk below the node of these parts: it goes by itself to the merged graph, which has one vertex fewer, and loops on separations. Rows and
// names are as they were when it is done, and so is the trail below at. It is no instance of one walk with `enter` and `split`, since document 01 gives
// each a form (docs/ARCHITECTURE.md, "The named forms"): those two call on each other, this one on itself.
fn explore(
    words: usize,
    n: usize,
    live: Set,
    rows: &mut [u64],
    names: &mut [u8],
    best: &mut [u8],
    trail: &mut [u16],
    at: usize,
    s: State,
) -> Result<State, State>
    requires { Enters words n live (lending rows.old names.old best.old trail.old) at s }
    ensures { EnteredTelling words (plain n) n live (lending rows.old names.old best.old trail.old) at s (lending rows.new names.new best.new trail.new) result }
{
    let mut t = s;
    let mut more: usize = 0;
    loop {
        let next = counted(t);
        let Ok(entered) = next else {
            restore(words, rows, trail, at, more);
            return next;
        };
        match choose_among(words, live, rows) {
            None => {
                let met = compared(n, live, names, best, entered);
                restore(words, rows, trail, at, more);
                return Ok(met);
            }
            Some((u, v)) => {
                let d = merge_at(words, live, rows, names, u, v);
                let below = explore(
                    words,
                    n,
                    without(live, v),
                    rows,
                    names,
                    best,
                    trail,
                    at + more,
                    entered,
                );
                unmerge_at(words, rows, names, u, v, d);
                let Ok(back) = below else {
                    restore(words, rows, trail, at, more);
                    return below;
                };
                t = back;
                separate_at(words, rows, trail, at + more, u, v);
                more += 1;
            }
        }
    }
}

// Each of n entries has its own number.
fn alone(n: usize, out: &mut [u8])
    requires { (n ≤ length out.old) × (n ≤ 256) }
    ensures { out.new ≡ alone_of n ++ drop n out.old }
{
    for (i, entry) in out[..n].iter_mut().enumerate() {
        *entry = i as u8;
    }
}

// A list's rows are laid in the room that is lent, and every entry stands for itself and is alone.
fn lay(n: usize, rows: &[u64], held: &mut [u64], names: &mut [u8], best: &mut [u8])
    requires rows_in_bounds { length rows.now ≤ length held.old }
    requires n_in_bounds { (n ≤ length names.old) × (n ≤ length best.old) × (n ≤ 256) }
    ensures { Lays n rows.now held.old names.old best.old held.new names.new best.new }
{
    held[..rows.len()].copy_from_slice(rows);
    alone(n, names);
    alone(n, best);
}

// One of the two walks. Where the budget has no more it tells nothing.
pub trait Walk {
    ghost rule: { ℕ → Rule };

    // The node of these parts is entered, and walked by the rule.
    fn enter(
        words: usize,
        n: usize,
        live: Set,
        rows: &mut [u64],
        names: &mut [u8],
        best: &mut [u8],
        trail: &mut [u16],
        at: usize,
        s: State,
    ) -> Option<State>
        requires { Enters words n live (lending rows.old names.old best.old trail.old) at s }
        ensures { Entered words (rule n) n live (lending rows.old names.old best.old trail.old) at s (lending rows.new names.new best.new trail.new) result };
}

// One of the two walks. Where the budget has no more it tells the state that it stands at.
pub trait TellingWalk {
    ghost rule: { ℕ → Rule };

    // The node of these parts is entered, and walked by the rule.
    fn enter(
        words: usize,
        n: usize,
        live: Set,
        rows: &mut [u64],
        names: &mut [u8],
        best: &mut [u8],
        trail: &mut [u16],
        at: usize,
        s: State,
    ) -> Result<State, State>
        requires { Enters words n live (lending rows.old names.old best.old trail.old) at s }
        ensures { EnteredTelling words (rule n) n live (lending rows.old names.old best.old trail.old) at s (lending rows.new names.new best.new trail.new) result };
}

// The walk by the Mycielskian bound.
pub struct Bounded;

impl Walk for Bounded {
    ghost rule = { λ n. bounded n mycielskian };

    fn enter(
        words: usize,
        n: usize,
        live: Set,
        rows: &mut [u64],
        names: &mut [u8],
        best: &mut [u8],
        trail: &mut [u16],
        at: usize,
        s: State,
    ) -> Option<State> {
        enter(words, n, live, rows, names, best, trail, at, s).ok()
    }
}

impl TellingWalk for Bounded {
    ghost rule = { λ n. bounded n mycielskian };

    fn enter(
        words: usize,
        n: usize,
        live: Set,
        rows: &mut [u64],
        names: &mut [u8],
        best: &mut [u8],
        trail: &mut [u16],
        at: usize,
        s: State,
    ) -> Result<State, State> {
        enter(words, n, live, rows, names, best, trail, at, s)
    }
}

// The plain walk, which has no bounds.
pub struct Plain;

impl Walk for Plain {
    ghost rule = { plain };

    fn enter(
        words: usize,
        n: usize,
        live: Set,
        rows: &mut [u64],
        names: &mut [u8],
        best: &mut [u8],
        trail: &mut [u16],
        at: usize,
        s: State,
    ) -> Option<State> {
        explore(words, n, live, rows, names, best, trail, at, s).ok()
    }
}

impl TellingWalk for Plain {
    ghost rule = { plain };

    fn enter(
        words: usize,
        n: usize,
        live: Set,
        rows: &mut [u64],
        names: &mut [u8],
        best: &mut [u8],
        trail: &mut [u16],
        at: usize,
        s: State,
    ) -> Result<State, State> {
        explore(words, n, live, rows, names, best, trail, at, s)
    }
}

// The walk over a list of n entries, in the room that is lent.
pub fn walk_list<W: Walk>(
    words: usize,
    n: usize,
    rows: &[u64],
    held: &mut [u64],
    names: &mut [u8],
    best: &mut [u8],
    trail: &mut [u16],
    budget: u64,
) -> Option<State>
    requires { Lends words n rows.now (lending held.old names.old best.old trail.old) }
    ensures { Walked (W.rule n) n (rows_of words n rows.now) budget best.new result }
{
    lay(n, rows, held, names, best);
    let first = start(n, budget);
    W::enter(words, n, below(n), held, names, best, trail, 0, first)
}

// The same by a walk that tells the state it stands at where the budget has no more.
pub fn walk_list_telling<W: TellingWalk>(
    words: usize,
    n: usize,
    rows: &[u64],
    held: &mut [u64],
    names: &mut [u8],
    best: &mut [u8],
    trail: &mut [u16],
    budget: u64,
) -> Result<State, State>
    requires { Lends words n rows.now (lending held.old names.old best.old trail.old) }
    ensures { WalkedTelling (W.rule n) n (rows_of words n rows.now) budget best.new result }
{
    lay(n, rows, held, names, best);
    W::enter(
        words,
        n,
        below(n),
        held,
        names,
        best,
        trail,
        0,
        start(n, budget),
    )
}
