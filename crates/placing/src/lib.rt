// Document 02's second engine: a search that never merges. It puts the entries into groups in number order, with a budget of nodes, all on the stack. The
// groups are one array of sets, which each placing changes and restores.
#![tactic(auto)]

ghost use Rattle.std.specs.Prelude.{◌≤◌, length};
ghost use Rattle.placing.specs.Going.{Starts, Counted, Ready, Entered};
ghost use Rattle.placing.specs.Promise.{Promised};

use clashes::validity;
use refusals::Unsolved;
use sets::{meet, with};

// What a search that came to its end found: the fewest groups, and the nodes entered.
#[derive(Clone, Copy)]
pub struct Placing {
    pub k: usize,
    pub nodes: u64,
}

// A search on its way: the colours of the best division, its number of groups, the nodes entered and the budget of nodes.
#[derive(Clone, Copy)]
struct State {
    pub best: [u8; 64],
    pub k: usize,
    pub nodes: u64,
    pub budget: u64,
}

impl State {
    // Every entry alone: no node is entered yet.
    fn start(n: usize, budget: u64) -> State
        requires { n ≤ 64 }
        ensures { Starts n budget result }
    {
        let mut best = [0; 64];
        for (i, group) in best.iter_mut().enumerate() {
            *group = i as u8;
        }
        State {
            best,
            k: n,
            nodes: 0,
            budget,
        }
    }

    // One node more, or out of budget.
    fn count(&mut self) -> Result<(), Unsolved>
        ensures { Counted self.old result self.new }
    {
        if self.budget <= self.nodes {
            return Err(Unsolved::Budget(self.budget));
        }
        self.nodes += 1;
        Ok(())
    }
}

// The node is entered at which the entries below `at` are placed, into m groups. Group m, which is empty, is the new one: it admits every entry.
// Afterwards the groups, and the places of the entries below `at`, are as before, but where the budget ends the search.
fn enter(
    at: usize,
    m: usize,
    rows: &[u64],
    groups: &mut [u64; 64],
    placed: &mut [u8; 64],
    s: &mut State,
) -> Result<(), Unsolved>
    requires { Ready rows.now at m groups.old placed.old s.old }
    ensures { Entered rows.now at groups.old placed.old s.old result groups.new placed.new s.new }
{
    s.count()?;
    if s.k <= m {
        return Ok(()); // a placing that goes back at once is counted
    }
    if at == rows.len() {
        let full = *placed;
        s.best = full;
        s.k = m;
        return Ok(());
    }
    let row = rows[at];
    for j in 0..=m {
        let g = groups[j];
        if meet(row, g) == 0 {
            placed[at] = j as u8;
            groups[j] = with(g, at);
            enter(at + 1, m.max(j + 1), rows, groups, placed, s)?;
            groups[j] = g;
        }
    }
    Ok(())
}

// The fewest sittings of a lent clash list, by placing: k and nodes, and each entry's sitting in the lent bytes; or document 01's refusals 1 to 6.
pub fn fewest_by_placing(rows: &[u64], colours: &mut [u8], budget: u64) -> Result<Placing, Unsolved>
    ensures { Promised rows.now colours.old budget result colours.new }
{
    validity(rows)?;
    let n = rows.len();
    if colours.len() < n {
        return Err(Unsolved::Short);
    }
    let mut groups = [0; 64];
    let mut placed = [0; 64];
    let mut s = State::start(n, budget);
    enter(0, 0, rows, &mut groups, &mut placed, &mut s)?;
    colours[..n].copy_from_slice(&s.best[..n]);
    Ok(Placing {
        k: s.k,
        nodes: s.nodes,
    })
}
