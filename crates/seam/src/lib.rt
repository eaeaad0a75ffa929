// The seam between what is written once over `words`, 1 or 4, and the two questions that are answered at each width by itself: which pair to split at,
// and whether the bound reaches the best size. A node's rows of `words` words are lent one after the other.
#![tactic(auto)]

ghost use Rattle.std.specs.Prelude.{◌≡◌, ◌*◌, leb};
ghost use Rattle.wide.specs.Words.{num};
ghost use Rattle.wide.specs.Form.{Form, held};
ghost use Rattle.graphs.specs.Graph.{pair};
ghost use Rattle.graphs.specs.Held.{view, choice_of, HoldsAt, EachAt};
ghost use Rattle.bounds.specs.Names.{mycielskian};

use wide::Set;

// Is the Mycielskian bound of lent rows not below `best`?
pub fn reaches(words: usize, live: Set, rows: &[u64], best: usize) -> bool
    requires form { Form words rows.now }
    requires holds_at { HoldsAt (64 * words) (num live) (held words rows.now) }
    ensures { EachAt (64 * words) (num live) (held words rows.now) (λ h. result ≡ leb best (mycielskian h.n (view h))) }
{
    if words == 1 { // the live set is its lowest word
        return bounds::reaches(live.a, rows, best);
    }
    bounds::reaches_wide(live, rows, best)
}

// Of the non-adjacent live u < v the pair with most common neighbours, then smallest u, then smallest v.
pub fn choose_among(words: usize, live: Set, rows: &[u64]) -> Option<(usize, usize)>
    requires form { Form words rows.now }
    requires holds_at { HoldsAt (64 * words) (num live) (held words rows.now) }
    ensures { EachAt (64 * words) (num live) (held words rows.now) (λ h. choice_of result ≡ pair h.n (view h)) }
{
    if words == 1 { // and so it is here
        return graphs::choose_among(live.a, rows);
    }
    wide_pairs::choose_among(live, rows)
}
