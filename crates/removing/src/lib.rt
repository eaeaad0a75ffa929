// Document 02's Ask 8, "Shrink first", the first half: who is removed before the walk. Sets are words; no two entries are looked at by themselves.
#![tactic(auto)]

ghost use Rattle.std.specs.Prelude.{◌≡◌, ◌||◌, ◌≤◌, eqb, length};
ghost use Rattle.std.proofs.Math.Option.{none};
ghost use Rattle.sets.specs.Lists.{lowest as lowest_of};
ghost use Rattle.sets.specs.Set.{has as member};
ghost use Rattle.clashes.specs.Matrix.{matrix, Sound};
ghost use Rattle.shrink.specs.Rules.{is_covered, has_few, choose, next as next_of};
ghost use Rattle.removing.specs.Words.{Entries, Listed, Sharing, goes_of, Shrank};

use sets::{below, less, lowest, meet, rest, size, without};

// Who goes, and the other entry that is noted: itself, where it goes by the second rule.
#[derive(Clone, Copy)]
pub struct Goes {
    pub who: usize,
    pub other: usize,
}

// A shrunk list: who is present; how many went, and who, in order; whether one went by the second rule. As there is no heap, those who went stand in an
// array that has room for all entries.
#[derive(Clone, Copy)]
pub struct Shrunk {
    pub present: u64,
    pub gone: usize,
    pub went: [Goes; 64],
    pub few: bool,
}

// Who of `among` clashes with each of near.
fn sharing(rows: &[u64], near: u64, among: u64) -> u64
    requires { Entries (length rows.now) near }
    ensures { Sharing rows.now near among result }
{
    let mut others = among;
    let mut left = near;
    while left != 0 {
        if others == 0 {
            return others;
        }
        let w = lowest(left);
        left = rest(left);
        others = meet(others, rows[w]);
    }
    others
}

// The lowest present entry whose clashes are all clashes of another, and the lowest such other.
fn first_covered(rows: &[u64], present: u64) -> Option<Goes>
    requires { Listed rows.now present }
    ensures { goes_of result ≡ choose (length rows.now) (matrix rows.now) (member present)
        (lowest_of (is_covered (length rows.now) (matrix rows.now) (member present)) (length rows.now)) none }
{
    let mut left = present;
    while left != 0 {
        let v = lowest(left);
        left = rest(left);
        let row = rows[v];
        let near = meet(present, row); // clashes with present ones
        let others = sharing(rows, near, less(without(present, v), near)); // who clashes with v does not clash with itself
        if others != 0 {
            // v is the lowest that is covered
            return Some(Goes {
                who: v,
                other: lowest(others),
            });
        }
    }
    None
}

// The lowest present entry with fewer clashes than `bound`.
fn first_few(rows: &[u64], present: u64, bound: usize) -> Option<Goes>
    requires rows_len_bound { length rows.now ≤ 64 }
    requires listed { Listed rows.now present }
    ensures { goes_of result ≡ choose (length rows.now) (matrix rows.now) (member present) none
        (lowest_of (has_few (length rows.now) (matrix rows.now) (member present) bound) (length rows.now)) }
{
    let mut left = present;
    while left != 0 {
        let v = lowest(left);
        left = rest(left);
        let row = rows[v];
        let clashes = size(meet(present, row));
        if clashes < bound {
            return Some(Goes { who: v, other: v }); // v is the lowest that has few
        }
    }
    None
}

// Who goes next: by the first rule, or, where nobody meets it, by the second.
fn next(rows: &[u64], present: u64, bound: usize) -> Option<Goes>
    requires rows_len_bound { length rows.now ≤ 64 }
    requires listed { Listed rows.now present }
    ensures { goes_of result ≡ next_of (length rows.now) (matrix rows.now) (member present) bound }
{
    first_covered(rows, present).or_else(|| first_few(rows, present, bound))
}

// Entries go until neither rule applies.
pub fn shrink(rows: &[u64], bound: usize) -> Shrunk
    requires { Sound rows.now }
    ensures { Shrank bound rows.now result }
{
    let mut present = below(rows.len());
    let mut went = [Goes { who: 0, other: 0 }; 64];
    let mut gone = 0;
    let mut few = false;
    // L is kept
    while let Some(goes) = next(rows, present, bound) {
        went[gone] = goes;
        gone += 1;
        few |= goes.who == goes.other;
        present = without(present, goes.who);
    }
    Shrunk {
        present,
        gone,
        went,
        few,
    }
}
