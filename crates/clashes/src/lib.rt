// The lent matrix of a clash list, and whether it is one.
#![tactic(auto)]

ghost use Rattle.std.specs.Prelude.{◌≡◌, true, false, ◌<◌, ◌≤◌, length};
ghost use Rattle.clashes.specs.Matrix.{HasStray, HasItself, HasOneSided, Lowest, Judged};

use refusals::Invalid;
use sets::{below, has, less, lowest, meet, rest};

// Rows that are not too many.
#[derive(Clone, Copy)]
struct Few<'a> {
    rows: &'a [u64],
    ghost few: { length rows.now ≤ 64 },
}

impl Few<'_> {
    // The lowest row with a bit at n or above.
    fn first_stray(self) -> Option<usize>
        ensures { Lowest (HasStray self.entry.rows.now) (length self.entry.rows.now) result }
    {
        let all = below(self.rows.len());
        self.rows.iter().position(|&row| less(row, all) != 0)
    }

    // The lowest row with its own bit.
    fn first_itself(self) -> Option<usize>
        ensures { Lowest (HasItself self.entry.rows.now) (length self.entry.rows.now) result }
    {
        for (i, &row) in self.rows.iter().enumerate() {
            if has(row, i) {
                return Some(i);
            }
        }
        None
    }

    // Has row i a bit whose row lacks bit i? Then not all the rows of its bits have bit i.
    fn is_one_sided(self, i: usize) -> bool
        requires { i < length self.rows.now }
        ensures { (result ≡ true → HasOneSided self.entry.rows.now i) × (result ≡ false → HasOneSided self.entry.rows.now i → ⊥) }
    {
        let mut all = below(64);
        let mut left = meet(self.rows[i], below(self.rows.len()));
        while left != 0 {
            let j = lowest(left);
            all = meet(all, self.rows[j]);
            left = rest(left);
        }
        !has(all, i)
    }

    // The lowest row with a bit that is not returned.
    fn first_one_sided(self) -> Option<usize>
        ensures { Lowest (HasOneSided self.entry.rows.now) (length self.entry.rows.now) result }
    {
        for row in 0..self.rows.len() {
            if self.is_one_sided(row) {
                return Some(row);
            }
        }
        None
    }
}

// Is this the matrix of a clash list? If not, by which of document 01's refusals 1 to 4, and at which row?
pub fn validity(rows: &[u64]) -> Result<(), Invalid>
    ensures { Judged rows.now result }
{
    if 64 < rows.len() {
        return Err(Invalid::Many);
    }
    let few = Few { rows };
    let stray = few.first_stray();
    let itself = few.first_itself();
    let one_sided = few.first_one_sided();
    if let Some(row) = stray {
        return Err(Invalid::Stray(row));
    }
    if let Some(row) = itself {
        return Err(Invalid::Itself(row));
    }
    if let Some(row) = one_sided {
        return Err(Invalid::OneSided(row));
    }
    Ok(())
}
