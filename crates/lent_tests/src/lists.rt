// The lists of up to six entries: one for each set of their pairs. The pairs of the first five entries come first, so that a list of five is one of six too.

// How many lists there are of five entries, and of six.
pub const OF_FIVE: usize = 1024;

pub const OF_SIX: usize = 32768;

// Do u and v clash in the list of this number?
pub fn clash(list: usize, u: usize, v: usize) -> bool {
    let mut pair: usize = 0;
    for a in 0..6usize {
        for b in 0..a {
            if (u == a && v == b) || (u == b && v == a) {
                return list >> (pair % 15) & 1 == 1;
            }
            pair = pair.wrapping_add(1);
        }
    }
    false
}

// Its rows.
pub fn rows_of(list: usize) -> [u64; 6] {
    let mut rows = [0u64; 6];
    for u in 0..6usize {
        for v in 0..6usize {
            if clash(list, u, v) {
                rows[u] |= 1 << v;
            }
        }
    }
    rows
}
