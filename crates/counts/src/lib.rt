// In how many rows of a set's members each number below 64 is: all counts at once, as slices. Slice k has the numbers whose count has digit k,
// so that one operation on words adds to 64 counts.
#![tactic(auto)]

ghost use Rattle.std.specs.Prelude.{◌≡◌, ◌<◌, length};
ghost use Rattle.counts.specs.Counts.{Counted, IsMost, IsAtLeast};
ghost use Rattle.counts.specs.Steps.{IsHalf, IsSum, IsPulled, Fits, Absorbed, IsNarrowed, IsBorrowed};

use sets::{below, join, less, lowest, meet, rest};

// The count at v has digit k where v is in slice sk. Seven are enough: no count is above 64.
#[derive(Clone, Copy)]
pub struct Counts {
    pub s0: u64,
    pub s1: u64,
    pub s2: u64,
    pub s3: u64,
    pub s4: u64,
    pub s5: u64,
    pub s6: u64,
}

// Sums of digits: their ones and their twos.
#[derive(Clone, Copy)]
struct Sum {
    pub ones: u64,
    pub twos: u64,
}

// A row that is counted next, and whose rows are left.
#[derive(Clone, Copy)]
struct Pulled {
    pub row: u64,
    pub left: u64,
}

// Two digits.
fn half(a: u64, b: u64) -> Sum
    ensures { IsHalf a b result }
{
    let twos = meet(a, b);
    let ones = less(join(a, b), twos);
    Sum { ones, twos }
}

// Three digits.
fn add(a: u64, b: u64, c: u64) -> Sum
    ensures { IsSum a b c result }
{
    let x = half(a, b);
    let y = half(x.ones, c);
    let twos = join(x.twos, y.twos);
    Sum { ones: y.ones, twos }
}

// The row of the lowest member; an empty one, which changes no count, where there is none.
fn pull(rows: &[u64], left: u64) -> Pulled
    requires { length rows.now ≡ 64 }
    ensures { IsPulled rows.now left result }
{
    if left == 0 {
        return Pulled { row: 0, left: 0 };
    }
    let w = lowest(left);
    let next = rest(left);
    Pulled {
        row: rows[w],
        left: next,
    }
}

// Four rows more: by fours, since then a carry goes up once for all of them.
fn absorb(c: Counts, p: u64, q: u64, r: u64, s: u64) -> Counts
    requires { Fits c p q r s }
    ensures { Absorbed c p q r s result }
{
    let x = add(c.s0, p, q);
    let y = add(x.ones, r, s);
    let z = add(c.s1, x.twos, y.twos);
    let d2 = half(c.s2, z.twos);
    let d3 = half(c.s3, d2.twos);
    let d4 = half(c.s4, d3.twos);
    let d5 = half(c.s5, d4.twos);
    let d6 = half(c.s6, d5.twos);
    Counts {
        s0: y.ones,
        s1: z.ones,
        s2: d2.ones,
        s3: d3.ones,
        s4: d4.ones,
        s5: d5.ones,
        s6: d6.ones,
    }
}

// In how many rows of near's members each number is.
pub fn counted(rows: &[u64], near: u64) -> Counts
    requires { length rows.now ≡ 64 }
    ensures { Counted rows.now near result }
{
    let mut c = Counts {
        s0: 0,
        s1: 0,
        s2: 0,
        s3: 0,
        s4: 0,
        s5: 0,
        s6: 0,
    };
    let mut left = near;
    while left != 0 {
        let p = pull(rows, left);
        let q = pull(rows, p.left);
        let r = pull(rows, q.left);
        let s = pull(rows, r.left);
        c = absorb(c, p.row, q.row, r.row, s.row);
        left = s.left;
    }
    c
}

// One slice lower: those that have it lead the others, where there are any.
fn narrow(leading: u64, slice: u64) -> u64
    ensures { IsNarrowed leading slice result }
{
    let having = meet(leading, slice);
    if having == 0 {
        return leading;
    }
    having
}

// Who has the greatest count in apart.
pub fn greatest(c: Counts, apart: u64) -> u64
    ensures { IsMost c apart result }
{
    let m = narrow(apart, c.s6);
    let m = narrow(m, c.s5);
    let m = narrow(m, c.s4);
    let m = narrow(m, c.s3);
    let m = narrow(m, c.s2);
    let m = narrow(m, c.s1);
    narrow(m, c.s0)
}

// One digit of what is taken from every count: those that borrow from the next slice.
fn borrowed(slice: u64, digit: usize, b: u64) -> u64
    requires { digit < 2 }
    ensures { IsBorrowed slice digit b result }
{
    if digit == 0 {
        return less(b, slice);
    }
    join(b, less(below(64), slice))
}

// Of a set who has that count or more: who has not would have to borrow beyond the last slice.
pub fn at_least(c: Counts, need: usize, among: u64) -> u64
    ensures { IsAtLeast c need among result }
{
    if need > 127 {
        return 0;
    }
    let b = borrowed(c.s0, need % 2, 0);
    let n1 = need / 2;
    let b = borrowed(c.s1, n1 % 2, b);
    let n2 = n1 / 2;
    let b = borrowed(c.s2, n2 % 2, b);
    let n3 = n2 / 2;
    let b = borrowed(c.s3, n3 % 2, b);
    let n4 = n3 / 2;
    let b = borrowed(c.s4, n4 % 2, b);
    let n5 = n4 / 2;
    let b = borrowed(c.s5, n5 % 2, b);
    let b = borrowed(c.s6, n5 / 2, b);
    less(among, b)
}
