// Sets of numbers below 256, held in four words. Each contract is that of the crate `sets` on the number that the words are (`num`), so the laws of
// sets of any width say all that is known of them. Then rows that are lent in one word each or in four: `words` says which, and `held` which numbers
// they are.
#![tactic(auto)]

ghost use Rattle.std.specs.Prelude.{◌≡◌, List, ℕ, ◌<◌, ◌≤◌, ◌+◌, ◌*◌, eqb, ltb, length, get_or, set, replicate, true, false, refl};
ghost use Rattle.sets.specs.Set.{has as member, size as size_of, IsWith, IsWithout, IsJoin, IsMeet, IsLess, IsBelow, IsLowest, IsRest};
ghost use Rattle.wide.specs.Words.{num, rows_of};
ghost use Rattle.wide.specs.Form.{Form, held, Fits, Marked, Unmarked};
ghost use Rattle.wide.specs.Lent.{four_long, four_zero};

// Sets of one width, with rows of them that are lent as numbers: what the kernels of a walk are written over. `cap` numbers may be members, `as_num`
// is the number that a set is, `lent` numbers hold `cap` rows, and `as_rows` are those rows.
pub trait Bits: Copy {
    ghost cap: { ℕ };

    ghost as_num: { Self → ℕ };

    ghost lent: { ℕ };

    ghost as_rows: { List ℕ → List ℕ };

    // No member.
    fn none() -> Self
        ensures { as_num result ≡ 0 };

    // Has it no member?
    fn is_empty(self) -> bool
        ensures { (result ≡ true → as_num self ≡ 0) × (result ≡ false → as_num self ≡ 0 → ⊥) };

    // What it or t has.
    fn join(self, t: Self) -> Self
        ensures { IsJoin (as_num self) (as_num t) (as_num result) };

    // What it and t have.
    fn meet(self, t: Self) -> Self
        ensures { IsMeet (as_num self) (as_num t) (as_num result) };

    // What it has and t does not.
    fn less(self, t: Self) -> Self
        ensures { IsLess (as_num self) (as_num t) (as_num result) };

    // It with i.
    fn with(self, i: usize) -> Self
        requires { i < cap }
        ensures { IsWith (as_num self) i (as_num result) };

    // It without i.
    fn without(self, i: usize) -> Self
        requires { i < cap }
        ensures { IsWithout (as_num self) i (as_num result) };

    // How many members it has.
    fn size(self) -> usize
        ensures { result ≡ size_of cap (as_num self) };

    // The lowest member, where there is one.
    fn lowest(self) -> usize
        requires { as_num self ≡ 0 → ⊥ }
        ensures { IsLowest cap (as_num self) result };

    // It without its lowest member, where there is one.
    fn rest(self) -> Self
        requires { as_num self ≡ 0 → ⊥ }
        ensures { IsRest cap (as_num self) (as_num result) };

    // The numbers below n.
    fn below(n: usize) -> Self
        requires { n ≤ cap }
        ensures { IsBelow n (as_num result) };

    // Row i of lent rows.
    fn row(rows: &[u64], i: usize) -> Self
        requires { (length rows.now ≡ lent) × (i < cap) }
        ensures { as_num result ≡ get_or (as_rows rows.now) i 0 };

    // Row i of lent rows becomes it.
    fn put(self, rows: &mut [u64], i: usize)
        requires { (length rows.old ≡ lent) × (i < cap) }
        ensures { (length rows.new ≡ lent) × (as_rows rows.new ≡ set (as_rows rows.old) i (as_num self)) };

    // There are `cap` rows, and numbers that are 0 are rows that are 0.
    ghost rows_long: { (l : List ℕ) → length l ≡ lent → length (as_rows l) ≡ cap };

    ghost rows_zero: { as_rows (replicate lent 0) ≡ replicate cap 0 };
}

// One word, and rows of one.
impl Bits for u64 {
    ghost cap = { 64 };

    ghost as_num = { λ s. s };

    ghost lent = { 64 };

    ghost as_rows = { λ l. l };

    ghost rows_long = { λ l e. e };

    ghost rows_zero = { refl };

    fn none() -> u64 {
        0
    }

    fn is_empty(self) -> bool {
        self == 0
    }

    fn join(self, t: u64) -> u64 {
        sets::join(self, t)
    }

    fn meet(self, t: u64) -> u64 {
        sets::meet(self, t)
    }

    fn less(self, t: u64) -> u64 {
        sets::less(self, t)
    }

    fn with(self, i: usize) -> u64 {
        sets::with(self, i)
    }

    fn without(self, i: usize) -> u64 {
        sets::without(self, i)
    }

    fn size(self) -> usize {
        sets::size(self)
    }

    fn lowest(self) -> usize {
        sets::lowest(self)
    }

    fn rest(self) -> u64 {
        sets::rest(self)
    }

    fn below(n: usize) -> u64 {
        sets::below(n)
    }

    fn row(rows: &[u64], i: usize) -> u64 {
        rows[i]
    }

    fn put(self, rows: &mut [u64], i: usize) {
        rows[i] = self;
    }
}

// The words, lowest first.
#[derive(Clone, Copy)]
pub struct Set {
    pub a: u64,
    pub b: u64,
    pub c: u64,
    pub d: u64,
}

// No member.
pub fn none() -> Set
    ensures { num result ≡ 0 }
{
    Set {
        a: 0,
        b: 0,
        c: 0,
        d: 0,
    }
}

// Has s no member?
pub fn is_empty(s: Set) -> bool
    ensures { (result ≡ true → num s ≡ 0) × (result ≡ false → num s ≡ 0 → ⊥) }
{
    if s.a != 0 {
        return false;
    }
    if s.b != 0 {
        return false;
    }
    if s.c != 0 {
        return false;
    }
    if s.d != 0 {
        return false;
    }
    true
}

// What s or t has.
pub fn join(s: Set, t: Set) -> Set
    ensures { IsJoin (num s) (num t) (num result) }
{
    Set {
        a: s.a | t.a,
        b: s.b | t.b,
        c: s.c | t.c,
        d: s.d | t.d,
    }
}

// What s and t have.
pub fn meet(s: Set, t: Set) -> Set
    ensures { IsMeet (num s) (num t) (num result) }
{
    Set {
        a: s.a & t.a,
        b: s.b & t.b,
        c: s.c & t.c,
        d: s.d & t.d,
    }
}

// What s has and t does not.
pub fn less(s: Set, t: Set) -> Set
    ensures { IsLess (num s) (num t) (num result) }
{
    Set {
        a: s.a - (s.a & t.a),
        b: s.b - (s.b & t.b),
        c: s.c - (s.c & t.c),
        d: s.d - (s.d & t.d),
    }
}

// Of i alone the word that starts at `from`.
fn bit_at(i: usize, from: usize) -> u64
    requires { (i < 256) × (from < 256) }
    ensures { (j : ℕ) → j < 64 → member result j ≡ eqb i (from + j) }
{
    if i < from {
        return 0;
    }
    if from + 64 <= i {
        return 0;
    }
    sets::with(0, i - from)
}

// i alone.
pub fn one(i: usize) -> Set
    requires { i < 256 }
    ensures { (j : ℕ) → member (num result) j ≡ eqb i j }
{
    Set {
        a: bit_at(i, 0),
        b: bit_at(i, 64),
        c: bit_at(i, 128),
        d: bit_at(i, 192),
    }
}

// s with i.
pub fn with(s: Set, i: usize) -> Set
    requires { i < 256 }
    ensures { IsWith (num s) i (num result) }
{
    join(s, one(i))
}

// s without i.
pub fn without(s: Set, i: usize) -> Set
    requires { i < 256 }
    ensures { IsWithout (num s) i (num result) }
{
    less(s, one(i))
}

// How many members s has.
pub fn size(s: Set) -> usize
    ensures { result ≡ size_of 256 (num s) }
{
    sets::size(s.a) + sets::size(s.b) + sets::size(s.c) + sets::size(s.d)
}

// The lowest member of a set that has one.
pub fn lowest(s: Set) -> usize
    requires { num s ≡ 0 → ⊥ }
    ensures { IsLowest 256 (num s) result }
{
    if s.a != 0 {
        return sets::lowest(s.a);
    }
    if s.b != 0 {
        return 64 + sets::lowest(s.b);
    }
    if s.c != 0 {
        return 128 + sets::lowest(s.c);
    }
    192 + sets::lowest(s.d)
}

// Of the numbers below n those of the word that starts at `from`, as bits of that word.
fn part(n: usize, from: usize) -> u64
    requires { (n ≤ 256) × (from ≤ 256) }
    ensures { (j : ℕ) → j < 64 → member result j ≡ ltb (from + j) n }
{
    if n <= from {
        return 0;
    }
    if from + 64 <= n {
        return sets::below(64);
    }
    sets::below(n - from)
}

// The numbers below n.
pub fn below(n: usize) -> Set
    requires { n ≤ 256 }
    ensures { IsBelow n (num result) }
{
    Set {
        a: part(n, 0),
        b: part(n, 64),
        c: part(n, 128),
        d: part(n, 192),
    }
}

// Row i of rows of four words.
pub fn row(rows: &[u64], i: usize) -> Set
    requires { (length rows.now ≡ 1024) × (i < 256) }
    ensures { num result ≡ get_or (rows_of 4 256 rows.now) i 0 }
{
    let k = i * 4;
    Set {
        a: rows[k],
        b: rows[k + 1],
        c: rows[k + 2],
        d: rows[k + 3],
    }
}

// Row i of rows of four words becomes s.
pub fn put(rows: &mut [u64], i: usize, s: Set)
    requires { (length rows.old ≡ 1024) × (i < 256) }
    ensures { (length rows.new ≡ 1024) × (rows_of 4 256 rows.new ≡ set (rows_of 4 256 rows.old) i (num s)) }
{
    let k = i * 4;
    rows[k] = s.a;
    rows[k + 1] = s.b;
    rows[k + 2] = s.c;
    rows[k + 3] = s.d;
}

// s without its lowest member, where it has one.
pub fn rest(s: Set) -> Set
    requires { num s ≡ 0 → ⊥ }
    ensures { IsRest 256 (num s) (num result) }
{
    without(s, lowest(s))
}

impl Bits for Set {
    ghost cap = { 256 };

    ghost as_num = { num };

    ghost lent = { 1024 };

    ghost as_rows = { rows_of 4 256 };

    ghost rows_long = { four_long };

    ghost rows_zero = { four_zero };

    fn none() -> Set {
        none()
    }

    fn is_empty(self) -> bool {
        is_empty(self)
    }

    fn join(self, t: Set) -> Set {
        join(self, t)
    }

    fn meet(self, t: Set) -> Set {
        meet(self, t)
    }

    fn less(self, t: Set) -> Set {
        less(self, t)
    }

    fn with(self, i: usize) -> Set {
        with(self, i)
    }

    fn without(self, i: usize) -> Set {
        without(self, i)
    }

    fn size(self) -> usize {
        size(self)
    }

    fn lowest(self) -> usize {
        lowest(self)
    }

    fn rest(self) -> Set {
        rest(self)
    }

    fn below(n: usize) -> Set {
        below(n)
    }

    fn row(rows: &[u64], i: usize) -> Set {
        row(rows, i)
    }

    fn put(self, rows: &mut [u64], i: usize) {
        put(rows, i, self);
    }
}

// One word as a set.
pub fn up(a: u64) -> Set
    ensures { num result ≡ a }
{
    Set {
        a: a,
        b: 0,
        c: 0,
        d: 0,
    }
}

// Row i.
pub fn row_of(words: usize, rows: &[u64], i: usize) -> Set
    requires form { Form words rows.now }
    requires i_bound { i < 64 * words }
    ensures result_value { num result ≡ get_or (held words rows.now) i 0 }
    ensures fits { Fits (64 * words) (num result) }
{
    if words == 1 {
        return up(rows[i]);
    }
    row(rows, i)
}

// Row i becomes s.
pub fn put_row(words: usize, rows: &mut [u64], i: usize, s: Set)
    requires form { Form words rows.old }
    requires i_bound { i < 64 * words }
    requires fits { Fits (64 * words) (num s) }
    ensures form_2 { Form words rows.new }
    ensures rows_after { held words rows.new ≡ set (held words rows.old) i (num s) }
{
    if words == 1 {
        rows[i] = s.a;
        return;
    }
    put(rows, i, s);
}

// Row x gets u. One word is touched.
pub fn mark(words: usize, rows: &mut [u64], x: usize, u: usize)
    requires form { Form words rows.old }
    requires x_bound { (x < 64 * words) × (u < 64 * words) }
    ensures form_2 { Form words rows.new }
    ensures marked { Marked (held words rows.old) x u (held words rows.new) }
{
    let at = x * words + u / 64;
    let word = sets::with(rows[at], u % 64);
    rows[at] = word;
}

// Row x loses u.
pub fn unmark(words: usize, rows: &mut [u64], x: usize, u: usize)
    requires form { Form words rows.old }
    requires x_bound { (x < 64 * words) × (u < 64 * words) }
    ensures form_2 { Form words rows.new }
    ensures unmarked { Unmarked (held words rows.old) x u (held words rows.new) }
{
    let at = x * words + u / 64;
    let word = sets::without(rows[at], u % 64);
    rows[at] = word;
}
