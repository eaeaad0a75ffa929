// Lists of up to 256 entries from standard input, and what the kernels of four words find in each: the clique's members, the Mycielskian bound and
// whether it is reached, and the pair of the pair rule. A list is lines of two numbers: how many entries there are, and 0 where the pairs that follow
// clash, 1 where they are the ones that do not; then the pairs, and at the end a pair of one entry twice. Rows are made pair by pair, and hold a valid
// list all the while. What this writes is held to the file stdout; tests/wide_lists.py makes both files from the lists' constructions and document 01.
#![tactic(auto)]

ghost use Rattle.std.specs.Prelude.{◌≡◌, ℕ, ◌≤◌, ◌<◌, IfOk, IfSome, length};
ghost use Rattle.clashes.specs.Matrix.{Valid, matrix};
ghost use Rattle.wide.specs.Words.{rows_of};

use std::io;
use wide::{Set, below, is_empty, lowest, mark, without};

// The two numbers of a line, and where the next line starts.
#[derive(Clone, Copy)]
struct Line {
    u: usize,
    v: usize,
    next: usize,
}

fn no_rows() -> [u64; 1024]
    ensures result_len { length result ≡ 1024 }
    ensures by_index { (n : ℕ) → Valid n (matrix (rows_of 4 256 result)) }
{
    [0; 1024]
}

// Two entries of the n clash.
fn add(rows: &mut [u64], n: usize, u: usize, v: usize)
    requires rows_len { length rows.old ≡ 1024 }
    requires n_bound { n ≤ 256 }
    ensures rows_len_2 { length rows.new ≡ 1024 }
    ensures valid { Valid n (matrix (rows_of 4 256 rows.old)) → Valid n (matrix (rows_of 4 256 rows.new)) }
{
    if u == v || n <= u || n <= v {
        return;
    }
    mark(4, rows, u, v);
    mark(4, rows, v, u);
}

// Two entries of the n clash, if they are no pair.
fn add_other(pairs: &[u64], rows: &mut [u64], n: usize, u: usize, v: usize)
    requires pairs_len { length pairs.now ≡ 1024 }
    requires rows_len { length rows.old ≡ 1024 }
    requires n_bound { n ≤ 256 }
    requires u_bound { (u < 256) × (v < 256) }
    ensures rows_len_2 { length rows.new ≡ 1024 }
    ensures valid { Valid n (matrix (rows_of 4 256 rows.old)) → Valid n (matrix (rows_of 4 256 rows.new)) }
{
    if !sets::has(pairs[u * 4 + v / 64], v % 64) {
        add(rows, n, u, v);
    }
}

// Every two of the n entries clash that are no pair.
fn add_others(pairs: &[u64], rows: &mut [u64], n: usize)
    requires pairs_len { length pairs.now ≡ 1024 }
    requires rows_len { length rows.old ≡ 1024 }
    requires n_bound { n ≤ 256 }
    ensures rows_len_2 { length rows.new ≡ 1024 }
    ensures valid { Valid n (matrix (rows_of 4 256 rows.old)) → Valid n (matrix (rows_of 4 256 rows.new)) }
{
    for u in 0..n {
        for v in 0..u {
            add_other(pairs, rows, n, u, v);
        }
    }
}

// The line that starts at `at`, if it is two numbers and is ended.
fn line_at(file: &[u8], at: usize) -> Option<Line>
    requires { at ≤ length file.now }
    ensures { IfSome result (λ line. (at < line.next) × (line.next ≤ length file.now)) }
{
    let e = lines::line_end(file, at);
    if file.len() <= e {
        return None;
    }
    let (u, v) = lines::two(&file[at..e])?;
    Some(Line { u, v, next: e + 1 })
}

// The pairs from `at` on, up to one of an entry twice, come to the rows. Where the line after them starts.
fn add_pairs(file: &[u8], at: usize, rows: &mut [u64], n: usize) -> usize
    requires at_in_bounds { at ≤ length file.now }
    requires rows_len { length rows.old ≡ 1024 }
    requires n_bound { n ≤ 256 }
    ensures lower_bound { (at ≤ result) × (result ≤ length file.now) }
    ensures rows_len_2 { length rows.new ≡ 1024 }
    ensures valid { Valid n (matrix (rows_of 4 256 rows.old)) → Valid n (matrix (rows_of 4 256 rows.new)) }
{
    let mut at = at;
    while let Some(line) = line_at(file, at) {
        at = line.next;
        if line.u == line.v {
            break;
        }
        add(rows, n, line.u, line.v);
    }
    at
}

fn put_members(rt: &impl Print, s: Set) -> io::Result<()> {
    let mut left = s;
    while !is_empty(left) {
        let v = lowest(left);
        print!(rt; " {v}")?;
        left = without(left, v);
    }
    Ok(())
}

// What is found in a list of n entries.
fn tell(rt: &impl Print, rows: &[u64], n: usize) -> io::Result<()>
    requires rows_len { length rows.now ≡ 1024 }
    requires n_bound { n ≤ 256 }
    requires valid { Valid n (matrix (rows_of 4 256 rows.now)) }
{
    let live = below(n);
    print!(rt; "{n} entries, clique")?;
    put_members(rt, cliques::clique_among(live, rows, 257))?;
    let b = mycielski::bound_among::<Set, 1024>(live, rows, 257);
    print!(rt; ", bound {b}")?;
    if bounds::reaches_wide(live, rows, b) {
        print!(rt; " reached")?;
    }
    if bounds::reaches_wide(live, rows, b % 512 + 1) {
        print!(rt; " and passed")?;
    }
    match wide_pairs::choose_among(live, rows) {
        None => println!(rt; ", complete"),
        Some((u, v)) => println!(rt; ", pair {u} {v}"),
    }
}

// The list whose pairs start at `at`. Where the next list starts.
fn one_list(rt: &impl Print, file: &[u8], at: usize, n: usize, others: bool) -> io::Result<usize>
    requires at_in_bounds { at ≤ length file.now }
    requires n_bound { n ≤ 256 }
    ensures { IfOk result (λ next. (at ≤ next) × (next ≤ length file.now)) }
{
    let mut rows = no_rows();
    let next = add_pairs(file, at, &mut rows, n);
    if others {
        let mut all = no_rows();
        add_others(&rows, &mut all, n);
        tell(rt, &all, n)?;
    } else {
        tell(rt, &rows, n)?;
    }
    Ok(next)
}

// Each list of the file.
fn lists(rt: &impl Print, file: &[u8]) -> io::Result<()> {
    let mut at = 0;
    while at < file.len() {
        match line_at(file, at) {
            Some(line) if line.u <= 256 => {
                at = one_list(rt, file, line.next, line.u, line.v == 1)?;
            }
            _ => return println!(rt; "over"),
        }
    }
    Ok(())
}

fn main(rt: HostRuntime) -> io::Result<()> {
    let mut file = [0; 300000];
    let len = trials::read_full(&rt, &mut file);
    lists(&rt, &file[..len])
}
