// Rows and names changed in place and changed back: what a merging needs to be undone, separated pairs on a trail, and names as a forest in which each
// entry points to the one that it was merged into. Rows have one word or four (`words`), and are what `held` says.
#![tactic(auto)]

ghost use Rattle.std.specs.Prelude.{◌≡◌, ◌⊎◌, ◌+◌, ◌*◌, ◌%◌, ◌≤◌, ◌<◌, length};
ghost use Rattle.wide.specs.Words.{num};
ghost use Rattle.wide.specs.Form.{Form, held, Fits};
ghost use Rattle.graphs.specs.Acts.{Linked};
ghost use Rattle.undo.specs.Back.{word_has, LinkedBy, UnlinkedBy, Unlinked, Undone, Merges, Separates, Cut, Restored};
ghost use Rattle.undo.specs.Forest.{Forest, Coloured};

use sets::{lowest, rest};
use wide::{Set, join, less, mark, meet, put_row, row_of, unmark};

// What a merging needs to be undone: the row of u as it was, and who got u for a neighbour.
#[derive(Clone, Copy)]
pub struct Undo {
    pub old: Set,
    pub near: Set,
}

// u becomes a neighbour of each vertex of s, the word of a set whose places start at from.
fn link_word(words: usize, rows: &mut [u64], u: usize, s: u64, from: usize)
    requires form { Form words rows.old }
    requires u_bound { (u < 64 * words) × (from + 64 ≤ 64 * words) }
    ensures form_2 { Form words rows.new }
    ensures linked_by { LinkedBy (held words rows.old) u (word_has s from) (held words rows.new) }
{
    let mut left = s;
    while left != 0 {
        let x = lowest(left);
        left = rest(left);
        mark(words, rows, from + x, u);
    }
}

// u becomes a neighbour of each vertex of s.
fn link(words: usize, rows: &mut [u64], u: usize, s: Set)
    requires form { Form words rows.old }
    requires u_bound { u < 64 * words }
    requires fits { Fits (64 * words) (num s) }
    ensures form_2 { Form words rows.new }
    ensures linked { Linked (held words rows.old) u (num s) (held words rows.new) }
{
    link_word(words, rows, u, s.a, 0);
    if words == 4 {
        link_word(words, rows, u, s.b, 64);
        link_word(words, rows, u, s.c, 128);
        link_word(words, rows, u, s.d, 192);
    }
}

// u is a neighbour of no vertex of s any more, the word of a set whose places start at from.
fn unlink_word(words: usize, rows: &mut [u64], u: usize, s: u64, from: usize)
    requires form { Form words rows.old }
    requires u_bound { (u < 64 * words) × (from + 64 ≤ 64 * words) }
    ensures form_2 { Form words rows.new }
    ensures unlinked_by { UnlinkedBy (held words rows.old) u (word_has s from) (held words rows.new) }
{
    let mut left = s;
    while left != 0 {
        let x = lowest(left);
        left = rest(left);
        unmark(words, rows, from + x, u);
    }
}

// u is a neighbour of no vertex of s any more.
fn unlink(words: usize, rows: &mut [u64], u: usize, s: Set)
    requires form { Form words rows.old }
    requires u_bound { u < 64 * words }
    requires fits { Fits (64 * words) (num s) }
    ensures form_2 { Form words rows.new }
    ensures unlinked { Unlinked (held words rows.old) u (num s) (held words rows.new) }
{
    unlink_word(words, rows, u, s.a, 0);
    if words == 4 {
        unlink_word(words, rows, u, s.b, 64);
        unlink_word(words, rows, u, s.c, 128);
        unlink_word(words, rows, u, s.d, 192);
    }
}

// v is merged into u: the row of u is the two rows joined, neighbours of v become neighbours of u. The row of v stays, since rows are read through the
// live set. Told is what undoes it.
pub fn merge(words: usize, live: Set, rows: &mut [u64], u: usize, v: usize) -> Undo
    requires form { Form words rows.old }
    requires u_bound { (u < 64 * words) × (v < 64 * words) }
    ensures form_2 { Form words rows.new }
    ensures merges { Merges (64 * words) (num live) (held words rows.old) u v (held words rows.new) (num result.old) (num result.near) }
{
    let old = row_of(words, rows, u);
    let other = row_of(words, rows, v);
    let near = less(meet(other, live), old);
    link(words, rows, u, near);
    put_row(words, rows, u, join(old, other));
    Undo { old, near }
}

// The rows as they were before v was merged into u.
pub fn unmerge(words: usize, rows: &mut [u64], u: usize, undo: Undo)
    requires form { Form words rows.old }
    requires u_bound { u < 64 * words }
    requires fits { Fits (64 * words) (num undo.old) }
    requires fits_2 { Fits (64 * words) (num undo.near) }
    ensures form_2 { Form words rows.new }
    ensures undone { Undone (held words rows.old) u (num undo.old) (num undo.near) (held words rows.new) }
{
    let Undo { old, near } = undo;
    unlink(words, rows, u, near);
    put_row(words, rows, u, old);
}

// u and v become adjacent.
pub fn separate(words: usize, rows: &mut [u64], u: usize, v: usize)
    requires form { Form words rows.old }
    requires u_bound { (u < 64 * words) × (v < 64 * words) }
    ensures form_2 { Form words rows.new }
    ensures separates { Separates (64 * words) (held words rows.old) u v (held words rows.new) }
{
    mark(words, rows, u, v);
    mark(words, rows, v, u);
}

// u and v are adjacent no more.
fn unseparate(words: usize, rows: &mut [u64], u: usize, v: usize)
    requires form { Form words rows.old }
    requires u_bound { (u < 64 * words) × (v < 64 * words) }
    ensures form_2 { Form words rows.new }
    ensures cut { Cut (held words rows.old) u v (held words rows.new) }
{
    unmark(words, rows, u, v);
    unmark(words, rows, v, u);
}

// The number that a part of a trail's entry is: at one word below 64, at four below 256.
fn below_cap(words: usize, x: usize) -> usize
    requires { (words ≡ 1) ⊎ (words ≡ 4) }
    ensures { result ≡ x % (64 * words) }
{
    if words == 1 {
        return x % 64;
    }
    x % 256
}

// The pairs of the trail from at on, as many as told, are adjacent no more: the last first.
pub fn restore(words: usize, rows: &mut [u64], trail: &[u16], at: usize, more: usize)
    requires form { Form words rows.old }
    requires more_in_bounds { at + more ≤ length trail.now }
    ensures form_2 { Form words rows.new }
    ensures restored { Restored (64 * words) trail.now at more (held words rows.old) (held words rows.new) }
{
    for &pair in trail[at..at + more].iter().rev() {
        let e = usize::from(pair);
        unseparate(
            words,
            rows,
            below_cap(words, e / 256),
            below_cap(words, e % 256),
        );
    }
}

// The groups of the roots, numbered from 0 by smallest member: who stands for itself opens the next number, any other takes that of the entry it points
// to, which has its root's.
pub fn colours(n: usize, names: &[u8], out: &mut [u8])
    requires forest { Forest names.now }
    requires n_in_bounds { (n ≤ length names.now) × (n ≤ length out.old) × (n ≤ 256) }
    ensures { Coloured n names.now out.old out.new }
{
    let mut next: usize = 0;
    for (i, &name) in names[..n].iter().enumerate() {
        let w = usize::from(name);
        if w == i {
            out[i] = next as u8;
            next += 1;
        } else {
            out[i] = out[w];
        }
    }
}
