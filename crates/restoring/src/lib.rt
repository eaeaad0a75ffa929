// Document 02's Ask 8, "Shrink first", the second half: the shrunk list's rows, and putting back who was removed, group by group. Sets are words.
#![tactic(auto)]

ghost use Rattle.std.specs.Prelude.{◌≡◌, ◌++◌, ◌≤◌, ◌<◌, length, drop};
ghost use Rattle.std.proofs.Math.Decide.{ℕ_discrete};
ghost use Rattle.clashes.specs.Matrix.{FirstRow};
ghost use Rattle.clashes.specs.Divisions.{at, division};
ghost use Rattle.removing.specs.Words.{Entries};
ghost use Rattle.restoring.specs.Rows.{Placed, Packed, Small};
ghost use Rattle.restoring.specs.Seats.{Clear, Seat, Taken, Spread, Returning, Returned, Standing, Joined};

use removing::{Goes, Shrunk};
use sets::{lowest, meet, rest, size, with};

// Groups of those who are present: how many, each entry's, and each group's members. As there is no heap, both arrays have room for all entries.
#[derive(Clone, Copy)]
pub struct Seats {
    pub many: usize,
    pub group: [u8; 64],
    pub sets: [u64; 64],
}

impl Seats {
    // v joins group j.
    fn join(&mut self, v: usize, j: usize)
        requires { (v < 64) × (j < 64) }
        ensures { Joined v j self.old self.new }
    {
        self.group[v] = j as u8;
        self.sets[j] = with(self.sets[j], v);
    }

    // The lowest group with no member of row, or the next after all groups.
    fn home(&self, row: u64) -> usize
        requires { self.now.many ≤ 64 }
        ensures { FirstRow (λ j. Clear row (at self.now.sets j)) self.now.many result }
    {
        for (j, &members) in self.sets[..self.many].iter().enumerate() {
            if meet(row, members) == 0 {
                return j;
            }
        }
        self.many
    }

    // The group that somebody who went is put into.
    fn seat(&self, rows: &[u64], goes: Goes) -> usize
        requires { (goes.who < length rows.now) × (goes.other < 64) × (self.now.many ≤ 64) }
        ensures { Seat rows.now goes self.now result }
    {
        if goes.who == goes.other {
            return self.home(rows[goes.who]);
        }
        usize::from(self.group[goes.other])
    }
}

// Each member's place among the members, by rising number.
fn places(present: u64) -> [u8; 64]
    ensures { Placed 64 present result }
{
    let mut out = [0; 64];
    let mut left = present;
    for i in 0..size(present) {
        out[lowest(left)] = i as u8;
        left = rest(left);
    }
    out
}

// A row of the shrunk list: who is present of this one, each by its place.
fn packed(row: u64, present: u64, places: &[u8; 64]) -> u64
    requires { Placed 64 present places.now }
    ensures { Packed 64 row present result }
{
    let mut out = 0;
    let mut left = meet(row, present);
    while left != 0 {
        let w = lowest(left);
        left = rest(left);
        out = with(out, usize::from(places[w]));
    }
    out
}

// The rows of the shrunk list.
pub fn small_rows(rows: &[u64], present: u64) -> [u64; 64]
    requires { Entries (length rows.now) present }
    ensures { Small 64 rows.now present result }
{
    let at = places(present);
    let mut out = [0; 64];
    let mut left = present;
    for small in &mut out[..size(present)] {
        *small = packed(rows[lowest(left)], present, &at);
        left = rest(left);
    }
    out
}

// Those who stayed have the groups of the shrunk list's division c.
pub fn seated(present: u64, c: [u8; 64], many: usize) -> Seats
    requires { Taken 64 present c }
    ensures { Spread 64 present c many result }
{
    let mut seats = Seats {
        many,
        group: [0; 64],
        sets: [0; 64],
    };
    let mut left = present;
    for &colour in &c[..size(present)] {
        seats.join(lowest(left), usize::from(colour));
        left = rest(left);
    }
    seats
}

// Who went is put back, the last first: into the noted entry's group, or, where it was noted with itself, into the lowest group that admits it or a
// new one.
pub fn put_back(rows: &[u64], s: Shrunk, seats: Seats) -> Seats
    requires { Returning 64 rows.now s.went s.gone seats }
    ensures { Returned 64 rows.now s.went s.gone seats result }
{
    let mut seats = seats;
    for &goes in s.went[..s.gone].iter().rev() {
        let j = seats.seat(rows, goes);
        seats.join(goes.who, j);
        seats.many = seats.many.max(j + 1);
    }
    seats
}

// The groups of n entries are written, numbered from 0 by smallest member: who is its group's smallest opens the next number.
pub fn number(n: usize, seats: Seats, colours: &mut [u8])
    requires { Standing 64 n seats (length colours.old) }
    ensures { colours.new ≡ division ℕ_discrete n (at seats.group) ++ drop n colours.old }
{
    let mut next: u8 = 0;
    for i in 0..n {
        let found = seats.group[i]; // the group's number so far
        let w = lowest(seats.sets[usize::from(found)]);
        if w == i {
            colours[i] = next;
            next += 1;
        } else {
            colours[i] = colours[w];
        }
    }
}
