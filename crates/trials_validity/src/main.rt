// Lent matrices and what `validity` answers: the number of document 01, 0 where the matrix is valid, and the row, 0 where none is named. A line
// for each. What it writes is held to the file stdout, which follows from document 01.
#![tactic(auto)]

use refusals::Refusal;
use std::io;

fn show(rt: &impl Print, rows: &[u64]) -> io::Result<()> {
    match clashes::validity(rows) {
        Ok(()) => println!(rt; "0 row 0"),
        Err(why) => println!(rt; "{} row {}", Refusal::from(why).number(), why.row()),
    }
}

// At the ends of the range: no row, 64 rows, 65 rows, and the highest bit of a word.
fn at_the_ends(rt: &impl Print) -> io::Result<()> {
    let none = [0u64; 0];
    show(rt, &none)?;
    let sixty_four = [0u64; 64];
    show(rt, &sixty_four)?;
    let sixty_five = [0u64; 65];
    show(rt, &sixty_five)?;
    let mut last = [0u64; 64];
    last[63] = 9223372036854775808;
    show(rt, &last)?;
    let mut both = [0u64; 64];
    both[0] = 9223372036854775808;
    both[63] = 1;
    show(rt, &both)?;
    let mut one = [0u64; 64];
    one[0] = 9223372036854775808;
    show(rt, &one)
}

// Each refusal, and the order in which they are given.
fn in_order(rt: &impl Print) -> io::Result<()> {
    show(rt, &[2])?;
    show(rt, &[1])?;
    show(rt, &[2, 0])?;
    show(rt, &[0, 1])?;
    show(rt, &[2, 1])?;
    show(rt, &[0, 0, 8])?;
    show(rt, &[2, 2, 8])?;
    show(rt, &[2, 2, 1])?;
    show(rt, &[4, 0, 2])?;
    show(rt, &[18, 5, 10, 20, 9])
}

fn main(rt: HostRuntime) -> io::Result<()> {
    at_the_ends(&rt)?;
    in_order(&rt)
}
