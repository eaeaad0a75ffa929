// What the trials have in common: what they read and print, and whether lent memory that nobody wrote is as it was.
#![tactic(auto)]

ghost use Rattle.std.specs.Prelude.{◌≤◌, length};

use std::io;

pub fn put_rows(rt: &impl Print, rows: &[u64]) -> io::Result<()> {
    for row in rows {
        print!(rt; " {row}")?;
    }
    Ok(())
}

// Whether lent memory is still all that it was.
pub fn put_kept<T: PartialEq + Copy>(rt: &impl Print, lent: &[T], was: T) -> io::Result<()> {
    if lent.iter().all(|&x| x == was) {
        println!(rt; "kept")
    } else {
        println!(rt; "lost")
    }
}

// Reads standard input until the lent bytes are full, the input ends or a read fails, and answers how many bytes came: a read that fails ends the input there.
pub fn read_full(rt: &impl Input, text: &mut [u8]) -> usize
    ensures { result ≤ length text.new }
{
    programs::read_full(&mut rt.reader(), text)
}
