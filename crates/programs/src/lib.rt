// What the programs have in common: how they read a text, what they know of their arguments, and how they print what was written.
#![tactic(auto)]

ghost use Rattle.std.specs.Prelude.{◌≡◌, ◌≤◌, ◌↔◌, IsTrue, IfSome, codes, length};

use std::env::{Env, FillError};
use std::io::{Print, Read};

// Reads until the bytes are full, the input ends or a read fails, and returns how many it read: a read that fails ends the input there.
pub fn read_full(input: &mut impl Read, bytes: &mut [u8]) -> usize
    ensures { result ≤ length bytes.new }
{
    let mut done = 0;
    while done < bytes.len() {
        match input.read(&mut bytes[done..]) {
            Ok(0) | Err(_) => break,
            Ok(n) => done += n,
        }
    }
    done
}

// Reads a whole text into the bytes, and returns its length; or none, where they are full and one byte more can be read.
pub fn read_text(input: &mut impl Read, text: &mut [u8]) -> Option<usize>
    ensures { IfSome result (λ n. n ≤ length text.new) }
{
    let n = read_full(input, text);
    if n == text.len() && read_full(input, &mut [0u8; 1]) != 0 {
        return None;
    }
    Some(n)
}

// Whether there is an argument of this number. Number 0 is the program's own name.
pub fn is_given(rt: &impl Env, i: usize) -> bool {
    !matches!(rt.arg(i, &mut [0u8; 1]), Err(FillError::NotPresent))
}

// Whether the first argument is "--repeats". One that is longer than the buffer is not.
pub fn allows_repeats(rt: &impl Env) -> bool {
    let mut word = [0u8; 16];
    matches!(rt.arg(1, &mut word), Ok(n) if is_repeats(&word[..n]))
}

pub fn is_repeats(word: &[u8]) -> bool
    ensures { IsTrue result ↔ (word.now ≡ codes "--repeats") }
{
    word == b"--repeats".as_slice()
}

// Prints what was written to the bytes. Nobody is left to be told of a write that fails.
pub fn print<E: Drop>(rt: &impl Print, written: Result<usize, E>, out: &[u8]) {
    if let Ok(n) = written {
        if n <= out.len() {
            let _ = rt.write_all(&out[..n]);
        }
    }
}
