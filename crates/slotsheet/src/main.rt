// slotsheet: reads a clash text from standard input and prints its sitting sheet, or "refused R line L", with " column C" where there is a column.
// Started with --repeats it allows an edge to stand more than once; without it such an edge is refused.
// The program only reads, calls and writes: the very bytes that it prints are the library's answer.
#![tactic(auto)]

ghost use Rattle.answers.specs.Printed.{AnswerPromise};

use answers::Full;
use programs::{allows_repeats, is_given, read_text};
use std::env::Env;
use std::io::{Eprint, Input, Print};

// No answer is longer than 641 bytes.
const ROOM: usize = 1024;

fn answer(text: &[u8], out: &mut [u8], plain: bool) -> Result<usize, Full>
    ensures { AnswerPromise plain text.now out.old result out.new }
{
    if plain {
        sittings::answer(text, out)
    } else {
        sittings::answer_repeats(text, out)
    }
}

// One buffer of 65,536 bytes, zero at the start.
fn run(rt: &(impl Input + Print), plain: bool) {
    let mut text = [0u8; 65536];
    let mut out = [0u8; ROOM];
    let written = match read_text(&mut rt.reader(), &mut text) {
        Some(n) => answer(&text[..n], &mut out, plain),
        None => sittings::answer_long(&mut out),
    };
    programs::print(rt, written, &out);
}

// Whether the arguments ask for the plain reading, by none, or for the one that allows repeats; or none, where they ask for something else.
fn is_plain(rt: &impl Env) -> Option<bool> {
    if !is_given(rt, 1) {
        return Some(true);
    }
    (allows_repeats(rt) && !is_given(rt, 2)).then_some(false)
}

fn main(rt: HostRuntime) {
    match is_plain(&rt) {
        Some(plain) => run(&rt, plain),
        None => {
            let _ = rt.eprint("usage: slotsheet [--repeats]\n");
        }
    }
}
