// mend: puts a hand-edited sitting sheet right.
//
//     mend [--repeats] LIST SHEET
//
// LIST and SHEET are names of files. It prints what it did and the mended sheet, or "refused R line L", with " column C" where there is a column; then standard
// error has which text is at fault, and its line. With --repeats the list may have an edge more than once.
// The program only reads, calls and writes: the very bytes that it prints are the library's answer.
#![tactic(auto)]

ghost use Rattle.std.specs.Prelude.{◌≤◌, IfOk, IfSome, length};
ghost use Rattle.mends.specs.Promise.{MendPromise};
ghost use Rattle.answers.specs.Mended.{MendedPromise, LongSheetPromise};

use answers::Full;
use mends::Unmended;
use programs::{allows_repeats, is_given, read_text};
use refusals::Refusal;
use std::env::{Env, FillError};
use std::fmt::InlineText;
use std::io::{Print, Read};
use std::rt::Files;
use std::{fs, io, str};

// No output is longer than 449,161 bytes.
const ROOM: usize = 458752;

// The system's numbers of three errors: an argument that is not there, a name that is longer than any file's, and one that is no UTF-8.
const EINVAL: i32 = 22;

const ENAMETOOLONG: i32 = 36;

const EILSEQ: i32 = 84;

// A file could not be read, and standard error says why.
#[derive(Clone, Copy)]
struct NoFile;

// On standard error; nobody is left to be told where that fails.
fn say(stderr: &impl Print, words: &[u8]) {
    let _ = stderr.write_all(words);
}

// A file that cannot be read, by its name, and why: the system's words for the error, without its number.
fn unread(stderr: &impl Print, name: &[u8], why: io::Error) -> NoFile {
    let text = InlineText::<256>::of(why);
    let words = text.as_str();
    let end = words.find(" (os error ").unwrap_or(words.len());
    say(stderr, b"mend: ");
    say(stderr, name);
    say(stderr, b": ");
    say(stderr, &words.as_bytes()[..end]);
    say(stderr, b"\n");
    NoFile
}

// The system's error for an argument that does not fill the buffer.
fn not_filled(why: FillError) -> io::Error {
    io::Error::from_raw_os_error(match why {
        FillError::NotPresent => EINVAL,
        FillError::TooLong => ENAMETOOLONG,
    })
}

// Reads the file of this name into the text, and returns its length; or none, where it is longer. Files are opened by names in UTF-8 alone.
fn read_file(rt: &impl Files, name: &[u8], text: &mut [u8]) -> io::Result<Option<usize>>
    ensures { IfOk result (λ read. IfSome read (λ n. n ≤ length text.new)) }
{
    let Ok(path) = str::from_utf8(name) else {
        return Err(io::Error::from_raw_os_error(EILSEQ));
    };
    let mut file = fs::open(rt, path)?;
    let first = file.read(text)?;
    match read_text(&mut file, &mut text[first..]) {
        Some(rest) => Ok(Some(first + rest)),
        None => Ok(None),
    }
}

// The same of the file that argument i names.
fn taken(
    rt: &(impl Env + Files),
    stderr: &impl Print,
    i: usize,
    text: &mut [u8],
) -> Result<Option<usize>, NoFile>
    ensures { IfOk result (λ read. IfSome read (λ n. n ≤ length text.new)) }
{
    let mut buffer = [0u8; 4096];
    let n = match rt.arg(i, &mut buffer) {
        Ok(n) => n,
        Err(why) => return Err(unread(stderr, b"a file's name", not_filled(why))),
    };
    let name = &buffer[..n];
    read_file(rt, name, text).map_err(|why| unread(stderr, name, why))
}

fn answer(list: &[u8], sheet: &[u8], out: &mut [u8], plain: bool) -> Result<usize, Full>
    ensures { MendedPromise plain list.now sheet.now out.old result out.new }
{
    if plain {
        sittings::mend_answer(list, sheet, out)
    } else {
        sittings::mend_answer_repeats(list, sheet, out)
    }
}

fn answer_long(list: &[u8], out: &mut [u8], plain: bool) -> Result<usize, Full>
    ensures { LongSheetPromise plain list.now out.old result out.new }
{
    if plain {
        sittings::mend_answer_long(list, out)
    } else {
        sittings::mend_answer_long_repeats(list, out)
    }
}

// What the same answer is, with the text at fault.
fn mend_sheet(list: &[u8], sheet: &[u8], out: &mut [u8], plain: bool) -> Result<usize, Unmended>
    ensures { MendPromise plain list.now sheet.now out.old result out.new }
{
    if plain {
        sittings::mend_sheet(list, sheet, out)
    } else {
        sittings::mend_sheet_repeats(list, sheet, out)
    }
}

// Which text is at fault, and its line, by its number, on standard error. 18 has none. Each piece is told by itself, so that what a stream takes of it does
// not depend on whether there is room for the rest.
fn blame(stderr: &impl Print, which: &[u8], line: usize, text: &[u8]) {
    say(stderr, which);
    if line == 0 {
        say(stderr, b" has more than 65,536 bytes\n");
        return;
    }
    say(stderr, b" is at fault, line ");
    let _ = stderr.print(line);
    say(stderr, b":\n    ");
    say(stderr, lines::line_no(text, line - 1));
    say(stderr, b"\n");
}

fn blame_list(stderr: &impl Print, why: lists::Unread, list: &[u8]) {
    blame(
        stderr,
        b"mend: the list",
        Refusal::from(why.why).line(why.line),
        list,
    );
}

// Both texts are there.
fn mended(rt: &impl Print, stderr: &impl Print, list: &[u8], sheet: &[u8], plain: bool) {
    let mut out = [0u8; ROOM];
    let written = answer(list, sheet, &mut out, plain);
    programs::print(rt, written, &out);
    match mend_sheet(list, sheet, &mut out, plain) {
        Err(Unmended::OfList(why)) => blame_list(stderr, why, list),
        Err(Unmended::OfSheet(why)) => {
            blame(
                stderr,
                b"mend: the sheet",
                Refusal::from(why.why).line(why.line),
                sheet,
            );
        }
        Ok(_) | Err(Unmended::Full) => {}
    }
}

// The list is too long: that comes before all else, and what slotsheet prints for it is printed.
fn long_list(rt: &impl Print, stderr: &impl Print) {
    let mut out = [0u8; 64];
    let written = sittings::answer_long(&mut out);
    programs::print(rt, written, &out);
    blame(stderr, b"mend: the list", 0, b"");
}

// The sheet is too long: only the list's own refusals come before that.
fn long_sheet(rt: &impl Print, stderr: &impl Print, list: &[u8], plain: bool) {
    let mut out = [0u8; 64];
    let written = answer_long(list, &mut out, plain);
    programs::print(rt, written, &out);
    match mend_sheet(list, b"", &mut out, plain) {
        Err(Unmended::OfList(why)) => blame_list(stderr, why, list),
        _ => blame(stderr, b"mend: the sheet", 0, b""),
    }
}

// The list's name is argument `first`, and the sheet's the next. Two buffers of 65,536 bytes, zero at the start.
fn run(
    rt: &(impl Env + Files + Print),
    stderr: &impl Print,
    first: usize,
    plain: bool,
) -> Result<(), NoFile>
    requires { first ≤ 2 }
{
    let mut list = [0u8; 65536];
    let mut sheet = [0u8; 65536];
    let a = taken(rt, stderr, first, &mut list)?;
    let b = taken(rt, stderr, first + 1, &mut sheet)?;
    match (a, b) {
        (None, _) => long_list(rt, stderr),
        (Some(n), None) => long_sheet(rt, stderr, &list[..n], plain),
        (Some(n), Some(m)) => mended(rt, stderr, &list[..n], &sheet[..m], plain),
    }
    Ok(())
}

// How many arguments there are, of five. The first is the program's own name.
fn argument_count(rt: &impl Env) -> usize {
    (0..5).take_while(|&i| is_given(rt, i)).count()
}

// Whether the arguments ask for the plain reading of the list, or for the one that allows repeats; or none, where they ask for something else.
fn is_plain(rt: &impl Env) -> Option<bool> {
    match (argument_count(rt), allows_repeats(rt)) {
        (3, false) => Some(true),
        (4, true) => Some(false),
        _ => None,
    }
}

fn main(rt: HostRuntime) {
    let stderr = rt.stderr();
    match is_plain(&rt) {
        Some(plain) => {
            let _ = run(&rt, &stderr, if plain { 1 } else { 2 }, plain);
        }
        None => say(&stderr, b"usage: mend [--repeats] LIST SHEET\n"),
    }
}
