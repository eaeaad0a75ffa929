// Awkward clash texts from standard input, and what both readings answer to each; each accepted list, and some matrices, written again.
// Before each text stands a line "R B": how many rows are lent, and how many bytes the text has. What this writes is held to the file
// stdout, which tests/awkward_texts.py makes from the papers alone.
#![tactic(auto)]

ghost use Rattle.std.specs.Prelude.{◌≡◌, ◌≤◌, IfOk, IfSome, length};
ghost use Rattle.trials_lists.specs.Case.{Within};

use lines::Reader;
use lists::Unwritten;
use refusals::Refusal;
use std::io;

// A text of the file: how many rows are lent, and where it starts and ends.
#[derive(Clone, Copy)]
struct Case {
    room: usize,
    start: usize,
    end: usize,
}

// Bytes to lend, ample for any list's text.
const DOTS: [u8; 17000] = [b'.'; 17000];

fn put_refused(rt: &impl Print, why: Refusal, row: usize, out: &[u8]) -> io::Result<()> {
    print!(rt; "written {} row {row} ", why.number())?;
    trials::put_kept(rt, out, b'.')
}

// The text's length, and where it is asked for the text and what became of the bytes after it.
fn put_text(rt: &impl Print, out: &[u8], len: usize, show: bool) -> io::Result<()>
    requires { len ≤ length out.now }
{
    println!(rt; "written 0 length {len}")?;
    if show {
        rt.write_all(&out[..len])?;
        print!(rt; "rest ")?;
        trials::put_kept(rt, &out[len..], b'.')?;
    }
    Ok(())
}

// Writes a list to the lent bytes, all dots, and answers the text's length, or 0.
fn write(rt: &impl Print, rows: &[u64], out: &mut [u8], show: bool) -> io::Result<usize>
    ensures { IfOk result (λ len. len ≤ length out.old) }
{
    let (why, row) = match lists::write_list(rows, out) {
        Ok(len) => {
            put_text(rt, out, len, show)?;
            return Ok(len);
        }
        Err(Unwritten::OfRows(why)) => (Refusal::from(why), why.row()),
        Err(Unwritten::Full) => (Refusal::Full, 0),
    };
    put_refused(rt, why, row, out)?;
    Ok(0)
}

// A list is written thrice: with ample room, with just enough, and with one byte less.
fn written(rt: &impl Print, rows: &[u64]) -> io::Result<()> {
    let len = write(rt, rows, &mut DOTS, true)?;
    if 0 < len {
        write(rt, rows, &mut DOTS[..len], false)?;
        write(rt, rows, &mut DOTS[..len - 1], false)?;
    }
    Ok(())
}

// The list's rows and what became of the rows after them; and the list, written.
fn put_list(rt: &impl Print, lent: &[u64], n: usize) -> io::Result<()>
    requires { n ≤ length lent.now }
{
    print!(rt; "0 entries {n} rows")?;
    trials::put_rows(rt, &lent[..n])?;
    print!(rt; " rest ")?;
    trials::put_kept(rt, &lent[n..], 7)?;
    written(rt, &lent[..n])
}

fn put_line(rt: &impl Print, number: usize, start: usize, line: &[u8]) -> io::Result<()> {
    println!(rt; "line {number} at {start} length {}", line.len())
}

// Each line of a text with its number, where it starts and how long it is, by a reader.
fn put_lines(rt: &impl Print, text: &[u8]) -> io::Result<()> {
    let mut r = Reader::new(text);
    while !r.at_end() {
        put_line(rt, r.line_number(), r.position(), r.here())?;
        r = r.next();
    }
    Ok(())
}

// Reads one text into the lent rows, all 7; of a text that is refused each line is shown where it lies.
fn trial(rt: &impl Print, text: &[u8], lent: &mut [u64], plain: bool) -> io::Result<()> {
    match lists::read_list(text, lent, plain) {
        Err(refused) => {
            let number = Refusal::from(refused.why).number();
            print!(rt; "{number} line {} column {} ", refused.line, refused.column)?;
            trials::put_kept(rt, lent, 7)?;
            put_lines(rt, text)
        }
        Ok(n) => put_list(rt, lent, n),
    }
}

fn one_reading(rt: &impl Print, text: &[u8], room: usize, plain: bool) -> io::Result<()>
    requires { room ≤ 70 }
{
    trial(rt, text, &mut [7; 70][..room], plain)
}

// Text k by both readings: the plain one, and the one that allows repeats.
fn both_readings(rt: &impl Print, k: u64, text: &[u8], room: usize) -> io::Result<()>
    requires { room ≤ 70 }
{
    print!(rt; "{k} read ")?;
    one_reading(rt, text, room, true)?;
    print!(rt; "{k} repeats ")?;
    one_reading(rt, text, room, false)
}

// The text after the line "R B" that starts at `at`.
fn find(file: &[u8], at: usize) -> Option<Case>
    requires { at ≤ length file.now }
    ensures { IfSome result (λ c. Within at (length file.now) c) }
{
    let e = lines::line_end(file, at);
    if file.len() <= e {
        return None;
    }
    let (room, size) = lines::two(&file[at..e])?;
    let start = e + 1;
    if 70 < room || file.len() - start < size {
        return None;
    }
    Some(Case {
        room,
        start,
        end: start + size,
    })
}

// Each text of the file, with its number from 1.
fn texts(rt: &impl Print, file: &[u8]) -> io::Result<()> {
    let mut at = 0;
    let mut k = 1u64;
    while at < file.len() {
        let Some(case) = find(file, at) else {
            return println!(rt; "over");
        };
        both_readings(rt, k, &file[case.start..case.end], case.room)?;
        at = case.end;
        k = k.wrapping_add(1);
    }
    Ok(())
}

fn main(rt: HostRuntime) -> io::Result<()> {
    let mut file = [0; 300000];
    let len = trials::read_full(&rt, &mut file);
    texts(&rt, &file[..len])?;
    written(&rt, &[])?;
    written(&rt, &[0])?;
    written(&rt, &[2, 1])?;
    written(&rt, &[18, 5, 10, 20, 9])?;
    written(&rt, &[2])?;
    written(&rt, &[1])?;
    written(&rt, &[2, 0])?;
    written(&rt, &[0, 1])?;
    written(&rt, &[0; 65])?;
    written(&rt, &[4, 0, 1])?;
    written(&rt, &[6, 5, 3])?;
    written(&rt, &[0, 0, 4])
}
