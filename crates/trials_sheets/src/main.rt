// Awkward pairs of a clash text and a sheet from standard input, and what checking answers to each by both readings, with the line that the preview
// shows.
// Before each pair stand a line "L S", how many bytes the list and the sheet have, and a line with how many colour bytes are lent. After
// them, the sheets of some colour bytes. What this writes is held to the file stdout, which tests/awkward_sheets.py makes from document
// 01 alone.
#![tactic(auto)]

ghost use Rattle.std.specs.Prelude.{◌≤◌, IfSome, length};
ghost use Rattle.trials_sheets.specs.Case.{Within};

use std::io;

// A pair of the file: how many colour bytes are lent, and where the list starts, the sheet starts, and the pair ends.
#[derive(Clone, Copy)]
struct Case {
    room: usize,
    start: usize,
    middle: usize,
    end: usize,
}

// Bytes to lend, ample for any sheet.
const DOTS: [u8; 768] = [b'.'; 768];

// Each colour byte; a dash for one that is as it was.
fn put_colours(rt: &impl Print, colours: &[u8]) -> io::Result<()> {
    for &colour in colours {
        if colour == 255 {
            print!(rt; " -")?;
        } else {
            print!(rt; " {colour}")?;
        }
    }
    Ok(())
}

// How many colour bytes were set.
fn count_set(colours: &[u8]) -> usize
    ensures { result ≤ length colours.now }
{
    colours
        .iter()
        .position(|&colour| colour == 255)
        .unwrap_or(colours.len())
}

// Writes the sheet of some colour bytes to lent bytes, all dots, and answers its length, or 0.
fn write(rt: &impl Print, colours: &[u8], out: &mut [u8], show: bool) -> io::Result<usize> {
    let m = sheet_texts::Numbers::from(sheet_texts::write_sheet(colours, out));
    let len = m.length;
    print!(rt; "written {} index {} length {len} rest ", m.number, m.index)?;
    let (text, rest) = out.split_at(len.min(out.len()));
    trials::put_kept(rt, rest, b'.')?;
    if show {
        rt.write_all(text)?;
    }
    Ok(len)
}

// A sheet is written thrice: with ample room, with just enough, and with one byte less.
fn written(rt: &impl Print, colours: &[u8]) -> io::Result<()> {
    let len = write(rt, colours, &mut DOTS, true)?;
    if 0 < len && len <= 768 {
        write(rt, colours, &mut DOTS[..len], false)?;
        write(rt, colours, &mut DOTS[..len - 1], false)?;
    }
    Ok(())
}

fn put_checked(rt: &impl Print, m: sheets::Numbers) -> io::Result<()> {
    let text = m.text as usize;
    print!(rt;
        "number {} line {} column {} text {text} groups {} colours",
        m.number, m.line, m.column, m.groups
    )
}

fn put_shown(rt: &impl Print, part: &[u8]) -> io::Result<()> {
    print!(rt; " shown {} [", part.len())?;
    rt.write_all(part)?;
    println!(rt; "]")
}

// Checks one pair with the lent colour bytes, all 255; what is accepted is written again.
fn trial<'a>(
    rt: &impl Print,
    list: &'a [u8],
    sheet: &'a [u8],
    colours: &mut [u8],
    plain: bool,
) -> io::Result<()> {
    let room = colours.len();
    let m = sheets::Numbers::from(sheets::check_sheet(list, sheet, colours, plain));
    put_checked(rt, m)?;
    put_colours(rt, colours)?;
    put_shown(rt, sheets::fault_line(list, sheet, room, plain))?;
    if m.number == 0 {
        let n = count_set(colours);
        written(rt, &colours[..n])?;
    }
    Ok(())
}

fn one_reading<'a>(
    rt: &impl Print,
    list: &'a [u8],
    sheet: &'a [u8],
    room: usize,
    plain: bool,
) -> io::Result<()>
    requires { room ≤ 70 }
{
    // 255 is no group's number
    trial(rt, list, sheet, &mut [255; 70][..room], plain)
}

// Pair k by both readings of the list: the plain one, and the one that allows repeats.
fn both_readings<'a>(
    rt: &impl Print,
    k: u64,
    list: &'a [u8],
    sheet: &'a [u8],
    room: usize,
) -> io::Result<()>
    requires { room ≤ 70 }
{
    print!(rt; "{k} ")?;
    one_reading(rt, list, sheet, room, true)?;
    print!(rt; "{k} repeats ")?;
    one_reading(rt, list, sheet, room, false)
}

// The pair after the line with its colour bytes, which starts at `at`: so many bytes of a list, then so many of a sheet.
fn find_texts(file: &[u8], at: usize, list: usize, sheet: usize) -> Option<Case>
    requires { at ≤ length file.now }
    ensures { IfSome result (λ c. Within at (length file.now) c) }
{
    let e = lines::line_end(file, at);
    if file.len() <= e {
        return None;
    }
    let room = lines::one(&file[at..e])?;
    let start = e + 1;
    if 70 < room || file.len() - start < list {
        return None;
    }
    let middle = start + list;
    if file.len() - middle < sheet {
        return None;
    }
    Some(Case {
        room,
        start,
        middle,
        end: middle + sheet,
    })
}

// The pair after the line "L S" that starts at `at`.
fn find(file: &[u8], at: usize) -> Option<Case>
    requires { at ≤ length file.now }
    ensures { IfSome result (λ c. Within at (length file.now) c) }
{
    let e = lines::line_end(file, at);
    if file.len() <= e {
        return None;
    }
    let (list, sheet) = lines::two(&file[at..e])?;
    find_texts(file, e + 1, list, sheet)
}

// Each pair of the file, with its number from 1.
fn pairs(rt: &impl Print, file: &[u8]) -> io::Result<()> {
    let mut at = 0;
    let mut k = 1u64;
    while at < file.len() {
        let Some(pair) = find(file, at) else {
            return println!(rt; "over");
        };
        both_readings(
            rt,
            k,
            &file[pair.start..pair.middle],
            &file[pair.middle..pair.end],
            pair.room,
        )?;
        at = pair.end;
        k = k.wrapping_add(1);
    }
    Ok(())
}

fn main(rt: HostRuntime) -> io::Result<()> {
    let mut file = [0; 400000];
    let len = trials::read_full(&rt, &mut file);
    pairs(&rt, &file[..len])?;
    written(&rt, &[])?;
    written(&rt, &[0])?;
    written(&rt, &[1])?;
    written(&rt, &[0, 0, 0])?;
    written(&rt, &[0, 1, 0, 1, 2])?;
    written(&rt, &[0, 2, 1])?;
    written(&rt, &[0, 1, 3, 2])?;
    written(&rt, &[0, 0, 255])?;
    written(&rt, &[0; 64])?;
    written(&rt, &[0; 65])?;
    written(&rt, &[1; 65])
}
