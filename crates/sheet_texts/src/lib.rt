// The sheets of divisions, written: "groups K", then each group's size and members. What is written is accepted by the check against
// every list that it does not clash with (proofs/Calls.antt).
// The text is composed aside, in a buffer that every sheet fits, and copied whole: nothing is written where it does not fit.
#![tactic(auto)]

ghost use Rattle.std.specs.Prelude.{◌≡◌, ◌+◌, ◌≤◌, ◌<◌, length, take};
ghost use Rattle.refusals.specs.Table.{number_of};
ghost use Rattle.clashes.specs.Divisions.{Canon, groups};
ghost use Rattle.lines.specs.Numeral.{Put};
ghost use Rattle.sheet_texts.specs.Sheet.{numbering, members_of, member_lines, group_text, groups_text, sheet_text};
ghost use Rattle.sheet_texts.specs.Promise.{numbers_of_lem, WritePromise};

use refusals::Refusal;

// No list has more entries.
const MOST: usize = 64;

// Why a sheet is not written: document 01's refusals 1, 38 (with the lowest index at fault) and 19.
#[derive(Clone, Copy, PartialEq, Eq)]
pub enum Unwritten {
    Many,
    Colours(usize),
    Full,
}

// Document 01's numbers of an answer; those that it does not name are 0.
#[derive(Clone, Copy)]
pub struct Numbers {
    pub number: usize,
    pub index: usize,
    pub length: usize,
}

// A sheet's bytes, and how many there are.
#[derive(Clone, Copy)]
pub struct Composed {
    pub bytes: [u8; 768],
    pub length: usize,
}

impl Composed {
    // The sheet.
    pub fn as_slice(&self) -> &[u8]
        requires { self.now.length ≤ 768 }
        ensures { result.now ≡ take self.now.length self.now.bytes }
    {
        &self.bytes[..self.length]
    }
}

// How many group numbers are used, each by first use from 0; or the lowest index at which one is not.
fn number(colours: &[u8]) -> Result<usize, usize>
    ensures { result ≡ numbering colours.now }
{
    let mut used: usize = 0;
    for (i, &colour) in colours.iter().enumerate() {
        let g = usize::from(colour);
        if used < g {
            return Err(i);
        }
        if g == used {
            used += 1;
        }
    }
    Ok(used)
}

// How many members group g has.
fn size_of(colours: &[u8], g: usize) -> usize
    ensures { (result ≡ length (members_of colours.now 0 g)) × (result ≤ length colours.now) }
{
    let mut size: usize = 0;
    for &colour in colours {
        if usize::from(colour) == g {
            size += 1;
        }
    }
    size
}

// Puts the members of group g at `at`, a line each.
fn put_members(out: &mut [u8], at: usize, colours: &[u8], g: usize) -> usize
    requires { (length colours.now ≤ 64) × (at + length (member_lines (members_of colours.now 0 g)) ≤ length out.old) }
    ensures { Put out.old at (member_lines (members_of colours.now 0 g)) out.new result }
{
    let mut a = at;
    for (i, &colour) in colours.iter().enumerate() {
        if usize::from(colour) == g {
            a = lines::put_one(out, a, b"", i + 1);
        }
    }
    a
}

// Puts group g at `at`: its size, and its members.
fn put_group(out: &mut [u8], at: usize, colours: &[u8], g: usize) -> usize
    requires { (length colours.now ≤ 64) × (at + length (group_text colours.now g) ≤ length out.old) }
    ensures { Put out.old at (group_text colours.now g) out.new result }
{
    let size = size_of(colours, g);
    let a = lines::put_one(out, at, b"size ", size);
    put_members(out, a, colours, g)
}

// Puts k groups at `at`.
fn put_groups(out: &mut [u8], at: usize, colours: &[u8], k: usize) -> usize
    requires { (length colours.now ≤ 64) × (at + length (groups_text colours.now 0 k) ≤ length out.old) }
    ensures { Put out.old at (groups_text colours.now 0 k) out.new result }
{
    let mut a = at;
    for g in 0..k {
        a = put_group(out, a, colours, g);
    }
    a
}

// Puts the whole sheet of k groups.
fn put_sheet(out: &mut [u8], colours: &[u8], k: usize) -> usize
    requires { (length colours.now ≤ 64) × (k ≡ groups 0 colours.now) × (k ≤ 64) × (length (sheet_text colours.now) ≤ length out.old) }
    ensures { Put out.old 0 (sheet_text colours.now) out.new result }
{
    let a = lines::put_one(out, 0, b"groups ", k);
    put_groups(out, a, colours, k)
}

// The sheet of colour bytes that are numbered by first use and use k numbers.
pub fn compose(colours: &[u8], k: usize) -> Composed
    requires { (length colours.now ≤ 64) × Canon 0 colours.now × (k ≡ groups 0 colours.now) }
    ensures { (result.length ≤ 768) × (result.length ≡ length (sheet_text colours.now)) × (take result.length result.bytes ≡ sheet_text colours.now) }
{
    let mut bytes = [0u8; 768];
    let length = put_sheet(&mut bytes, colours, k);
    Composed { bytes, length }
}

// Writes the sheet of these colour bytes.
pub fn write_sheet(colours: &[u8], out: &mut [u8]) -> Result<usize, Unwritten>
    ensures { WritePromise colours.now out.old result out.new }
{
    if MOST < colours.len() {
        return Err(Unwritten::Many);
    }
    let k = number(colours).map_err(Unwritten::Colours)?;
    let composed = compose(colours, k);
    let text = composed.as_slice();
    if out.len() < text.len() {
        return Err(Unwritten::Full);
    }
    Ok(lines::put_word(out, 0, text))
}

impl Numbers {
    // The numbers of a refusal, with the index that it names.
    fn refused(why: Refusal, index: usize) -> Numbers
        ensures { (result.number ≡ number_of why) × (result.index ≡ index) × (result.length ≡ 0) }
    {
        Numbers {
            number: why.number(),
            index,
            length: 0,
        }
    }
}

impl From<Result<usize, Unwritten>> for Numbers {
    ghost from_gives = { λ x y. y ≡ numbers_of_lem x };

    fn from(answer: Result<usize, Unwritten>) -> Numbers {
        match answer {
            Ok(length) => Numbers {
                number: 0,
                index: 0,
                length,
            },
            Err(Unwritten::Many) => Numbers::refused(Refusal::Many, 0),
            Err(Unwritten::Colours(index)) => Numbers::refused(Refusal::Colours, index),
            Err(Unwritten::Full) => Numbers::refused(Refusal::Full, 0),
        }
    }
}
