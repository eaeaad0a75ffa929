// A hand-edited sheet, put right (document 02, Ask 9): the code. What mending is, and what it gives, is in the crate mends.
// The sheet is gone through once, which finds its own faults and what is kept; the lines to be reported as dropped may be tens of thousands, so they are not
// held but found again, in a second pass, when the output's length is known and there is room for it.
#![tactic(auto)]

ghost use Rattle.std.specs.Prelude.{ℕ, ◌≡◌, ◌++◌, ◌+◌, ◌*◌, ◌≤◌, ◌<◌, length};
ghost use Rattle.sets.specs.Lists.{members};
ghost use Rattle.sets.specs.Set.{has as member};
ghost use Rattle.clashes.specs.Matrix.{matrix, Valid};
ghost use Rattle.sheets.specs.Sound.{Within};
ghost use Rattle.lines.specs.Numeral.{Put};
ghost use Rattle.mends.specs.Typed.{groups_of, size_of, member_of_lem, step_of, met as met_of};
ghost use Rattle.mends.specs.Mend.{taken as taken_of, sees as sees_of, closed as closed_of, group_place, start};
ghost use Rattle.mends.specs.Report.{dropped_text, entry_line, put_text};
ghost use Rattle.mends.specs.Promise.{mend_sheet_lem, MendPromise};
ghost use Rattle.mending.specs.Rows.{RowsOf};
ghost use Rattle.mending.specs.Held.{going_of, Fits, Membered, cut_of, dropped_more, dropped_of, ThroughOf};
ghost use Rattle.mending.specs.Places.{AgainOf, NumberedOf};
ghost use Rattle.mending.specs.Calls.{GoneAs, WholeAs, mended_of, Answered};

mod groups;

use groups::admits;
pub use groups::{Groups, Numbered};
use lists::Gathered;
use mends::{Counts, Step, Unmended};
use sheets::{Refused, SheetFault};

// What is known on the way through a sheet: as sets, the entries seen, those lifted and those kept of this group; what was kept of each group before it; and
// how many bytes the report has so far on dropped lines.
#[derive(Clone, Copy)]
pub struct Gone {
    pub seen: u64,
    pub lifted: u64,
    pub mates: u64,
    pub groups: Groups,
    pub bytes: usize,
}

// The longest sheet that is mended.
const LONGEST: usize = 65536;

// ---- one line

// The first line: "groups K".
fn groups_line(a: Option<usize>) -> Result<Step, SheetFault>
    ensures { result ≡ groups_of a }
{
    match a {
        Some(left) => Ok(Step::Groups(Counts { left, need: 0 })),
        None => Err(SheetFault::Line),
    }
}

// A size, where groups are to come.
fn size_line(c: Counts, a: Option<usize>) -> Result<Step, SheetFault>
    requires { 1 ≤ c.left }
    ensures { result ≡ size_of c a }
{
    match a {
        Some(need) if need >= 1 => Ok(Step::Size(Counts {
            left: c.left - 1,
            need,
        })),
        _ => Err(SheetFault::Line),
    }
}

// A member, where members are to come.
fn member_line(c: Counts, a: Option<usize>) -> Result<Step, SheetFault>
    requires { 1 ≤ c.need }
    ensures { result ≡ member_of_lem c a }
{
    match a {
        Some(u) => Ok(Step::Member(
            Counts {
                left: c.left,
                need: c.need - 1,
            },
            u,
        )),
        None => Err(SheetFault::Line),
    }
}

// What a line is, by its place.
fn line_step(c: Option<Counts>, l: &[u8]) -> Result<Step, SheetFault>
    ensures { result ≡ step_of c l.now }
{
    let Some(c) = c else {
        return groups_line(sheets::behind(l, b"groups "));
    };
    if c.need >= 1 {
        return member_line(c, lines::one(l));
    }
    if c.left >= 1 {
        return size_line(c, sheets::behind(l, b"size "));
    }
    Err(SheetFault::Extra)
}

// Whether all counts are met.
fn met(c: Option<Counts>) -> bool
    ensures { result ≡ met_of c }
{
    matches!(c, Some(Counts { left: 0, need: 0 }))
}

// A last line that is not ended: 37 or 30.
fn unended(c: Option<Counts>) -> SheetFault
    ensures { result ≡ cut_of c }
{
    if met(c) {
        SheetFault::Extra
    } else {
        SheetFault::Line
    }
}

// ---- one member, one group

// Whether the member u is not dropped: it is an entry, and was not seen before.
fn taken(n: usize, seen: u64, u: usize) -> bool
    requires { n ≤ 64 }
    ensures { result ≡ taken_of n (member seen) u }
{
    1 <= u && u <= n && !sets::has(seen, u - 1)
}

impl Gone {
    // Nothing is known yet.
    fn new() -> Gone
        ensures { (going_of result ≡ start) × ((n : ℕ) → Fits n result) × (result.bytes ≡ 0) }
    {
        Gone {
            seen: 0,
            lifted: 0,
            mates: 0,
            groups: Groups::new(),
            bytes: 0,
        }
    }

    // The member u, on this line: dropped, lifted out or kept.
    fn member(&mut self, list: &Gathered, line: usize, u: usize)
        requires { RowsOf list.now.n list.now.rows × Fits list.now.n self.old × (line < 1000000) × (self.old.bytes < 100000000) }
        ensures { Membered list.now.n list.now.rows self.old line u self.new }
    {
        let seen = self.seen;
        if !taken(list.n, seen, u) {
            self.bytes += lines::number_len(line) + 9;
            return;
        }
        let e = u - 1;
        if admits(list, self.mates, e) {
            self.seen = sets::with(seen, e);
            self.mates = sets::with(self.mates, e);
        } else {
            self.seen = sets::with(seen, e); // met again, it is dropped
            self.lifted = sets::with(self.lifted, e);
        }
    }

    // A group is at its end: it stays only if something was kept of it.
    fn close(&mut self, n: usize)
        requires { (n ≤ 64) × Fits n self.old }
        ensures { (going_of self.new ≡ closed_of n (going_of self.old)) × Fits n self.new × (self.new.bytes ≡ self.old.bytes) }
    {
        if self.mates != 0 {
            self.groups.push(self.mates);
            self.mates = 0;
        }
    }

    // The entries to be put again: those lifted, and those absent.
    fn again(&self, n: usize) -> u64
        requires { (n ≤ 64) × Fits n self.now }
        ensures { AgainOf n self.now result }
    {
        let absent = sets::less(sets::below(n), self.seen);
        sets::join(self.lifted, absent)
    }
}

// ---- the sheet, gone through

// The sheet, gone through: what was kept and lifted, or its first fault.
fn go_through(list: &Gathered, sheet: &[u8]) -> Result<Gone, Refused>
    requires { RowsOf list.now.n list.now.rows × (length sheet.now ≤ 65536) }
    ensures { ThroughOf list.now.n (matrix list.now.rows) sheet.now result }
{
    let mut c = None;
    let mut g = Gone::new();
    let mut at: usize = 0;
    let mut line: usize = 1;
    while at < sheet.len() {
        let e = lines::line_end(sheet, at);
        if sheet.len() <= e {
            let why = unended(c);
            return Err(Refused { why, line });
        }
        let step = line_step(c, &sheet[at..e]).map_err(|why| Refused { why, line })?;
        match step {
            Step::Groups(d) => {
                c = Some(d);
            }
            Step::Size(d) => {
                c = Some(d);
                g.close(list.n);
            }
            Step::Member(d, u) => {
                c = Some(d);
                g.member(list, line, u);
            }
        }
        at = e + 1;
        line += 1;
    }
    if !met(c) {
        return Err(Refused {
            why: SheetFault::Ends,
            line,
        });
    }
    g.close(list.n);
    Ok(g)
}

// ---- the report

// How many bytes the lines of the entries that were put again take, each with its number and its group's.
fn puts_len(again: u64, colours: &[u8]) -> usize
    requires { Within (length colours.now) again × (length colours.now ≤ 64) }
    ensures { (result ≡ length (put_text colours.now (members (member again) 64))) × (result ≤ 64 * 32) }
{
    let mut bytes: usize = 0;
    let mut left = again;
    while left != 0 {
        let e = sets::lowest(left);
        bytes += lines::number_len(e + 1) + lines::number_len(usize::from(colours[e]) + 1) + 12;
        left = sets::rest(left);
    }
    bytes
}

// Puts the line of the entry e, which was put again into group g, at `at`: both count from 1 in it.
fn put_entry(out: &mut [u8], at: usize, e: usize, g: usize) -> usize
    requires { (e < 64) × (g < 256) × (at + length (entry_line e g) ≤ length out.old) }
    ensures { Put out.old at (entry_line e g) out.new result }
{
    let a = lines::put_word(out, at, b"put ");
    let b = lines::put_number(out, a, e + 1);
    lines::put_one(out, b, b" group ", g + 1)
}

// Puts these lines at `at`.
fn put_puts(out: &mut [u8], at: usize, again: u64, colours: &[u8]) -> usize
    requires { Within (length colours.now) again × (length colours.now ≤ 64) × (at + length (put_text colours.now (members (member again) 64)) ≤ length out.old) }
    ensures { Put out.old at (put_text colours.now (members (member again) 64)) out.new result }
{
    let mut a = at;
    let mut left = again;
    while left != 0 {
        let e = sets::lowest(left);
        a = put_entry(out, a, e, usize::from(colours[e]));
        left = sets::rest(left);
    }
    a
}

// The entries seen once the member u was gone through.
fn sees(n: usize, seen: u64, u: usize) -> u64
    requires { n ≤ 64 }
    ensures { member result ≡ sees_of n (member seen) u }
{
    if taken(n, seen, u) {
        sets::with(seen, u - 1)
    } else {
        seen
    }
}

// Puts the line of a member on this line of the sheet at `at`, if it is dropped.
fn put_drop(out: &mut [u8], at: usize, n: usize, seen: u64, line: usize, u: usize) -> usize
    requires { (n ≤ 64) × (line < 1000000) × (at + length (dropped_text (dropped_more n (member seen) line u)) ≤ length out.old) }
    ensures { Put out.old at (dropped_text (dropped_more n (member seen) line u)) out.new result }
{
    if taken(n, seen, u) {
        return at;
    }
    lines::put_one(out, at, b"dropped ", line)
}

// Puts a line for each dropped line of the sheet at the start, up to the sheet's first fault.
fn put_dropped(out: &mut [u8], n: usize, sheet: &[u8]) -> usize
    requires { (n ≤ 64) × (length sheet.now ≤ 65536) × (length (dropped_text (dropped_of n sheet.now)) ≤ length out.old) }
    ensures { Put out.old 0 (dropped_text (dropped_of n sheet.now)) out.new result }
{
    let mut a: usize = 0;
    let mut c = None;
    let mut seen: u64 = 0;
    let mut at: usize = 0;
    let mut line: usize = 1;
    while at < sheet.len() {
        let e = lines::line_end(sheet, at);
        if sheet.len() <= e {
            return a;
        }
        let Ok(step) = line_step(c, &sheet[at..e]) else {
            return a;
        };
        match step {
            Step::Groups(d) => {
                c = Some(d);
            }
            Step::Size(d) => {
                c = Some(d);
            }
            Step::Member(d, u) => {
                c = Some(d);
                a = put_drop(out, a, n, seen, line, u);
                seen = sees(n, seen, u);
            }
        }
        at = e + 1;
        line += 1; // the sheet's lines, dropped or not
    }
    a
}

// ---- the call

// Entries put again, and groups in order.
fn settled(list: &Gathered, g: &Gone, again: u64) -> Numbered
    requires { RowsOf list.now.n list.now.rows × Valid list.now.n (matrix list.now.rows) × GoneAs list.now.n (matrix list.now.rows) g.now × AgainOf list.now.n g.now again }
    ensures { NumberedOf list.now.n (group_place (mended_of list.now.n (matrix list.now.rows) (going_of g.now))) result }
{
    let mut groups = g.groups;
    groups.admit_all(list, again);
    groups.in_order(list.n)
}

// Puts the whole output at the start: the report, and the sheet.
fn put_output(
    out: &mut [u8],
    n: usize,
    sheet: &[u8],
    again: u64,
    colours: &[u8],
    text: &[u8],
) -> usize
    requires { (n ≤ 64) × (length sheet.now ≤ 65536) × Within (length colours.now) again × (length colours.now ≤ 64) × (0 + length (dropped_text (dropped_of n sheet.now) ++ (put_text colours.now (members (member again) 64) ++ text.now)) ≤ length out.old) }
    ensures { Put out.old 0 (dropped_text (dropped_of n sheet.now) ++ (put_text colours.now (members (member again) 64) ++ text.now)) out.new result }
{
    let a = put_dropped(out, n, sheet);
    let b = put_puts(out, a, again, colours);
    lines::put_word(out, b, text)
}

// The output of a sheet that was gone through, where there is room for it.
fn written(list: &Gathered, sheet: &[u8], g: &Gone, out: &mut [u8]) -> Result<usize, Unmended>
    requires { RowsOf list.now.n list.now.rows × Valid list.now.n (matrix list.now.rows) × (length sheet.now ≤ 65536) × WholeAs list.now.n (matrix list.now.rows) sheet.now g.now }
    ensures { Answered (mend_sheet_lem list.now.n (matrix list.now.rows) sheet.now) out.old result out.new }
{
    let n = list.n;
    let again = g.again(n);
    let order = settled(list, g, again);
    let colours = &order.colours[..n];
    let text = sheet_texts::compose(colours, order.groups);
    let puts = puts_len(again, colours);
    if out.len() < g.bytes + puts + text.length {
        return Err(Unmended::Full);
    }
    let bytes = &text.bytes[..text.length];
    let whole = put_output(out, n, sheet, again, colours, bytes);
    Ok(whole)
}

// Mends a sheet for a list.
fn mend_lines(list: &Gathered, sheet: &[u8], out: &mut [u8]) -> Result<usize, Unmended>
    requires { RowsOf list.now.n list.now.rows × Valid list.now.n (matrix list.now.rows) }
    ensures { Answered (mend_sheet_lem list.now.n (matrix list.now.rows) sheet.now) out.old result out.new }
{
    if LONGEST < sheet.len() {
        let long = Refused {
            why: SheetFault::Long,
            line: 0,
        };
        return Err(long.into());
    }
    let g = go_through(list, sheet)?;
    written(list, sheet, &g, out)
}

// Mends a sheet against a clash text: the report and the mended sheet go to the lent bytes. In the list repeats are refused where `plain` is true, else
// allowed.
pub fn mend_sheet(list: &[u8], sheet: &[u8], out: &mut [u8], plain: bool) -> Result<usize, Unmended>
    ensures { MendPromise plain list.now sheet.now out.old result out.new }
{
    let list = lists::gather(list, 64, plain)?;
    mend_lines(&list, sheet, out)
}
