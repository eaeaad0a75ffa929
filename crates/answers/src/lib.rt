// What the programs print. slotsheet, for a clash text: the sheet of its fewest sittings, or the refusal in a line. mend, for a clash text and a sheet: what was
// done and the mended sheet, or the refusal in a line.
#![tactic(auto)]

ghost use Rattle.std.specs.Prelude.{◌+◌, ◌≤◌, ◌<◌, length};
ghost use Rattle.refusals.specs.Table.{number_of};
ghost use Rattle.clashes.specs.Matrix.{Sound};
ghost use Rattle.lines.specs.Numeral.{Put};
ghost use Rattle.answers.specs.Printed.{place_text, refused_text, rows_text, printed, IsText, Fitted, AnswerPromise, LongPromise};
ghost use Rattle.answers.specs.Mended.{MendedPromise, LongSheetPromise};

use mends::Unmended;
use refusals::Refusal;
use sheet_texts::{Composed, compose};

// The text does not fit, which is document 01's 19.
#[derive(Clone, Copy, PartialEq, Eq)]
pub struct Full;

// The nodes that the walk may enter.
const BUDGET: u64 = 1000000;

// " line L" or, where there is a column, " line L column C", and a line feed.
fn put_place(out: &mut [u8], at: usize, l: usize, c: usize) -> usize
    requires { ((l < 10000000) × (c < 10000000)) × (at + length (place_text l c) ≤ length out.old) }
    ensures { Put out.old at (place_text l c) out.new result }
{
    if c == 0 {
        return lines::put_one(out, at, b" line ", l);
    }
    let a = lines::put_word(out, at, b" line ");
    let b = lines::put_number(out, a, l);
    lines::put_one(out, b, b" column ", c)
}

// "refused R line L" and a line feed, by the refusal's number; with " column C" before it where there is a column.
fn refused(why: Refusal, l: usize, c: usize) -> Composed
    requires { (l < 10000000) × (c < 10000000) }
    ensures { IsText (refused_text (number_of why) l c) result }
{
    let mut bytes = [0u8; 768];
    let a = lines::put_word(&mut bytes, 0, b"refused ");
    let b = lines::put_number(&mut bytes, a, why.number());
    let length = put_place(&mut bytes, b, l, c);
    Composed { bytes, length }
}

// What is printed for the rows of a list.
fn of_rows(rows: &[u64]) -> Composed
    requires { Sound rows.now }
    ensures { IsText (rows_text rows.now) result }
{
    let mut colours = [0u8; 64];
    match walk::fewest(rows, &mut colours, BUDGET) {
        Ok(found) => compose(&colours[..rows.len()], found.k),
        Err(_) => refused(Refusal::Budget, 0, 0),
    }
}

// What is printed for a text; repeats are refused where `plain` is true, else allowed.
fn of_text(text: &[u8], plain: bool) -> Composed
    ensures { IsText (printed plain text.now) result }
{
    match lists::gather(text, 64, plain) {
        Ok(list) => of_rows(&list.rows[..list.n]),
        Err(unread) => {
            let r = Refusal::from(unread.why);
            refused(r, r.line(unread.line), r.column(unread.column))
        }
    }
}

// Puts a composed text at the start, where it fits whole.
fn fit(composed: Composed, out: &mut [u8]) -> Result<usize, Full>
    requires { composed.length ≤ 768 }
    ensures { Fitted composed out.old result out.new }
{
    let text = composed.as_slice();
    if out.len() < text.len() {
        return Err(Full);
    }
    Ok(lines::put_word(out, 0, text))
}

// Writes what slotsheet prints for this text to the lent bytes; repeats are refused where `plain` is true, else allowed.
pub fn answer(text: &[u8], out: &mut [u8], plain: bool) -> Result<usize, Full>
    ensures { AnswerPromise plain text.now out.old result out.new }
{
    fit(of_text(text, plain), out)
}

// Writes what slotsheet prints for any text that is too long to be read, for a caller that has no room for one.
pub fn answer_long(out: &mut [u8]) -> Result<usize, Full>
    ensures { LongPromise out.old result out.new }
{
    fit(refused(Refusal::Long, 0, 0), out)
}

// Writes what mend prints for this clash text and this sheet to the lent bytes: report and mended sheet, or the refusal in a line. Where the list is at fault
// that is what slotsheet prints for it.
pub fn mended(list: &[u8], sheet: &[u8], out: &mut [u8], plain: bool) -> Result<usize, Full>
    ensures { MendedPromise plain list.now sheet.now out.old result out.new }
{
    match mending::mend_sheet(list, sheet, out, plain) {
        Ok(length) => Ok(length),
        Err(Unmended::OfList(_)) => answer(list, out, plain),
        Err(Unmended::OfSheet(why)) => {
            let r = Refusal::from(why.why);
            fit(refused(r, r.line(why.line), 0), out)
        }
        Err(Unmended::Full) => Err(Full),
    }
}

// Writes what mend prints for this clash text and any sheet that is too long to be read, for a caller that has no room for one.
pub fn mended_long(list: &[u8], out: &mut [u8], plain: bool) -> Result<usize, Full>
    ensures { LongSheetPromise plain list.now out.old result out.new }
{
    match lists::gather(list, 64, plain) {
        Ok(_) => answer_long(out),
        Err(_) => answer(list, out, plain),
    }
}
