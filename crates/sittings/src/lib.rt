// The library's face: every function that a wizard calls. None asks its caller to check anything beforehand, each answers every input by one
// promise, and none writes to lent memory where it refuses. A call that is given a clash text exists for both readings: the plain one refuses an edge
// that stands a second time, either way round; the one whose name ends in `repeats` allows it. Both meet one promise.
#![tactic(auto)]

ghost use Rattle.std.specs.Prelude.{true, false};
ghost use Rattle.clashes.specs.Matrix.{Judged};
ghost use Rattle.bounds.specs.Names.{clique_set, clique_bound_lem, mycielskian};
ghost use Rattle.bounds.specs.Lent.{no_members, Answers};
ghost use Rattle.zykov.specs.Walk.{bounded_walk_lem, plain_walk_lem};
ghost use Rattle.walk.specs.Promise.{Promised};
ghost use Rattle.shrink.specs.Shrunk.{shrunk_walk};
ghost use Rattle.sittings.specs.Placing.{PlacingPromise};
ghost use Rattle.lists.specs.Promise.{ReadPromise, WritePromise};
ghost use Rattle.sheet_texts.specs.Promise.{WritePromise as SheetPromise};
ghost use Rattle.sheets.specs.Promise.{CheckPromise, PreviewPromise};
ghost use Rattle.sheets.specs.Place.{PlacePromise};
ghost use Rattle.mends.specs.Promise.{MendPromise};
ghost use Rattle.answers.specs.Printed.{AnswerPromise, LongPromise};
ghost use Rattle.answers.specs.Mended.{MendedPromise, LongSheetPromise};

use answers::Full;
use bounds::{Bound, clique_of};
use lists::Unread;
use mends::Unmended;
use refusals::{Invalid, Unsolved};
use sheets::Unchecked;
use walk::Fewest;

pub mod numbers;

// Is this the matrix of a clash list? If not, by which number, and at which row?
pub fn validity(rows: &[u64]) -> Result<(), Invalid>
    ensures { Judged rows.now result }
{
    clashes::validity(rows)
}

// The clique bound of a list, and the clique's members.
pub fn clique_bound(rows: &[u64]) -> Result<Bound, Invalid>
    ensures { Answers clique_bound_lem clique_set rows.now result }
{
    bounds::clique_bound(rows)
}

// The Mycielskian bound of a list.
pub fn mycielskian_bound(rows: &[u64]) -> Result<Bound, Invalid>
    ensures { Answers mycielskian no_members rows.now result }
{
    bounds::mycielskian_bound(rows)
}

// The fewest sittings of a list, by the bounded walk: k, nodes and the clique, and each entry's sitting in the lent bytes.
pub fn fewest(rows: &[u64], colours: &mut [u8], budget: u64) -> Result<Fewest, Unsolved>
    ensures { Promised (bounded_walk_lem mycielskian) rows.now colours.old budget result colours.new }
{
    walk::fewest(rows, colours, budget)
}

// The same by the plain walk, which has no bounds: k, nodes, complete graphs and the clique.
pub fn plain(rows: &[u64], colours: &mut [u8], budget: u64) -> Result<Fewest, Unsolved>
    ensures { Promised plain_walk_lem rows.now colours.old budget result colours.new }
{
    walk::plain(rows, colours, budget)
}

// The fewest sittings by the second engine, a search that never merges: k, its own nodes, and the clique, which the engine does not know. For testers.
pub fn fewest_by_placing(rows: &[u64], colours: &mut [u8], budget: u64) -> Result<Fewest, Unsolved>
    ensures { PlacingPromise rows.now colours.old budget result colours.new }
{
    let found = placing::fewest_by_placing(rows, colours, budget)?;
    Ok(Fewest {
        k: found.k,
        nodes: found.nodes,
        leaves: 0,
        clique: clique_of(rows),
    })
}

// The fewest sittings by the bounded walk over a shrunk list: entries go before it that can follow another or always find a group, and are put back after
// it. k, the nodes of that walk, and the full list's clique.
pub fn fewest_shrunk(rows: &[u64], colours: &mut [u8], budget: u64) -> Result<Fewest, Unsolved>
    ensures { Promised (shrunk_walk mycielskian) rows.now colours.old budget result colours.new }
{
    shrinking::fewest_shrunk(rows, colours, budget)
}

// Reads a clash text into the lent rows.
pub fn read_list(text: &[u8], rows: &mut [u64]) -> Result<usize, Unread>
    ensures { ReadPromise true text.now rows.old result rows.new }
{
    lists::read_list(text, rows, true)
}

pub fn read_list_repeats(text: &[u8], rows: &mut [u64]) -> Result<usize, Unread>
    ensures { ReadPromise false text.now rows.old result rows.new }
{
    lists::read_list(text, rows, false)
}

// Writes the text of a list to the lent bytes.
pub fn write_list(rows: &[u64], out: &mut [u8]) -> Result<usize, lists::Unwritten>
    ensures { WritePromise rows.now out.old result out.new }
{
    lists::write_list(rows, out)
}

// Writes the sheet of these colour bytes to the lent bytes.
pub fn write_sheet(colours: &[u8], out: &mut [u8]) -> Result<usize, sheet_texts::Unwritten>
    ensures { SheetPromise colours.now out.old result out.new }
{
    sheet_texts::write_sheet(colours, out)
}

// Checks a sheet against a clash text; accepted, each entry's group number goes to the lent bytes.
pub fn check_sheet(list: &[u8], sheet: &[u8], colours: &mut [u8]) -> Result<usize, Unchecked>
    ensures { CheckPromise true list.now sheet.now colours.old result colours.new }
{
    sheets::check_sheet(list, sheet, colours, true)
}

pub fn check_sheet_repeats(
    list: &[u8],
    sheet: &[u8],
    colours: &mut [u8],
) -> Result<usize, Unchecked>
    ensures { CheckPromise false list.now sheet.now colours.old result colours.new }
{
    sheets::check_sheet(list, sheet, colours, false)
}

// Checks again, for so many colour bytes, and shows the line at fault, as a part of the list or of the sheet, whichever holds it.
pub fn fault_line<'a>(list: &'a [u8], sheet: &'a [u8], room: usize) -> &'a [u8]
    ensures { PreviewPromise true list.entry sheet.entry room result }
{
    sheets::fault_line(list, sheet, room, true)
}

pub fn fault_line_repeats<'a>(list: &'a [u8], sheet: &'a [u8], room: usize) -> &'a [u8]
    ensures { PreviewPromise false list.entry sheet.entry room result }
{
    sheets::fault_line(list, sheet, room, false)
}

// The same part by its place, for callers that cannot be handed a part of what they lend.
pub fn fault_part(list: &[u8], sheet: &[u8], room: usize) -> sheets::Part
    ensures { PlacePromise true list.now sheet.now room result }
{
    sheets::fault_part(list, sheet, room, true)
}

pub fn fault_part_repeats(list: &[u8], sheet: &[u8], room: usize) -> sheets::Part
    ensures { PlacePromise false list.now sheet.now room result }
{
    sheets::fault_part(list, sheet, room, false)
}

// Puts a hand-edited sheet right for a clash text: writes to the lent bytes which lines were dropped and which entries were put into which group, and then the
// mended sheet.
pub fn mend_sheet(list: &[u8], sheet: &[u8], out: &mut [u8]) -> Result<usize, Unmended>
    ensures { MendPromise true list.now sheet.now out.old result out.new }
{
    mending::mend_sheet(list, sheet, out, true)
}

pub fn mend_sheet_repeats(list: &[u8], sheet: &[u8], out: &mut [u8]) -> Result<usize, Unmended>
    ensures { MendPromise false list.now sheet.now out.old result out.new }
{
    mending::mend_sheet(list, sheet, out, false)
}

// Writes what slotsheet prints for a clash text to the lent bytes: the sheet of its fewest sittings, by a walk with a budget of 1,000,000, or
// "refused R line L" and a line feed, with " column C" before it where there is a column.
pub fn answer(text: &[u8], out: &mut [u8]) -> Result<usize, Full>
    ensures { AnswerPromise true text.now out.old result out.new }
{
    answers::answer(text, out, true)
}

pub fn answer_repeats(text: &[u8], out: &mut [u8]) -> Result<usize, Full>
    ensures { AnswerPromise false text.now out.old result out.new }
{
    answers::answer(text, out, false)
}

// The same for any text that is too long to be read, without it: both readings refuse it alike.
pub fn answer_long(out: &mut [u8]) -> Result<usize, Full>
    ensures { LongPromise out.old result out.new }
{
    answers::answer_long(out)
}

// Writes what mend prints for a clash text and a sheet to the lent bytes: what `mend_sheet` writes, or "refused R line L" and a line feed, with " column C"
// before it where there is a column.
pub fn mend_answer(list: &[u8], sheet: &[u8], out: &mut [u8]) -> Result<usize, Full>
    ensures { MendedPromise true list.now sheet.now out.old result out.new }
{
    answers::mended(list, sheet, out, true)
}

pub fn mend_answer_repeats(list: &[u8], sheet: &[u8], out: &mut [u8]) -> Result<usize, Full>
    ensures { MendedPromise false list.now sheet.now out.old result out.new }
{
    answers::mended(list, sheet, out, false)
}

// The same for any sheet that is too long to be read, without it: the clash text's own refusal comes first.
pub fn mend_answer_long(list: &[u8], out: &mut [u8]) -> Result<usize, Full>
    ensures { LongSheetPromise true list.now out.old result out.new }
{
    answers::mended_long(list, out, true)
}

pub fn mend_answer_long_repeats(list: &[u8], out: &mut [u8]) -> Result<usize, Full>
    ensures { LongSheetPromise false list.now out.old result out.new }
{
    answers::mended_long(list, out, false)
}
