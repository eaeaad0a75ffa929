// The library's face for C and the languages that call C: the same calls, answered in document 01's numbers. A lent slice is passed as a pointer
// and a length. A call whose name ends in `repeats` reads a clash text with repeats allowed. include/slotsheet.h declares these; a library exports
// nothing, so the static library `capi_c` hands them on under the same names.
#![tactic(auto)]

ghost use Rattle.std.specs.Prelude.{true, false};
ghost use Rattle.bounds.specs.Names.{clique_set, clique_bound_lem, mycielskian};
ghost use Rattle.bounds.specs.Lent.{no_members};
ghost use Rattle.zykov.specs.Walk.{bounded_walk_lem, plain_walk_lem};
ghost use Rattle.shrink.specs.Shrunk.{shrunk_walk};
ghost use Rattle.capi.specs.Calls.{ValidityCall, BoundCall, WalkCall, PlacingCall, ReadCall, ListCall, SheetCall, CheckCall, MendCall, PartCall, AnswerCall};

use sittings::numbers::{
    BoundNumbers, CheckNumbers, MendNumbers, PartNumbers, ReadNumbers, VerdictNumbers, WalkNumbers,
    WriteNumbers,
};

#[unsafe(no_mangle)]
pub extern "C" fn slotsheet_validity(rows: &[u64]) -> VerdictNumbers
    ensures { ValidityCall rows.now result }
{
    sittings::validity(rows).into()
}

#[unsafe(no_mangle)]
pub extern "C" fn slotsheet_clique_bound(rows: &[u64]) -> BoundNumbers
    ensures { BoundCall clique_bound_lem clique_set rows.now result }
{
    sittings::clique_bound(rows).into()
}

#[unsafe(no_mangle)]
pub extern "C" fn slotsheet_mycielskian_bound(rows: &[u64]) -> BoundNumbers
    ensures { BoundCall mycielskian no_members rows.now result }
{
    sittings::mycielskian_bound(rows).into()
}

#[unsafe(no_mangle)]
pub extern "C" fn slotsheet_fewest(rows: &[u64], colours: &mut [u8], budget: u64) -> WalkNumbers
    ensures { WalkCall (bounded_walk_lem mycielskian) rows.now colours.old budget result colours.new }
{
    sittings::fewest(rows, colours, budget).into()
}

#[unsafe(no_mangle)]
pub extern "C" fn slotsheet_plain(rows: &[u64], colours: &mut [u8], budget: u64) -> WalkNumbers
    ensures { WalkCall plain_walk_lem rows.now colours.old budget result colours.new }
{
    sittings::plain(rows, colours, budget).into()
}

#[unsafe(no_mangle)]
pub extern "C" fn slotsheet_fewest_by_placing(
    rows: &[u64],
    colours: &mut [u8],
    budget: u64,
) -> WalkNumbers
    ensures { PlacingCall rows.now colours.old budget result colours.new }
{
    sittings::fewest_by_placing(rows, colours, budget).into()
}

#[unsafe(no_mangle)]
pub extern "C" fn slotsheet_fewest_shrunk(
    rows: &[u64],
    colours: &mut [u8],
    budget: u64,
) -> WalkNumbers
    ensures { WalkCall (shrunk_walk mycielskian) rows.now colours.old budget result colours.new }
{
    sittings::fewest_shrunk(rows, colours, budget).into()
}

#[unsafe(no_mangle)]
pub extern "C" fn slotsheet_read_list(text: &[u8], rows: &mut [u64]) -> ReadNumbers
    ensures { ReadCall true text.now rows.old result rows.new }
{
    sittings::read_list(text, rows).into()
}

#[unsafe(no_mangle)]
pub extern "C" fn slotsheet_read_list_repeats(text: &[u8], rows: &mut [u64]) -> ReadNumbers
    ensures { ReadCall false text.now rows.old result rows.new }
{
    sittings::read_list_repeats(text, rows).into()
}

#[unsafe(no_mangle)]
pub extern "C" fn slotsheet_write_list(rows: &[u64], out: &mut [u8]) -> WriteNumbers
    ensures { ListCall rows.now out.old result out.new }
{
    sittings::write_list(rows, out).into()
}

#[unsafe(no_mangle)]
pub extern "C" fn slotsheet_write_sheet(colours: &[u8], out: &mut [u8]) -> WriteNumbers
    ensures { SheetCall colours.now out.old result out.new }
{
    sittings::write_sheet(colours, out).into()
}

#[unsafe(no_mangle)]
pub extern "C" fn slotsheet_check_sheet(
    list: &[u8],
    sheet: &[u8],
    colours: &mut [u8],
) -> CheckNumbers
    ensures { CheckCall true list.now sheet.now colours.old result colours.new }
{
    sittings::check_sheet(list, sheet, colours).into()
}

#[unsafe(no_mangle)]
pub extern "C" fn slotsheet_check_sheet_repeats(
    list: &[u8],
    sheet: &[u8],
    colours: &mut [u8],
) -> CheckNumbers
    ensures { CheckCall false list.now sheet.now colours.old result colours.new }
{
    sittings::check_sheet_repeats(list, sheet, colours).into()
}

#[unsafe(no_mangle)]
pub extern "C" fn slotsheet_fault_line(list: &[u8], sheet: &[u8], room: usize) -> PartNumbers
    ensures { PartCall true list.now sheet.now room result }
{
    sittings::fault_part(list, sheet, room).into()
}

#[unsafe(no_mangle)]
pub extern "C" fn slotsheet_fault_line_repeats(
    list: &[u8],
    sheet: &[u8],
    room: usize,
) -> PartNumbers
    ensures { PartCall false list.now sheet.now room result }
{
    sittings::fault_part_repeats(list, sheet, room).into()
}

#[unsafe(no_mangle)]
pub extern "C" fn slotsheet_mend_sheet(list: &[u8], sheet: &[u8], out: &mut [u8]) -> MendNumbers
    ensures { MendCall true list.now sheet.now out.old result out.new }
{
    sittings::mend_sheet(list, sheet, out).into()
}

#[unsafe(no_mangle)]
pub extern "C" fn slotsheet_mend_sheet_repeats(
    list: &[u8],
    sheet: &[u8],
    out: &mut [u8],
) -> MendNumbers
    ensures { MendCall false list.now sheet.now out.old result out.new }
{
    sittings::mend_sheet_repeats(list, sheet, out).into()
}

#[unsafe(no_mangle)]
pub extern "C" fn slotsheet_answer(text: &[u8], out: &mut [u8]) -> WriteNumbers
    ensures { AnswerCall true text.now out.old result out.new }
{
    sittings::answer(text, out).into()
}

#[unsafe(no_mangle)]
pub extern "C" fn slotsheet_answer_repeats(text: &[u8], out: &mut [u8]) -> WriteNumbers
    ensures { AnswerCall false text.now out.old result out.new }
{
    sittings::answer_repeats(text, out).into()
}
