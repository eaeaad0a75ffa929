// What C links: a static library that exports each call of `capi` under its own name, with the same promise.
#![tactic(auto)]

ghost use Rattle.std.specs.Prelude.{true, false};
ghost use Rattle.bounds.specs.Names.{clique_set, clique_bound_lem, mycielskian};
ghost use Rattle.bounds.specs.Lent.{no_members};
ghost use Rattle.zykov.specs.Walk.{bounded_walk_lem, plain_walk_lem};
ghost use Rattle.shrink.specs.Shrunk.{shrunk_walk};
ghost use Rattle.capi.specs.Calls.{ValidityCall, BoundCall, WalkCall, PlacingCall, ReadCall, ListCall, SheetCall, CheckCall, MendCall, PartCall, AnswerCall};

use sittings::numbers::{
    BoundNumbers, CheckNumbers, MendNumbers, PartNumbers, ReadNumbers, VerdictNumbers, WalkNumbers,
    WriteNumbers,
};

#[unsafe(no_mangle)]
pub extern "C" fn slotsheet_validity(rows: &[u64]) -> VerdictNumbers
    ensures { ValidityCall rows.now result }
{
    capi::slotsheet_validity(rows)
}

#[unsafe(no_mangle)]
pub extern "C" fn slotsheet_clique_bound(rows: &[u64]) -> BoundNumbers
    ensures { BoundCall clique_bound_lem clique_set rows.now result }
{
    capi::slotsheet_clique_bound(rows)
}

#[unsafe(no_mangle)]
pub extern "C" fn slotsheet_mycielskian_bound(rows: &[u64]) -> BoundNumbers
    ensures { BoundCall mycielskian no_members rows.now result }
{
    capi::slotsheet_mycielskian_bound(rows)
}

#[unsafe(no_mangle)]
pub extern "C" fn slotsheet_fewest(rows: &[u64], colours: &mut [u8], budget: u64) -> WalkNumbers
    ensures { WalkCall (bounded_walk_lem mycielskian) rows.now colours.old budget result colours.new }
{
    capi::slotsheet_fewest(rows, colours, budget)
}

#[unsafe(no_mangle)]
pub extern "C" fn slotsheet_plain(rows: &[u64], colours: &mut [u8], budget: u64) -> WalkNumbers
    ensures { WalkCall plain_walk_lem rows.now colours.old budget result colours.new }
{
    capi::slotsheet_plain(rows, colours, budget)
}

#[unsafe(no_mangle)]
pub extern "C" fn slotsheet_fewest_by_placing(
    rows: &[u64],
    colours: &mut [u8],
    budget: u64,
) -> WalkNumbers
    ensures { PlacingCall rows.now colours.old budget result colours.new }
{
    capi::slotsheet_fewest_by_placing(rows, colours, budget)
}

#[unsafe(no_mangle)]
pub extern "C" fn slotsheet_fewest_shrunk(
    rows: &[u64],
    colours: &mut [u8],
    budget: u64,
) -> WalkNumbers
    ensures { WalkCall (shrunk_walk mycielskian) rows.now colours.old budget result colours.new }
{
    capi::slotsheet_fewest_shrunk(rows, colours, budget)
}

#[unsafe(no_mangle)]
pub extern "C" fn slotsheet_read_list(text: &[u8], rows: &mut [u64]) -> ReadNumbers
    ensures { ReadCall true text.now rows.old result rows.new }
{
    capi::slotsheet_read_list(text, rows)
}

#[unsafe(no_mangle)]
pub extern "C" fn slotsheet_read_list_repeats(text: &[u8], rows: &mut [u64]) -> ReadNumbers
    ensures { ReadCall false text.now rows.old result rows.new }
{
    capi::slotsheet_read_list_repeats(text, rows)
}

#[unsafe(no_mangle)]
pub extern "C" fn slotsheet_write_list(rows: &[u64], out: &mut [u8]) -> WriteNumbers
    ensures { ListCall rows.now out.old result out.new }
{
    capi::slotsheet_write_list(rows, out)
}

#[unsafe(no_mangle)]
pub extern "C" fn slotsheet_write_sheet(colours: &[u8], out: &mut [u8]) -> WriteNumbers
    ensures { SheetCall colours.now out.old result out.new }
{
    capi::slotsheet_write_sheet(colours, out)
}

#[unsafe(no_mangle)]
pub extern "C" fn slotsheet_check_sheet(
    list: &[u8],
    sheet: &[u8],
    colours: &mut [u8],
) -> CheckNumbers
    ensures { CheckCall true list.now sheet.now colours.old result colours.new }
{
    capi::slotsheet_check_sheet(list, sheet, colours)
}

#[unsafe(no_mangle)]
pub extern "C" fn slotsheet_check_sheet_repeats(
    list: &[u8],
    sheet: &[u8],
    colours: &mut [u8],
) -> CheckNumbers
    ensures { CheckCall false list.now sheet.now colours.old result colours.new }
{
    capi::slotsheet_check_sheet_repeats(list, sheet, colours)
}

#[unsafe(no_mangle)]
pub extern "C" fn slotsheet_fault_line(list: &[u8], sheet: &[u8], room: usize) -> PartNumbers
    ensures { PartCall true list.now sheet.now room result }
{
    capi::slotsheet_fault_line(list, sheet, room)
}

#[unsafe(no_mangle)]
pub extern "C" fn slotsheet_fault_line_repeats(
    list: &[u8],
    sheet: &[u8],
    room: usize,
) -> PartNumbers
    ensures { PartCall false list.now sheet.now room result }
{
    capi::slotsheet_fault_line_repeats(list, sheet, room)
}

#[unsafe(no_mangle)]
pub extern "C" fn slotsheet_mend_sheet(list: &[u8], sheet: &[u8], out: &mut [u8]) -> MendNumbers
    ensures { MendCall true list.now sheet.now out.old result out.new }
{
    capi::slotsheet_mend_sheet(list, sheet, out)
}

#[unsafe(no_mangle)]
pub extern "C" fn slotsheet_mend_sheet_repeats(
    list: &[u8],
    sheet: &[u8],
    out: &mut [u8],
) -> MendNumbers
    ensures { MendCall false list.now sheet.now out.old result out.new }
{
    capi::slotsheet_mend_sheet_repeats(list, sheet, out)
}

#[unsafe(no_mangle)]
pub extern "C" fn slotsheet_answer(text: &[u8], out: &mut [u8]) -> WriteNumbers
    ensures { AnswerCall true text.now out.old result out.new }
{
    capi::slotsheet_answer(text, out)
}

#[unsafe(no_mangle)]
pub extern "C" fn slotsheet_answer_repeats(text: &[u8], out: &mut [u8]) -> WriteNumbers
    ensures { AnswerCall false text.now out.old result out.new }
{
    capi::slotsheet_answer_repeats(text, out)
}
