// Sitting sheets: checked against a clash list, with the line at fault shown as a part of the text that holds it.
// A check gathers the group numbers aside and lends nothing back before both texts are judged. One pass over each text.
#![tactic(auto)]

ghost use Rattle.std.specs.Prelude.{◌≡◌, ◌++◌, ◌≤◌, ◌<◌, length, take, drop, IfSome};
ghost use Rattle.sets.specs.Set.{has as member};
ghost use Rattle.clashes.specs.Matrix.{matrix};
ghost use Rattle.sheets.specs.Check.{behind_of, groups_of, size_of, placed, member_of_lem, step_of, on_line, met as met_of, cut, finish, sheet_of, check_of};
ghost use Rattle.sheets.specs.Sound.{Sound, Within};
ghost use Rattle.sheets.specs.Promise.{refusal_of_lem, refused_in_lem, numbers_of_lem, CheckPromise, ShownOf, PreviewPromise};
ghost use Rattle.sheets.specs.Place.{part_at, PlacePromise};
ghost use Rattle.sheets.specs.declared.Unchecked.TheVariants.{OfList, OfSheet};

use refusals::Refusal;

// Document 01's refusals of a sheet, 18 and 30 to 37, by their names.
#[derive(Clone, Copy, PartialEq, Eq)]
pub enum SheetFault {
    Long,
    Line,
    Member,
    Order,
    Twice,
    Clash,
    Ends,
    Missing,
    Extra,
}

impl From<SheetFault> for Refusal {
    ghost from_gives = { λ x y. y ≡ refusal_of_lem x };

    fn from(why: SheetFault) -> Refusal {
        match why {
            SheetFault::Long => Refusal::Long,
            SheetFault::Line => Refusal::SheetLine,
            SheetFault::Member => Refusal::Member,
            SheetFault::Order => Refusal::Order,
            SheetFault::Twice => Refusal::Twice,
            SheetFault::Clash => Refusal::Clash,
            SheetFault::Ends => Refusal::Ends,
            SheetFault::Missing => Refusal::Missing,
            SheetFault::Extra => Refusal::Extra,
        }
    }
}

// Why a sheet is refused, and its line at fault (0 where none is named).
#[derive(Clone, Copy, PartialEq, Eq)]
pub struct Refused {
    pub why: SheetFault,
    pub line: usize,
}

impl SheetFault {
    // The refusal of a sheet with this fault at a line.
    fn on(self, line: usize) -> Refused
        ensures { result ≡ on_line self line }
    {
        Refused { why: self, line }
    }
}

// Why a pair is refused: for the list; with too few colour bytes; or for the sheet.
#[derive(Clone, Copy, PartialEq, Eq)]
pub enum Unchecked {
    OfList(lists::Unread),
    Short,
    OfSheet(Refused),
}

impl From<lists::Unread> for Unchecked {
    ghost from_gives = { λ x y. y ≡ OfList x };

    fn from(why: lists::Unread) -> Unchecked {
        Unchecked::OfList(why)
    }
}

impl From<Refused> for Unchecked {
    ghost from_gives = { λ x y. y ≡ OfSheet x };

    fn from(why: Refused) -> Unchecked {
        Unchecked::OfSheet(why)
    }
}

// What an accepted sheet divides: into how many groups, how many entries, and the group number of each (the bytes after them are 0).
#[derive(Clone, Copy)]
pub struct Division {
    pub groups: usize,
    pub entries: usize,
    pub colours: [u8; 64],
}

// Which text is at fault.
#[derive(Clone, Copy, PartialEq, Eq)]
pub enum Text {
    Neither = 0,
    TheList = 1,
    TheSheet = 2,
}

// Document 01's numbers of an answer; those that it does not name are 0.
#[derive(Clone, Copy)]
pub struct Numbers {
    pub number: usize,
    pub line: usize,
    pub column: usize,
    pub groups: usize,
    pub text: Text,
}

// A part of one of the two texts: which text, the place of its first byte, and its length.
#[derive(Clone, Copy)]
pub struct Part {
    pub text: Text,
    pub start: usize,
    pub length: usize,
}

// What is known of the counts after the first line and some more (specs/Check.antt).
#[derive(Clone, Copy)]
pub struct Progress {
    pub left: usize,
    pub need: usize,
    pub opened: usize,
    pub fresh: bool,
    pub first: usize,
    pub floor: usize,
}

impl Progress {
    // The counts after the member u.
    fn with_member(self, u: usize) -> Progress
        requires { 1 ≤ self.need }
        ensures { result ≡ placed self u }
    {
        let first = if self.fresh { u } else { self.first };
        Progress {
            left: self.left,
            need: self.need - 1,
            opened: self.opened,
            fresh: false,
            first,
            floor: u,
        }
    }

    // Whether all counts are met.
    fn met(self) -> bool
        ensures { result ≡ met_of self }
    {
        self.need < 1 && self.left < 1
    }
}

// What a line does: a count, or a member, with its group's number.
#[derive(Clone, Copy)]
pub enum Step {
    Count(Progress),
    Place(Progress, usize, u8),
}

// The longest sheet that is checked.
const LONGEST: usize = 65536;

// The number behind the word `w`, where the two are the whole line.
pub fn behind(s: &[u8], w: &[u8]) -> Option<usize>
    ensures { result ≡ behind_of w.now s.now }
{
    lines::one(s.strip_prefix(w)?)
}

// The first line: "groups K".
fn groups_line(a: Option<usize>) -> Result<Step, SheetFault>
    ensures { result ≡ groups_of a }
{
    let left = a.ok_or(SheetFault::Line)?;
    Ok(Step::Count(Progress {
        left,
        need: 0,
        opened: 0,
        fresh: false,
        first: 0,
        floor: 0,
    }))
}

// A size, where groups are to come.
fn size_line(p: Progress, a: Option<usize>) -> Result<Step, SheetFault>
    requires { (1 ≤ p.left) × (p.opened ≤ 64) }
    ensures { result ≡ size_of p a }
{
    let s = a.ok_or(SheetFault::Line)?;
    if s < 1 {
        return Err(SheetFault::Line);
    }
    Ok(Step::Count(Progress {
        left: p.left - 1,
        need: s,
        opened: p.opened + 1,
        fresh: true,
        first: p.first,
        floor: p.first,
    }))
}

// A member, where members are to come: 30 to 34 in this order.
fn member_line(
    rows: &[u64],
    n: usize,
    p: Progress,
    mates: u64,
    earlier: u64,
    a: Option<usize>,
) -> Result<Step, SheetFault>
    requires { (n ≤ 64) × (n ≤ length rows.now) × (1 ≤ p.need) × Sound p × Within n mates }
    ensures { result ≡ member_of_lem n (matrix rows.now) p (member mates) (member earlier) a }
{
    let u = a.ok_or(SheetFault::Line)?;
    if u < 1 {
        return Err(SheetFault::Member);
    }
    if n < u {
        return Err(SheetFault::Member);
    }
    if u <= p.floor {
        return Err(SheetFault::Order);
    }
    let i = u - 1;
    if sets::has(earlier, i) {
        return Err(SheetFault::Twice);
    }
    if sets::meet(mates, rows[i]) != 0 {
        return Err(SheetFault::Clash);
    }
    let g = (p.opened - 1) as u8;
    Ok(Step::Place(p.with_member(u), i, g))
}

// What a line does, by its place.
fn line_step(
    rows: &[u64],
    n: usize,
    p: Option<Progress>,
    mates: u64,
    earlier: u64,
    l: &[u8],
) -> Result<Step, SheetFault>
    requires { (n ≤ 64) × (n ≤ length rows.now) × IfSome p Sound × Within n mates }
    ensures { result ≡ step_of n (matrix rows.now) p (member mates) (member earlier) l.now }
{
    let Some(p) = p else {
        return groups_line(behind(l, b"groups "));
    };
    if 1 <= p.need {
        return member_line(rows, n, p, mates, earlier, lines::one(l));
    }
    if 1 <= p.left {
        return size_line(p, behind(l, b"size "));
    }
    Err(SheetFault::Extra)
}

// A last line that is not ended: 37 or 30.
fn unended(p: Option<Progress>, line: usize) -> Refused
    ensures { result ≡ cut p line }
{
    match p {
        Some(p) if p.met() => SheetFault::Extra.on(line),
        _ => SheetFault::Line.on(line),
    }
}

// At the sheet's end: 35, 36, or accepted.
fn ended(
    n: usize,
    p: Option<Progress>,
    mates: u64,
    earlier: u64,
    colours: [u8; 64],
    line: usize,
) -> Result<Division, Refused>
    requires { n ≤ 64 }
    ensures { result ≡ finish n p (member mates) (member earlier) colours line }
{
    let Some(p) = p else {
        return Err(SheetFault::Ends.on(line));
    };
    if !p.met() {
        return Err(SheetFault::Ends.on(line));
    }
    if !sets::is_subset(sets::below(n), sets::join(earlier, mates)) {
        return Err(SheetFault::Missing.on(line));
    }
    Ok(Division {
        groups: p.opened,
        entries: n,
        colours,
    })
}

// Checks a sheet against the rows of a list of n entries.
pub fn check_lines(rows: &[u64], n: usize, sheet: &[u8]) -> Result<Division, Refused>
    requires { (n ≤ 64) × (n ≤ length rows.now) }
    ensures { result ≡ sheet_of n (matrix rows.now) sheet.now }
{
    if LONGEST < sheet.len() {
        return Err(SheetFault::Long.on(0));
    }
    let mut p: Option<Progress> = None;
    let mut mates: u64 = 0;
    let mut earlier: u64 = 0;
    let mut colours = [0u8; 64];
    let mut at: usize = 0;
    let mut line: usize = 1;
    // by places: the parts of `split_inclusive` hold the feed, would each have to be asked for it, and carry no number
    while at < sheet.len() {
        let e = lines::line_end(sheet, at);
        if sheet.len() <= e {
            return Err(unended(p, line));
        }
        let l = &sheet[at..e];
        let step = line_step(rows, n, p, mates, earlier, l).map_err(|why| why.on(line))?;
        match step {
            Step::Count(q) => {
                p = Some(q);
                earlier = sets::join(earlier, mates);
                mates = 0;
            }
            Step::Place(q, i, g) => {
                p = Some(q);
                mates = sets::with(mates, i);
                colours[i] = g;
            }
        }
        at = e + 1;
        line += 1;
    }
    ended(n, p, mates, earlier, colours, line)
}

// Checks a sheet against a clash text, for so many lent colour bytes, and hands the group numbers over by value. In the list repeats are refused
// where `plain` is true, else allowed: so here and below.
pub fn check(list: &[u8], sheet: &[u8], room: usize, plain: bool) -> Result<Division, Unchecked>
    ensures { result ≡ check_of plain list.now sheet.now room }
{
    let found = lists::gather(list, 64, plain)?;
    if room < found.n {
        return Err(Unchecked::Short);
    }
    Ok(check_lines(&found.rows, found.n, sheet)?)
}

// Checks a sheet against a clash text; accepted, each entry's group number goes to the lent colour bytes.
pub fn check_sheet(
    list: &[u8],
    sheet: &[u8],
    colours: &mut [u8],
    plain: bool,
) -> Result<usize, Unchecked>
    ensures { CheckPromise plain list.now sheet.now colours.old result colours.new }
{
    let found = check(list, sheet, colours.len(), plain)?;
    let n = found.entries;
    colours[..n].copy_from_slice(&found.colours[..n]);
    Ok(found.groups)
}

impl Numbers {
    // The numbers of a refusal of this text, with its line and its column where the table names them.
    fn refused(text: Text, why: Refusal, line: usize, column: usize) -> Numbers
        ensures { result ≡ refused_in_lem text why line column }
    {
        Numbers {
            number: why.number(),
            line: why.line(line),
            column: why.column(column),
            groups: 0,
            text,
        }
    }
}

impl From<Result<usize, Unchecked>> for Numbers {
    ghost from_gives = { λ x y. y ≡ numbers_of_lem x };

    fn from(answer: Result<usize, Unchecked>) -> Numbers {
        match answer {
            Ok(groups) => Numbers {
                number: 0,
                line: 0,
                column: 0,
                groups,
                text: Text::Neither,
            },
            Err(Unchecked::OfList(u)) => {
                Numbers::refused(Text::TheList, Refusal::from(u.why), u.line, u.column)
            }
            Err(Unchecked::Short) => Numbers::refused(Text::TheSheet, Refusal::Short, 0, 0),
            Err(Unchecked::OfSheet(r)) => {
                Numbers::refused(Text::TheSheet, Refusal::from(r.why), r.line, 0)
            }
        }
    }
}

// What is shown of a text for this line: the line, or the empty part at the text's start where none is named.
fn shown<'a>(text: &'a [u8], line: usize) -> &'a [u8]
    ensures { ShownOf text.entry line result }
{
    if line < 1 {
        return lines::part(text, 0, 0);
    }
    lines::line_no(text, line - 1)
}

// Checks again and shows the line at fault, as a part of the list or of the sheet, whichever holds it.
pub fn fault_line<'a>(list: &'a [u8], sheet: &'a [u8], room: usize, plain: bool) -> &'a [u8]
    ensures { PreviewPromise plain list.entry sheet.entry room result }
{
    let m = Numbers::from(check(list, sheet, room, plain).map(|found| found.groups));
    if m.text == Text::TheList {
        return shown(list, m.line);
    }
    shown(sheet, m.line)
}

// Where what is shown of a text for this line lies.
fn part_at(text: Text, s: &[u8], line: usize) -> Part
    ensures { result ≡ part_at text s.now line }
{
    if line < 1 {
        return Part {
            text,
            start: 0,
            length: 0,
        };
    }
    let at = lines::place(s, line - 1);
    let e = lines::line_end(s, at);
    Part {
        text,
        start: at,
        length: e - at,
    }
}

// The same part as `fault_line`, by its place: for callers that are handed numbers alone.
pub fn fault_part(list: &[u8], sheet: &[u8], room: usize, plain: bool) -> Part
    ensures { PlacePromise plain list.now sheet.now room result }
{
    let m = Numbers::from(check(list, sheet, room, plain).map(|found| found.groups));
    if m.text == Text::TheList {
        return part_at(m.text, list, m.line);
    }
    part_at(m.text, sheet, m.line)
}
