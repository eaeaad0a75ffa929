// Clash texts in the DIMACS colouring format: read into rows, and written from them.
// Reading gathers the rows aside and lends nothing back before the whole text is judged. One pass over the text.
#![tactic(auto)]

ghost use Rattle.std.specs.Prelude.{◌≡◌, ◌++◌, false, cond, ◌&&◌, ◌+◌, ◌-◌, ◌≤◌, ◌<◌, length, take, drop, IfSome};
ghost use Rattle.clashes.specs.Matrix.{matrix};
ghost use Rattle.lines.specs.Number.{digit};
ghost use Rattle.lines.specs.Numeral.{Put};
ghost use Rattle.lines.specs.Words.{starts};
ghost use Rattle.lists.specs.Shape.{c_word, shape_of};
ghost use Rattle.lists.specs.Expect.{fault_at_lem, spot_of, ends? as may_end_lem};
ghost use Rattle.lists.specs.declared.Fault.TheVariants.{Unended};
ghost use Rattle.lists.specs.declared.Unwritten.TheVariants.{OfRows};
ghost use Rattle.lists.specs.Pattern.{pattern_of, due_of, Taken, spot_from};
ghost use Rattle.lists.specs.Read.{lone, on_line, edge_of, step_of, mark, finish, read_of};
ghost use Rattle.lists.specs.Edges.{row_edges, edges};
ghost use Rattle.lists.specs.Write.{edges_text, text_of};
ghost use Rattle.lists.specs.Promise.{refusal_of_lem, ReadPromise, WritePromise};

use refusals::{Invalid, Refusal};

// What a line is: "c" and anything; "p edge N M"; or "e U V".
#[derive(Clone, Copy)]
pub enum Shape {
    Comment,
    P(usize, usize),
    E(usize, usize),
}

// The refusals of a clash text, document 01's 10 to 18 and document 02's, by their names.
#[derive(Clone, Copy, PartialEq, Eq)]
pub enum Fault {
    Line,
    Headless,
    Second,
    Size,
    Vertex,
    Loop,
    Count,
    Room,
    Long,
    Repeat,
    Digit,
    Space,
    Unended,
}

// Which refusal of document 01's table a fault is.
impl From<Fault> for Refusal {
    ghost from_gives = { λ x y. y ≡ refusal_of_lem x };

    fn from(why: Fault) -> Refusal {
        match why {
            Fault::Line => Refusal::Line,
            Fault::Headless => Refusal::Headless,
            Fault::Second => Refusal::Second,
            Fault::Size => Refusal::Size,
            Fault::Vertex => Refusal::Vertex,
            Fault::Loop => Refusal::Loop,
            Fault::Count => Refusal::Count,
            Fault::Room => Refusal::Room,
            Fault::Long => Refusal::Long,
            Fault::Repeat => Refusal::Repeat,
            Fault::Digit => Refusal::Digit,
            Fault::Space => Refusal::Space,
            Fault::Unended => Refusal::Unended,
        }
    }
}

// Why a text is refused, with the line at fault and its column, each 0 where none is named.
#[derive(Clone, Copy, PartialEq, Eq)]
pub struct Unread {
    pub why: Fault,
    pub line: usize,
    pub column: usize,
}

// An accepted list: how many entries, and their rows (the others are 0).
#[derive(Clone, Copy)]
pub struct Gathered {
    pub n: usize,
    pub rows: [u64; 64],
}

// What the p line said, and how many e lines there were since.
#[derive(Clone, Copy)]
pub struct Head {
    pub n: usize,
    pub m: usize,
    pub count: usize,
}

// A fault of a line; where it is one of shape, with its column: of the byte, counted from 1, at which the line can no longer begin a permitted one.
// Else the column is 0.
#[derive(Clone, Copy)]
pub struct Spot {
    pub fault: Fault,
    pub column: usize,
}

impl From<Fault> for Spot {
    ghost from_gives = { λ x y. y ≡ lone x };

    fn from(fault: Fault) -> Spot {
        Spot { fault, column: 0 }
    }
}

impl Spot {
    // The refusal of a text with this fault at a line.
    fn on(self, line: usize) -> Unread
        ensures { result ≡ on_line self line }
    {
        Unread {
            why: self.fault,
            line,
            column: self.column,
        }
    }
}

// What a line does: something known, or an edge besides, by entries that count from 0.
#[derive(Clone, Copy)]
pub enum Step {
    Go(Option<Head>),
    Edge(Head, usize, usize),
}

// The longest text that is read.
const LONGEST: usize = 65536;

// A comment begins with the letter c, no more.
fn is_comment(s: &[u8]) -> bool
    ensures { result ≡ starts c_word s.now }
{
    lines::begins(s, b"c")
}

// The shape of a line, if it is a permitted one.
fn shape_of(s: &[u8]) -> Option<Shape>
    ensures { result ≡ shape_of s.now }
{
    if is_comment(s) {
        return Some(Shape::Comment);
    }
    if lines::begins(s, b"p edge ") {
        let (n, m) = lines::two(&s[7..])?;
        return Some(Shape::P(n, m));
    }
    if lines::begins(s, b"e ") {
        let (u, v) = lines::two(&s[2..])?;
        return Some(Shape::E(u, v));
    }
    None
}

// What is still expected in a pattern: `at` and what follows it; within a number first some digits more, one less than `digits`, at most.
#[derive(Clone, Copy)]
pub struct Due {
    pub at: usize,
    pub digits: usize,
}

fn is_digit(b: u8) -> bool
    ensures { result ≡ digit b }
{
    b.is_ascii_digit()
}

// What the pattern `w` expects after the byte `b`, where it expects `d`, if `b` can stand there.
fn after(w: &[u8], d: Due, b: u8) -> Option<Due>
    ensures { Taken w.now d b result }
{
    let at = d.at;
    if 0 < d.digits && is_digit(b) {
        if d.digits == 1 {
            return None;
        }
        return Some(Due {
            at,
            digits: d.digits - 1,
        });
    }
    if w.len() <= at {
        return None;
    }
    match w[at] {
        b'*' => Some(Due { at, digits: 0 }),
        // a first 0 stands alone
        b'0' if b == b'0' => Some(Due {
            at: at + 1,
            digits: 1,
        }),
        b'0' if is_digit(b) => Some(Due {
            at: at + 1,
            digits: 7,
        }),
        b'0' => None,
        x if x == b => Some(Due {
            at: at + 1,
            digits: 0,
        }),
        _ => None,
    }
}

// The fault where the pattern `w` expects `d`, and it does not stand there; a digit does or not.
fn fault_at(w: &[u8], d: Due, digit: bool) -> Fault
    ensures { result ≡ fault_at_lem (due_of w.now d) digit }
{
    let at = d.at;
    if 0 < d.digits {
        if digit {
            return Fault::Digit;
        }
        return Fault::Space;
    }
    if w.len() <= at {
        return Fault::Space;
    }
    match w[at] {
        b'0' => Fault::Digit,
        b' ' => Fault::Space,
        b'*' => Fault::Space,
        _ => Fault::Line,
    }
}

// Whether a line may end where the pattern `w` expects `d`.
fn may_end(w: &[u8], d: Due) -> bool
    ensures { result ≡ may_end_lem (due_of w.now d) }
{
    w.len() <= d.at || w[d.at] == b'*'
}

// The fault of a line that stops, without its line feed if it is whole, where the pattern `w` expects `d`.
fn stopped(w: &[u8], d: Due) -> Fault
    ensures { result ≡ cond (may_end_lem (due_of w.now d)) Unended (fault_at_lem (due_of w.now d) false) }
{
    if may_end(w, d) {
        return Fault::Unended;
    }
    fault_at(w, d, false)
}

// The first byte of a line that the pattern `w` cannot take, and the fault there; or where the line stops.
fn spot_along(s: &[u8], w: &[u8]) -> Spot
    ensures { result ≡ spot_from 0 s.now (pattern_of w.now) }
{
    let mut d = Due { at: 0, digits: 0 };
    for (i, &b) in s.iter().enumerate() {
        let Some(next) = after(w, d, b) else {
            return Spot {
                fault: fault_at(w, d, is_digit(b)),
                column: i + 1,
            };
        };
        d = next;
    }
    Spot {
        fault: stopped(w, d),
        column: s.len() + 1,
    }
}

// The fault of a line that is of no permitted shape or has no line feed, and its column. A line's first byte says which pattern it follows.
fn spot_of(s: &[u8]) -> Spot
    ensures { result ≡ spot_of s.now }
{
    if is_comment(s) {
        return spot_along(s, b"c*");
    }
    if lines::begins(s, b"p") {
        return spot_along(s, b"p edge 0 0");
    }
    if lines::begins(s, b"e") {
        return spot_along(s, b"e 0 0");
    }
    Spot {
        fault: Fault::Line,
        column: 1,
    }
}

// What an e line does after the p line: 14, 15, or an edge.
fn edge(h: Head, u: usize, v: usize) -> Result<Step, Spot>
    requires { h.count < 1000000 }
    ensures { result ≡ edge_of h u v }
{
    if u < 1 || h.n < u || v < 1 || h.n < v {
        return Err(Spot::from(Fault::Vertex));
    }
    if u == v {
        return Err(Spot::from(Fault::Loop));
    }
    Ok(Step::Edge(
        Head {
            n: h.n,
            m: h.m,
            count: h.count + 1,
        },
        u - 1,
        v - 1,
    ))
}

// What the line `l` does, where `h` is known and `room` rows are lent. Where it went bad is looked for only if it did.
fn apply(h: Option<Head>, room: usize, l: &[u8]) -> Result<Step, Spot>
    requires { IfSome h (λ h. h.count < 1000000) }
    ensures { result ≡ step_of h room (spot_of l.now) (shape_of l.now) }
{
    let Some(shape) = shape_of(l) else {
        return Err(spot_of(l));
    };
    match (shape, h) {
        (Shape::Comment, _) => Ok(Step::Go(h)),
        (Shape::P(_, _), Some(_)) => Err(Spot::from(Fault::Second)),
        (Shape::P(n, m), None) => {
            if 64 < n {
                return Err(Spot::from(Fault::Size));
            }
            if room < n {
                return Err(Spot::from(Fault::Room));
            }
            Ok(Step::Go(Some(Head { n, m, count: 0 })))
        }
        (Shape::E(u, v), Some(head)) => edge(head, u, v),
        (Shape::E(_, _), None) => Err(Spot::from(Fault::Headless)),
    }
}

// Bit j of row i.
fn set_bit(g: &mut [u64; 64], i: usize, j: usize)
    requires { (i < 64) × (j < 64) }
    ensures { g.new ≡ mark g.old i j }
{
    g[i] = g[i] | (1u64 << j);
}

// Whether an edge is refused: where repeats are, one that the rows have. Either way round, since each edge is in both its rows.
fn repeats(plain: bool, rows: &[u64; 64], i: usize, j: usize) -> bool
    requires { (i < 64) × (j < 64) }
    ensures { result ≡ (plain && matrix rows.now i j) }
{
    plain && sets::has(rows[i], j)
}

// At the end of the text: 11, 16, or the list.
fn ended(h: Option<Head>, rows: [u64; 64], line: usize) -> Result<Gathered, Unread>
    ensures { result ≡ finish h rows line }
{
    let Some(head) = h else {
        return Err(Spot::from(Fault::Headless).on(line));
    };
    if head.count == head.m {
        return Ok(Gathered { n: head.n, rows });
    }
    Err(Spot::from(Fault::Count).on(line))
}

// Reads a text for so many lent rows, and hands its rows over by value; repeats are refused where `plain` is true, else allowed.
pub fn gather(text: &[u8], room: usize, plain: bool) -> Result<Gathered, Unread>
    ensures { result ≡ read_of plain text.now room }
{
    if LONGEST < text.len() {
        return Err(Spot::from(Fault::Long).on(0));
    }
    let mut rows = [0u64; 64];
    let mut h: Option<Head> = None;
    let mut at: usize = 0;
    let mut line: usize = 1;
    while at < text.len() {
        let e = lines::line_end(text, at);
        if text.len() <= e {
            return Err(spot_of(&text[at..]).on(line));
        }
        let step = apply(h, room, &text[at..e]).map_err(|p| p.on(line))?;
        match step {
            Step::Go(g) => {
                h = g;
            }
            Step::Edge(g, i, j) => {
                if repeats(plain, &rows, i, j) {
                    return Err(Spot::from(Fault::Repeat).on(line));
                }
                h = Some(g);
                set_bit(&mut rows, i, j);
                set_bit(&mut rows, j, i);
            }
        }
        at = e + 1;
        line += 1;
    }
    ended(h, rows, line)
}

// Reads a clash text into the lent rows; repeats are refused where `plain` is true, else allowed. No row is stored unless the whole text is accepted.
#[tactic(auto, using(crate::proofs::Fold::gathered_fits))]
pub fn read_list(text: &[u8], rows: &mut [u64], plain: bool) -> Result<usize, Unread>
    ensures { ReadPromise plain text.now rows.old result rows.new }
{
    let Gathered { n, rows: list } = gather(text, rows.len(), plain)?;
    rows[..n].copy_from_slice(&list[..n]);
    Ok(n)
}

// Why a list is not written: document 01's 1 to 4, with the row at fault, or 19.
#[derive(Clone, Copy, PartialEq, Eq)]
pub enum Unwritten {
    OfRows(Invalid),
    Full,
}

impl From<Invalid> for Unwritten {
    ghost from_gives = { λ x y. y ≡ OfRows x };

    fn from(why: Invalid) -> Unwritten {
        Unwritten::OfRows(why)
    }
}

// How many edges there are, and how many bytes their lines take.
#[derive(Clone, Copy)]
pub struct Extent {
    pub edges: usize,
    pub bytes: usize,
}

// The edges of entry i to later ones, of n.
fn row_extent(row: u64, i: usize, n: usize) -> Extent
    requires { (i < n) × (n ≤ 64) }
    ensures { ((result.edges ≡ length (row_edges row i (i + 1) (n - (i + 1)))) × (result.bytes ≡ length (edges_text (row_edges row i (i + 1) (n - (i + 1)))))) × ((result.edges ≤ 64) × (result.bytes ≤ 1152)) }
{
    let mut edges: usize = 0;
    let mut bytes: usize = 0;
    for j in i + 1..n {
        if sets::has(row, j) {
            edges += 1;
            bytes += lines::number_len(i + 1) + lines::number_len(j + 1) + 4;
        }
    }
    Extent { edges, bytes }
}

// The edges of all entries.
fn list_extent(rows: &[u64]) -> Extent
    requires { length rows.now ≤ 64 }
    ensures { ((result.edges ≡ length (edges rows.now)) × (result.bytes ≡ length (edges_text (edges rows.now)))) × ((result.edges ≤ 4096) × (result.bytes ≤ 73728)) }
{
    let n = rows.len();
    let mut edges: usize = 0;
    let mut bytes: usize = 0;
    for (i, &row) in rows.iter().enumerate() {
        let e = row_extent(row, i, n);
        edges += e.edges;
        bytes += e.bytes;
    }
    Extent { edges, bytes }
}

// Puts the lines of the edges of entry i to later ones.
fn put_row(out: &mut [u8], at: usize, row: u64, i: usize, n: usize) -> usize
    requires { ((i < n) × (n ≤ 64)) × (at + length (edges_text (row_edges row i (i + 1) (n - (i + 1)))) ≤ length out.old) }
    ensures { Put out.old at (edges_text (row_edges row i (i + 1) (n - (i + 1)))) out.new result }
{
    let mut a = at;
    for j in i + 1..n {
        if sets::has(row, j) {
            a = lines::put_two(out, a, b"e ", i + 1, j + 1);
        }
    }
    a
}

// Puts the lines of all edges.
fn put_rows(out: &mut [u8], at: usize, rows: &[u64]) -> usize
    requires { (length rows.now ≤ 64) × (at + length (edges_text (edges rows.now)) ≤ length out.old) }
    ensures { Put out.old at (edges_text (edges rows.now)) out.new result }
{
    let n = rows.len();
    let mut a = at;
    for (i, &row) in rows.iter().enumerate() {
        a = put_row(out, a, row, i, n);
    }
    a
}

// Puts the text of a list that has so many edges, at the start.
fn put_list(out: &mut [u8], rows: &[u64], m: usize) -> usize
    requires { ((length rows.now ≤ 64) × ((m ≡ length (edges rows.now)) × (m ≤ 4096))) × (length (text_of rows.now) ≤ length out.old) }
    ensures { Put out.old 0 (text_of rows.now) out.new result }
{
    let a = lines::put_two(out, 0, b"p edge ", rows.len(), m);
    put_rows(out, a, rows)
}

// Writes the text of a list to the lent bytes, and answers its length.
pub fn write_list(rows: &[u64], out: &mut [u8]) -> Result<usize, Unwritten>
    ensures { WritePromise rows.now out.old result out.new }
{
    clashes::validity(rows)?;
    let x = list_extent(rows);
    let m = x.edges;
    let head = lines::number_len(rows.len()) + lines::number_len(m) + 9;
    if out.len() < head + x.bytes {
        return Err(Unwritten::Full);
    }
    Ok(put_list(out, rows, m))
}
