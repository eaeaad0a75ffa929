// Lines of a text, numbers and words in them, read and written; and a reader that hands out one line at a time.
// A line is handed out as a part of the lent text: its bytes where they lie, without the line feed. A number has 1 to 7
// digits and no leading zero. The writers put bytes from a place on and return the place after them; all others stay.
#![tactic(auto)]

ghost use Rattle.std.specs.Prelude.{◌≡◌, ◌+◌, ◌<◌, ◌≤◌, not, ltb, nat_eq, length, position, take, take_while};
ghost use Rattle.std.specs.Char.{is_ascii_digit};
ghost use Rattle.lines.specs.Text.{line_end_lem, next_start_lem, place_of};
ghost use Rattle.lines.specs.Part.{PartOf, LineOf};
ghost use Rattle.lines.specs.Number.{digits, number_of};
ghost use Rattle.lines.specs.Words.{starts, alone_of, pair_of};
ghost use Rattle.lines.specs.Numeral.{numeral, one_line, two_line, Put};
ghost use Rattle.lines.specs.Reader.{in_text_lem, next_number_lem, start_of, next_of, at_end_lem};

// Where the first line feed is.
fn feed_in(s: &[u8]) -> Option<usize>
    ensures { result ≡ position (λ b. nat_eq b 10) s.now }
{
    s.iter().position(|&b| b == b'\n')
}

// Where the line that starts at `at` ends: at its line feed, or at the text's end.
pub fn line_end(s: &[u8], at: usize) -> usize
    requires { at ≤ length s.now }
    ensures { (result ≡ line_end_lem s.now at) × (result ≤ length s.now) }
{
    match feed_in(&s[at..]) {
        Some(i) => at + i,
        None => s.len(),
    }
}

// Where the line after the one at `at` starts, or the text's end.
pub fn next_start(s: &[u8], at: usize) -> usize
    ensures { (result ≡ next_start_lem s.now at) × (result ≤ length s.now) }
{
    if s.len() <= at {
        return s.len();
    }
    (line_end(s, at) + 1).min(s.len())
}

// The part from `a` up to `e`.
pub fn part<'a>(s: &'a [u8], a: usize, e: usize) -> &'a [u8]
    requires { (a ≤ e) × (e ≤ length s.now) }
    ensures { PartOf s.entry a e result }
{
    &s[a..e]
}

// The place itself, or the text's end where it lies past it.
pub fn in_text(s: &[u8], at: usize) -> usize
    ensures { (result ≡ in_text_lem s.now at) × (result ≤ length s.now) }
{
    at.min(s.len())
}

// The line that starts at `at`; past the text's end, the empty part there.
pub fn line_at<'a>(s: &'a [u8], at: usize) -> &'a [u8]
    ensures { LineOf s.entry (in_text_lem s.now at) result }
{
    let a = in_text(s, at);
    let e = line_end(s, a);
    part(s, a, e)
}

// The number of the line after the one that starts at `start` and has the number `line`. At the text's end it stays, as the
// largest number does.
pub fn next_number(s: &[u8], start: usize, line: usize) -> usize
    ensures { result ≡ next_number_lem s.now start line }
{
    if s.len() <= start {
        return line;
    }
    line.saturating_add(1)
}

// Whether no line starts at `at`: the text ends there, or before.
pub fn ends(s: &[u8], at: usize) -> bool
    ensures { result ≡ not (ltb at (length s.now)) }
{
    s.len() <= at
}

// Where line k starts, counted from 0; past the last line, the text's end.
pub fn place(s: &[u8], k: usize) -> usize
    ensures { (result ≡ place_of s.now k) × (result ≤ length s.now) }
{
    let mut at: usize = 0;
    for _ in 0..k {
        if s.len() <= at {
            return at;
        }
        at = next_start(s, at);
    }
    at
}

// How many digits stand at the front of the first 8 bytes of `s`: no number has so many, and a longer run is not gone through.
fn digits_of(s: &[u8]) -> usize
    ensures { result ≡ length (take_while is_ascii_digit (take 8 s.now)) }
{
    s.iter().take(8).take_while(|b| b.is_ascii_digit()).count()
}

// The number at the front of `s`, and how many bytes it takes.
pub fn number(s: &[u8]) -> Option<(usize, usize)>
    ensures { result ≡ number_of s.now }
{
    let k = digits_of(s);
    if k < 1 || 7 < k {
        return None;
    }
    if s[0] == b'0' && 1 < k {
        return None;
    }
    let mut v: usize = 0;
    for b in &s[..k] {
        v = v * 10 + usize::from(b - b'0');
    }
    Some((v, k))
}

// Whether `s` begins with the word `w`.
pub fn begins(s: &[u8], w: &[u8]) -> bool
    ensures { result ≡ starts w.now s.now }
{
    s.starts_with(w)
}

// The number that `s` is, if it is one and nothing else.
pub fn one(s: &[u8]) -> Option<usize>
    ensures { result ≡ alone_of s.now }
{
    let (v, k) = number(s)?;
    if k == s.len() { Some(v) } else { None }
}

// The two numbers that `s` is, if it is two with one space between and nothing else.
pub fn two(s: &[u8]) -> Option<(usize, usize)>
    ensures { result ≡ pair_of s.now }
{
    let (u, k) = number(s)?;
    if s.len() <= k {
        return None;
    }
    if s[k] != b' ' {
        return None;
    }
    let v = one(&s[k + 1..])?;
    Some((u, v))
}

fn figure(n: usize) -> u8
    requires { n < 10 }
    ensures { result ≡ 48 + n }
{
    b'0' + (n as u8)
}

// How many bytes a number takes.
pub fn number_len(n: usize) -> usize
    requires { n < 10000000 }
    ensures { (result ≡ length (numeral n)) × (result ≤ 7) }
{
    if n < 10 {
        return 1;
    }
    if n < 100 {
        return 2;
    }
    if n < 1000 {
        return 3;
    }
    if n < 10000 {
        return 4;
    }
    if n < 100000 {
        return 5;
    }
    if n < 1000000 {
        return 6;
    }
    7
}

// Puts a number at `at`.
pub fn put_number(out: &mut [u8], at: usize, n: usize) -> usize
    requires { (n < 10000000) × (at + length (numeral n) ≤ length out.old) }
    ensures { Put out.old at (numeral n) out.new result }
{
    if 10 <= n {
        let e = put_number(out, at, n / 10);
        out[e] = figure(n % 10);
        return e + 1;
    }
    out[at] = figure(n);
    at + 1
}

// Puts the bytes of a word at `at`.
pub fn put_word(out: &mut [u8], at: usize, w: &[u8]) -> usize
    requires { at + length w.now ≤ length out.old }
    ensures { Put out.old at w.now out.new result }
{
    let end = at + w.len();
    out[at..end].copy_from_slice(w);
    end
}

// Puts a line at `at`: a word, one number and a line feed.
pub fn put_one(out: &mut [u8], at: usize, w: &[u8], u: usize) -> usize
    requires { (u < 10000000) × (at + length (one_line w.now u) ≤ length out.old) }
    ensures { Put out.old at (one_line w.now u) out.new result }
{
    let a = put_word(out, at, w);
    let b = put_number(out, a, u);
    put_word(out, b, b"\n")
}

// Puts a line at `at`: a word, two numbers with a space between and a line feed.
pub fn put_two(out: &mut [u8], at: usize, w: &[u8], u: usize, v: usize) -> usize
    requires { ((u < 10000000) × (v < 10000000)) × (at + length (two_line w.now u v) ≤ length out.old) }
    ensures { Put out.old at (two_line w.now u v) out.new result }
{
    let a = put_word(out, at, w);
    let b = put_number(out, a, u);
    put_one(out, b, b" ", v)
}

// Remembers the lent text, its position and its line number, and hands out one line at a time.
#[derive(Clone, Copy)]
pub struct Reader<'a> {
    pub text: &'a [u8],
    pub at: usize,
    pub line: usize,
}

impl<'a> Reader<'a> {
    // At the start of a text, on line 1.
    pub fn new(text: &'a [u8]) -> Reader<'a>
        ensures { result ≡ start_of text.entry }
    {
        Reader {
            text,
            at: 0,
            line: 1,
        }
    }

    // The line that it stands on; at the text's end, the empty part there.
    pub fn here(self) -> &'a [u8]
        ensures { LineOf self.entry.text (in_text_lem self.entry.text.now self.entry.at) result }
    {
        line_at(self.text, self.at)
    }

    // Whether there is no line to leave.
    pub fn at_end(self) -> bool
        ensures { result ≡ at_end_lem self.entry }
    {
        ends(self.text, self.at)
    }

    // On the next line; at the text's end it stays.
    pub fn next(self) -> Reader<'a>
        ensures { result ≡ next_of self.entry }
    {
        let at = next_start(self.text, self.at);
        let line = next_number(self.text, self.at, self.line);
        Reader {
            text: self.text,
            at,
            line,
        }
    }

    // Where its line starts.
    pub fn position(self) -> usize
        ensures { result ≡ self.entry.at }
    {
        self.at
    }

    // Its line's number, from 1.
    pub fn line_number(self) -> usize
        ensures { result ≡ self.entry.line }
    {
        self.line
    }
}

// Line k, counted from 0, by a reader; past the last line, the empty part at the text's end.
pub fn line_no<'a>(s: &'a [u8], k: usize) -> &'a [u8]
    ensures { LineOf s.entry (place_of s.now k) result }
{
    let mut r = Reader::new(s);
    for _ in 0..k {
        if r.at_end() {
            break;
        }
        r = r.next();
    }
    r.here()
}
