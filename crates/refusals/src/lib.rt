// The refusals of documents 01 and 02: their names, the number of each, and what is returned with it; and what a lent matrix and a search of it are
// refused by.
#![tactic(auto)]

ghost use Rattle.std.specs.Prelude.{◌≡◌};
ghost use Rattle.refusals.specs.Table.{number_of, told, told_at};
ghost use Rattle.refusals.specs.Rows.{row_of, refusal_of_rows, refusal_of_search};
ghost use Rattle.refusals.specs.declared.Unsolved.TheVariants.{OfRows};

// The names of document 01's table, in its order, with those of document 02 where their numbers stand. Itself is SELF, SheetLine is SHEET LINE.
#[derive(Clone, Copy, PartialEq, Eq)]
pub enum Refusal {
    Many = 1,
    Stray = 2,
    Itself = 3,
    OneSided = 4,
    Short = 5,
    Budget = 6,
    Line = 10,
    Headless = 11,
    Second = 12,
    Size = 13,
    Vertex = 14,
    Loop = 15,
    Count = 16,
    Room = 17,
    Long = 18,
    Full = 19,
    Repeat = 20,
    Digit = 21,
    Space = 22,
    Unended = 23,
    SheetLine = 30,
    Member = 31,
    Order = 32,
    Twice = 33,
    Clash = 34,
    Ends = 35,
    Missing = 36,
    Extra = 37,
    Colours = 38,
}

impl Refusal {
    // The number of a refusal.
    pub fn number(self) -> usize
        ensures { result ≡ number_of self }
    {
        self as usize
    }

    // The line that is told with a refusal: the one that is given, where the table says that a line is returned with it; else 0.
    pub fn line(self, given: usize) -> usize
        ensures { result ≡ (told self given).line }
    {
        match self {
            Refusal::Many
            | Refusal::Stray
            | Refusal::Itself
            | Refusal::OneSided
            | Refusal::Short
            | Refusal::Budget
            | Refusal::Long
            | Refusal::Full
            | Refusal::Colours => 0,
            _ => given,
        }
    }

    // The column that is told with a refusal: the one that is given, where the table says that a line and a column are returned with it; else 0.
    pub fn column(self, given: usize) -> usize
        ensures { result ≡ (told_at self 0 given).column }
    {
        match self {
            Refusal::Line | Refusal::Digit | Refusal::Space | Refusal::Unended => given,
            _ => 0,
        }
    }
}

// What is wrong with a lent matrix: document 01's refusals 1 to 4, with the lowest row at fault.
#[derive(Clone, Copy, PartialEq, Eq)]
pub enum Invalid {
    Many,
    Stray(usize),
    Itself(usize),
    OneSided(usize),
}

impl Invalid {
    // The row at fault, 0 where none is named.
    pub fn row(self) -> usize
        ensures { result ≡ row_of self }
    {
        match self {
            Invalid::Many => 0,
            Invalid::Stray(row) | Invalid::Itself(row) | Invalid::OneSided(row) => row,
        }
    }
}

impl From<Invalid> for Refusal {
    ghost from_gives = { λ why r. r ≡ refusal_of_rows why };

    fn from(why: Invalid) -> Refusal {
        match why {
            Invalid::Many => Refusal::Many,
            Invalid::Stray(_) => Refusal::Stray,
            Invalid::Itself(_) => Refusal::Itself,
            Invalid::OneSided(_) => Refusal::OneSided,
        }
    }
}

// Why a search of a lent matrix gives no answer: document 01's refusals 1 to 6, with the nodes that it entered where the budget ended it.
#[derive(Clone, Copy, PartialEq, Eq)]
pub enum Unsolved {
    OfRows(Invalid),
    Short,
    Budget(u64),
}

impl From<Invalid> for Unsolved {
    ghost from_gives = { λ why r. r ≡ OfRows why };

    fn from(why: Invalid) -> Unsolved {
        Unsolved::OfRows(why)
    }
}

impl From<Unsolved> for Refusal {
    ghost from_gives = { λ why r. r ≡ refusal_of_search why };

    fn from(why: Unsolved) -> Refusal {
        match why {
            Unsolved::OfRows(rows) => rows.into(),
            Unsolved::Short => Refusal::Short,
            Unsolved::Budget(_) => Refusal::Budget,
        }
    }
}
