// A hand-edited sheet, put right (document 02, Ask 9): what mending is (specs/) and what it gives (proofs/). The code is in the crate mending. Here are only
// the types that both speak of, and their conversions.
#![tactic(auto)]

ghost use Rattle.std.specs.Prelude.{◌≡◌};
ghost use Rattle.mends.specs.Promise.{refused_in_lem, numbers_of_lem};
ghost use Rattle.mends.specs.declared.Unmended.TheVariants.{OfList, OfSheet};

use lists::Unread;
use refusals::Refusal;
use sheets::{Refused, Text};

// Why nothing was written: the list's own refusal, with its line and column; the sheet's, 18, 30, 35 or 37, with its line (0 where none is named); or 19.
#[derive(Clone, Copy, PartialEq, Eq)]
pub enum Unmended {
    OfList(Unread),
    OfSheet(Refused),
    Full,
}

impl From<Unread> for Unmended {
    ghost from_gives = { λ why r. r ≡ OfList why };

    fn from(why: Unread) -> Unmended {
        Unmended::OfList(why)
    }
}

impl From<Refused> for Unmended {
    ghost from_gives = { λ why r. r ≡ OfSheet why };

    fn from(why: Refused) -> Unmended {
        Unmended::OfSheet(why)
    }
}

// Document 01's numbers of an answer; those that it does not name are 0. `text` says which text is at fault, as a check's numbers do.
#[derive(Clone, Copy)]
pub struct Numbers {
    pub number: usize,
    pub line: usize,
    pub column: usize,
    pub length: usize,
    pub text: Text,
}

// The numbers of a refusal of this text, with its line and its column where the table names them.
fn refused_in(text: Text, why: Refusal, line: usize, column: usize) -> Numbers
    ensures { result ≡ refused_in_lem text why line column }
{
    Numbers {
        number: why.number(),
        line: why.line(line),
        column: why.column(column),
        length: 0,
        text,
    }
}

// Written, with the length of report and sheet together, or refused.
impl From<Result<usize, Unmended>> for Numbers {
    ghost from_gives = { λ answer r. r ≡ numbers_of_lem answer };

    fn from(answer: Result<usize, Unmended>) -> Numbers {
        match answer {
            Ok(length) => Numbers {
                number: 0,
                line: 0,
                column: 0,
                length,
                text: Text::Neither,
            },
            Err(Unmended::OfList(list)) => {
                refused_in(Text::TheList, list.why.into(), list.line, list.column)
            }
            Err(Unmended::OfSheet(sheet)) => {
                refused_in(Text::TheSheet, sheet.why.into(), sheet.line, 0)
            }
            Err(Unmended::Full) => refused_in(Text::TheSheet, Refusal::Full, 0, 0),
        }
    }
}

// What is still to come of a sheet once "groups K" was read: how many groups, and how many members of this one.
#[derive(Clone, Copy)]
pub struct Counts {
    pub left: usize,
    pub need: usize,
}

// What a line without fault is, by its place: "groups K", a size, or a member; and what is still to come after it.
#[derive(Clone, Copy)]
pub enum Step {
    Groups(Counts),
    Size(Counts),
    Member(Counts, usize),
}
