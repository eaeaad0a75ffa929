// Document 01's numbers of each answer, for callers that go by numbers: other languages, and the program.
ghost use Rattle.std.specs.Prelude.{◌≡◌};
ghost use Rattle.sittings.specs.Numbers.{verdict_numbers, bound_numbers, refused_walk_lem, walk_numbers, read_numbers, written_lem, refused_write_lem, list_numbers, sheet_numbers, check_numbers, mend_numbers, part_numbers, printed_numbers};

use answers::Full;
use bounds::Bound;
use lists::Unread;
use mends::Unmended;
use refusals::{Invalid, Refusal, Unsolved};
use sheets::Unchecked;
use walk::Fewest;

#[repr(C)]
#[derive(Clone, Copy)]
pub struct VerdictNumbers {
    pub refusal: usize,
    pub row: usize,
}

// `members` is the clique's set: bit i where entry i is in it.
#[repr(C)]
#[derive(Clone, Copy)]
pub struct BoundNumbers {
    pub refusal: usize,
    pub row: usize,
    pub bound: usize,
    pub members: u64,
}

// `clique` is the set of the starting graph's clique, as in `BoundNumbers`.
#[repr(C)]
#[derive(Clone, Copy)]
pub struct WalkNumbers {
    pub refusal: usize,
    pub row: usize,
    pub k: usize,
    pub nodes: u64,
    pub leaves: u64,
    pub clique: u64,
}

// `column` is 0 unless the refusal is one of a line's shape: 10, 21, 22 or 23. So in `CheckNumbers` and `MendNumbers`.
#[repr(C)]
#[derive(Clone, Copy)]
pub struct ReadNumbers {
    pub refusal: usize,
    pub line: usize,
    pub column: usize,
    pub entries: usize,
}

// Of writing a list, a sheet or an answer: `place` is the row, or the index of a colour byte.
#[repr(C)]
#[derive(Clone, Copy)]
pub struct WriteNumbers {
    pub refusal: usize,
    pub place: usize,
    pub length: usize,
}

// `text` says which text is at fault: 0 for none, 1 for the list, 2 for the sheet.
#[repr(C)]
#[derive(Clone, Copy)]
pub struct CheckNumbers {
    pub refusal: usize,
    pub line: usize,
    pub column: usize,
    pub groups: usize,
    pub text: usize,
}

// `text` as in `CheckNumbers`; `length` is that of report and mended sheet together.
#[repr(C)]
#[derive(Clone, Copy)]
pub struct MendNumbers {
    pub refusal: usize,
    pub line: usize,
    pub column: usize,
    pub length: usize,
    pub text: usize,
}

// A part of the text that `text` names, as in `CheckNumbers`: the place of its first byte, and its length.
#[repr(C)]
#[derive(Clone, Copy)]
pub struct PartNumbers {
    pub text: usize,
    pub start: usize,
    pub length: usize,
}

impl From<Result<(), Invalid>> for VerdictNumbers {
    ghost from_gives = { λ a r. r ≡ verdict_numbers a };

    fn from(answer: Result<(), Invalid>) -> VerdictNumbers {
        match answer {
            Ok(()) => VerdictNumbers { refusal: 0, row: 0 },
            Err(why) => VerdictNumbers {
                refusal: Refusal::from(why).number(),
                row: why.row(),
            },
        }
    }
}

impl From<Result<Bound, Invalid>> for BoundNumbers {
    ghost from_gives = { λ a r. r ≡ bound_numbers a };

    fn from(answer: Result<Bound, Invalid>) -> BoundNumbers {
        match answer {
            Ok(bound) => BoundNumbers {
                refusal: 0,
                row: 0,
                bound: bound.size,
                members: bound.members,
            },
            Err(why) => BoundNumbers {
                refusal: Refusal::from(why).number(),
                row: why.row(),
                bound: 0,
                members: 0,
            },
        }
    }
}

impl WalkNumbers {
    // A walk that is refused: every number that it does not name is 0.
    fn refused(why: Refusal, row: usize, nodes: u64) -> WalkNumbers
        ensures { result ≡ refused_walk_lem why row nodes }
    {
        WalkNumbers {
            refusal: why.number(),
            row,
            k: 0,
            nodes,
            leaves: 0,
            clique: 0,
        }
    }
}

impl From<Result<Fewest, Unsolved>> for WalkNumbers {
    ghost from_gives = { λ a r. r ≡ walk_numbers a };

    fn from(answer: Result<Fewest, Unsolved>) -> WalkNumbers {
        match answer {
            Ok(found) => WalkNumbers {
                refusal: 0,
                row: 0,
                k: found.k,
                nodes: found.nodes,
                leaves: found.leaves,
                clique: found.clique,
            },
            Err(Unsolved::OfRows(why)) => WalkNumbers::refused(why.into(), why.row(), 0),
            Err(Unsolved::Short) => WalkNumbers::refused(Refusal::Short, 0, 0),
            Err(Unsolved::Budget(nodes)) => WalkNumbers::refused(Refusal::Budget, 0, nodes),
        }
    }
}

impl From<Result<usize, Unread>> for ReadNumbers {
    ghost from_gives = { λ a r. r ≡ read_numbers a };

    fn from(answer: Result<usize, Unread>) -> ReadNumbers {
        match answer {
            Ok(entries) => ReadNumbers {
                refusal: 0,
                line: 0,
                column: 0,
                entries,
            },
            Err(unread) => {
                let why = Refusal::from(unread.why);
                ReadNumbers {
                    refusal: why.number(),
                    line: why.line(unread.line),
                    column: why.column(unread.column),
                    entries: 0,
                }
            }
        }
    }
}

impl WriteNumbers {
    // What is written.
    fn written(length: usize) -> WriteNumbers
        ensures { result ≡ written_lem length }
    {
        WriteNumbers {
            refusal: 0,
            place: 0,
            length,
        }
    }

    // What is refused, at this place: every number that it does not name is 0.
    fn refused(why: Refusal, place: usize) -> WriteNumbers
        ensures { result ≡ refused_write_lem why place }
    {
        WriteNumbers {
            refusal: why.number(),
            place,
            length: 0,
        }
    }
}

impl From<Result<usize, lists::Unwritten>> for WriteNumbers {
    ghost from_gives = { λ a r. r ≡ list_numbers a };

    fn from(answer: Result<usize, lists::Unwritten>) -> WriteNumbers {
        match answer {
            Ok(length) => WriteNumbers::written(length),
            Err(lists::Unwritten::OfRows(why)) => WriteNumbers::refused(why.into(), why.row()),
            Err(lists::Unwritten::Full) => WriteNumbers::refused(Refusal::Full, 0),
        }
    }
}

impl From<Result<usize, sheet_texts::Unwritten>> for WriteNumbers {
    ghost from_gives = { λ a r. r ≡ sheet_numbers a };

    fn from(answer: Result<usize, sheet_texts::Unwritten>) -> WriteNumbers {
        let n = sheet_texts::Numbers::from(answer);
        WriteNumbers {
            refusal: n.number,
            place: n.index,
            length: n.length,
        }
    }
}

impl From<Result<usize, Full>> for WriteNumbers {
    ghost from_gives = { λ a r. r ≡ printed_numbers a };

    fn from(answer: Result<usize, Full>) -> WriteNumbers {
        match answer {
            Ok(length) => WriteNumbers::written(length),
            Err(Full) => WriteNumbers::refused(Refusal::Full, 0),
        }
    }
}

impl From<Result<usize, Unchecked>> for CheckNumbers {
    ghost from_gives = { λ a r. r ≡ check_numbers a };

    fn from(answer: Result<usize, Unchecked>) -> CheckNumbers {
        let n = sheets::Numbers::from(answer);
        CheckNumbers {
            refusal: n.number,
            line: n.line,
            column: n.column,
            groups: n.groups,
            text: n.text as usize,
        }
    }
}

impl From<Result<usize, Unmended>> for MendNumbers {
    ghost from_gives = { λ a r. r ≡ mend_numbers a };

    fn from(answer: Result<usize, Unmended>) -> MendNumbers {
        let n = mends::Numbers::from(answer);
        MendNumbers {
            refusal: n.number,
            line: n.line,
            column: n.column,
            length: n.length,
            text: n.text as usize,
        }
    }
}

impl From<sheets::Part> for PartNumbers {
    ghost from_gives = { λ p r. r ≡ part_numbers p };

    fn from(p: sheets::Part) -> PartNumbers {
        PartNumbers {
            text: p.text as usize,
            start: p.start,
            length: p.length,
        }
    }
}
