// What was replayed, and how it came out.
use recorded_lines::fields::field;
use std::fmt::Display;
use std::{fmt, io};

// What a case calls: an operation, a look-up or the lister.
#[derive(Clone, Copy)]
pub enum Operation {
    Update,
    Prune,
    Renumber,
    Name,
    Id,
    Parent,
    List,
    Folded,
    Ids,
}

impl Operation {
    // All of them, in their order.
    pub const ALL: [Operation; 9] = [
        Operation::Update,
        Operation::Prune,
        Operation::Renumber,
        Operation::Name,
        Operation::Id,
        Operation::Parent,
        Operation::List,
        Operation::Folded,
        Operation::Ids,
    ];

    // The word that a case begins with, and that the report counts under.
    fn word(self) -> &'static str {
        match self {
            Operation::Update => "update",
            Operation::Prune => "prune",
            Operation::Renumber => "renumber",
            Operation::Name => "name",
            Operation::Id => "id",
            Operation::Parent => "parent",
            Operation::List => "list",
            Operation::Folded => "folded",
            Operation::Ids => "ids",
        }
    }
}

// What a line is. A comment has # first.
#[derive(Clone, Copy)]
pub enum Line {
    Case(Operation),
    Comment,
    Unknown,
}

// What a line is, by its first field.
pub fn line_of(text: &[u8]) -> Line {
    if text.first() == Some(&b'#') {
        return Line::Comment;
    }
    let word = field(text, 0);
    let operation = Operation::ALL
        .into_iter()
        .find(|operation| operation.word().as_bytes() == word);
    operation.map_or(Line::Unknown, Line::Case)
}

// Why a case doesn't agree.
#[derive(Clone, Copy)]
pub enum Fault {
    Differs,
    Unreadable,
}

impl Display for Fault {
    fn fmt<W: fmt::Write>(&self, f: &mut fmt::Formatter<W>) -> fmt::Result {
        f.write_str(match self {
            Fault::Differs => "differs",
            Fault::Unreadable => "can't be read",
        })
    }
}

// How a case came out.
pub type Verdict = Result<(), Fault>;

// The verdict on a comparison.
pub fn verdict_on(agrees: bool) -> Verdict {
    if agrees { Ok(()) } else { Err(Fault::Differs) }
}

// The lines so far, the cases of each operation, and how many agree and differ.
#[derive(Clone, Copy)]
pub struct Tally {
    lines: u64,
    cases: [u64; 9],
    agree: u64,
    differ: u64,
}

// One more. No file has so many lines that this wraps.
fn count(n: &mut u64) {
    *n = n.wrapping_add(1);
}

impl Tally {
    // Nothing so far.
    pub fn new() -> Self {
        Tally {
            lines: 0,
            cases: [0; 9],
            agree: 0,
            differ: 0,
        }
    }

    // The next line begins; a case counts for its operation.
    pub fn begin(&mut self, line: Line) {
        count(&mut self.lines);
        if let Line::Case(operation) = line {
            count(&mut self.cases[operation as usize]);
        }
    }

    // The case of the present line is done. One that doesn't agree is told; where that can't be written it is counted all the same.
    pub fn judge(&mut self, rt: &impl Print, verdict: Verdict) {
        let Err(fault) = verdict else {
            count(&mut self.agree);
            return;
        };
        let line = self.lines;
        let _ = println!(rt; "line {line} {fault}");
        count(&mut self.differ);
    }

    // Writes the counts.
    pub fn report(&self, rt: &impl Print) -> io::Result<()> {
        for (operation, n) in Operation::ALL.into_iter().zip(&self.cases) {
            let word = operation.word();
            println!(rt; "{word} {n}")?;
        }
        let agree = self.agree;
        let differ = self.differ;
        println!(rt; "{agree} cases agree, {differ} differ")
    }
}
