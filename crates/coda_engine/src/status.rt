// How a run ends, and what is wrong in a line.
ghost use Rattle.std.specs.Prelude.{◌≡◌, Some};
ghost use Rattle.coda_engine.specs.Status.{code_of, kind_text, text_of};

use std::fmt;

/// What is wrong in a line at its first wrong column.
#[derive(Clone, Copy, Debug, PartialEq, Eq)]
pub enum Kind {
    /// A word isn't the one that must stand there.
    Word,
    /// A number isn't written as one, or isn't in its range.
    Number,
    /// The bytes are no token, or a quoted text isn't in its range.
    Text,
    /// A path isn't one.
    Path,
    /// A token is missing, or is one too many.
    Count,
    /// The command doesn't take the line, or not in this place.
    Mode,
    /// The line names one actor too many.
    Actors,
}

impl fmt::Display for Kind {
    ghost output = { λ kind. Some (kind_text kind) };

    fn fmt<W: fmt::Write>(&self, f: &mut fmt::Formatter<W>) -> fmt::Result {
        f.write_str(match self {
            Kind::Word => "word",
            Kind::Number => "number",
            Kind::Text => "text",
            Kind::Path => "path",
            Kind::Count => "count",
            Kind::Mode => "mode",
            Kind::Actors => "actors",
        })
    }
}

/// How a run ends. It is shown as the text that goes to standard error, without a newline; `Done` has none.
#[derive(Clone, Copy, Debug, PartialEq, Eq)]
pub enum Status {
    /// Every line ran, and the whole report was written.
    Done,
    /// The words of the command line name no command.
    Usage,
    /// A line was refused: its number from 1, its first wrong column from 1, and what is wrong there.
    Script { line: u32, column: u32, kind: Kind },
    /// A read of the script was refused.
    SourceFault,
    /// A write of the report was refused, or took nothing: a front of the report of the lines that ran is written, not all of it.
    SinkFault,
    /// The bay refused a disk, or a crash.
    BayFault,
    /// A byte was read that passes 16 MiB or begins line 200,001.
    TooLong,
    /// There was no memory.
    Memory,
}

impl Status {
    /// The exit code, from 0 to 8.
    pub fn code(self) -> u8
        ensures { result ≡ code_of self }
    {
        match self {
            Status::Done => 0,
            Status::Usage => 2,
            Status::Script { .. } => 3,
            Status::SourceFault => 4,
            Status::SinkFault => 5,
            Status::BayFault => 6,
            Status::TooLong => 7,
            Status::Memory => 8,
        }
    }
}

impl fmt::Display for Status {
    ghost output = { λ status. Some (text_of status) };

    fn fmt<W: fmt::Write>(&self, f: &mut fmt::Formatter<W>) -> fmt::Result {
        match self {
            Status::Done => Ok(()),
            Status::Usage => {
                f.write_str("coda: usage: coda run | coda par | coda load START LINES")
            }
            Status::Script { line, column, kind } => {
                write!(f, "coda: line {line} column {column}: {kind}")
            }
            Status::SourceFault => f.write_str("coda: read fault"),
            Status::SinkFault => f.write_str("coda: write fault"),
            Status::BayFault => f.write_str("coda: bay fault"),
            Status::TooLong => f.write_str("coda: script too long"),
            Status::Memory => f.write_str("coda: out of memory"),
        }
    }
}
