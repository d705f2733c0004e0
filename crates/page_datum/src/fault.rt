use page_io::Text;
use std::fmt;

/// What stops an execution: it has no meaning, or passes a limit.
#[derive(Clone, Copy, Debug, PartialEq, Eq)]
pub enum FaultKind {
    /// A field of what is neither a dictionary nor null.
    NoField,
    /// A field of null.
    NilField,
    /// An index or a slice of what has none.
    NotIndexable,
    /// An index outside of a list.
    IndexRange,
    /// A key of the wrong kind.
    KeyKind,
    /// Values that cannot be compared with each other.
    NotComparable,
    /// A call with a wrong number of arguments.
    WrongCount,
    /// A range over what is no list or dictionary.
    NotRangeable,
    /// A length of what has none.
    NoLength,
    /// No format, one that is malformed, or one that does not fit its operands.
    BadFormat,
    /// Too many open calls of templates.
    Depth,
    /// Too many steps.
    Budget,
    /// A slice outside of its list or text, or in the middle of a character.
    SliceRange,
    /// A text or a page that is too long.
    TooLong,
}

/// The name of the kind, as it is printed.
impl fmt::Display for FaultKind {
    ghost use Rattle.std.specs.Prelude.{Some};
    ghost use Rattle.page_datum.specs.Kinds.{fault_kind};

    ghost output = { λ kind. Some (fault_kind kind) };

    fn fmt<W: fmt::Write>(&self, f: &mut fmt::Formatter<W>) -> fmt::Result {
        f.write_str(match self {
            FaultKind::NoField => "NoField",
            FaultKind::NilField => "NilField",
            FaultKind::NotIndexable => "NotIndexable",
            FaultKind::IndexRange => "IndexRange",
            FaultKind::KeyKind => "KeyKind",
            FaultKind::NotComparable => "NotComparable",
            FaultKind::WrongCount => "WrongCount",
            FaultKind::NotRangeable => "NotRangeable",
            FaultKind::NoLength => "NoLength",
            FaultKind::BadFormat => "BadFormat",
            FaultKind::Depth => "Depth",
            FaultKind::Budget => "Budget",
            FaultKind::SliceRange => "SliceRange",
            FaultKind::TooLong => "TooLong",
        })
    }
}

/// A fault of an execution: its kind, and the template and the line of the action that met it.
#[derive(Debug, PartialEq, Eq, Drop)]
pub struct ExecFault {
    pub kind: FaultKind,
    pub template: Text,
    pub line: u32,
}
