use crate::legible_text::PrintedPath;
use page_io::{Memory, Text};
use std::fmt;

/// Why bytes are no datum. They are looked at in this order: how many they are, how deep their
/// brackets nest, whether they are a JSON text, and whether its numbers are whole numbers of 64
/// bits.
#[derive(Debug, PartialEq, Eq, Drop)]
pub enum DataRefused {
    /// There are more bytes than `MAX_LENGTH`, so many.
    TooLong(u64),
    /// More than `MAX_DEPTH` brackets and braces are open at once, outside of strings.
    TooDeep,
    /// The bytes are no JSON text as `serde_json` reads it: that of RFC 8259, without numbers that
    /// no finite 64-bit float holds and escapes of lone surrogates.
    NotJson,
    /// A number is written with a point or an exponent, is `-0`, or is outside of `i64`: the path
    /// of the first one, depth first and with keys in byte order. It is written `.a.0`, a dot
    /// before each key or number of an item, and `.` alone where the whole text is that number.
    NotWhole(Text),
    /// Out of memory.
    Memory,
}

/// The refusal as it is printed: its name, and with `NotWhole` the path, as `legible_path` has it.
impl fmt::Display for DataRefused {
    ghost use Rattle.std.specs.Prelude.{Some};
    ghost use Rattle.page_datum.specs.Kinds.{data_refusal};

    ghost output = { λ refused. Some (data_refusal refused) };

    fn fmt<W: fmt::Write>(&self, f: &mut fmt::Formatter<W>) -> fmt::Result {
        match self {
            DataRefused::TooLong(_) => f.write_str("TooLong"),
            DataRefused::TooDeep => f.write_str("TooDeep"),
            DataRefused::NotJson => f.write_str("NotJson"),
            DataRefused::NotWhole(path) => {
                let path = PrintedPath::of(path.as_str());
                write!(f, "NotWhole {path}")
            }
            DataRefused::Memory => f.write_str("Memory"),
        }
    }
}

impl From<Memory> for DataRefused {
    ghost use Rattle.std.specs.Prelude.{◌≡◌};
    ghost use Rattle.page_datum.specs.declared.refused.DataRefused.TheVariants as refused;

    ghost from_gives = { λ _ e. e ≡ refused.Memory };

    fn from(_error: Memory) -> DataRefused {
        DataRefused::Memory
    }
}
