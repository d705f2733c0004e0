use crate::refusal_lines::lines_of;
use page_datum::Shown;
use page_io::{Memory, Text};
use place_infer::SetRefused;
use tpl_parse::FileRefused;

/// Why files are refused. The first cause that holds is reported: of the first file, in the order of the files, that has a cause,
/// its size, its bytes, its tokens, and then the tokens as a template; and then that there are too many names, that there is no root,
/// and why the set has no chart.
#[derive(Debug, Drop)]
pub enum MakeRefused {
    /// A file has more bytes than `MAX_FILE` of `page_datum`.
    TooLarge(Text),
    /// A file is not UTF-8.
    NotUtf8(Text),
    /// A file has no tokens, or these are no templates.
    File(Text, FileRefused),
    /// The files define more than 1,024 names.
    TooManyTemplates,
    /// There is no root: no file, or only such whose names begin with `_`.
    NoTemplates,
    /// The set has no chart: a path of a root has an error, or there would be too many pairs.
    Set(SetRefused),
    /// Out of memory.
    Memory,
}

impl Shown for MakeRefused {
    ghost use Rattle.page_check.specs.RefusalTexts.{is_memory, refusal_text};

    ghost text = { refusal_text };

    ghost is_memory = { is_memory };

    fn lines(&self, out: &mut Text) -> Result<(), Memory> {
        let lines = lines_of(out.allocator(), self)?;
        out.push_str(lines.as_str())
    }

    fn memory(&self) -> bool {
        matches!(self, MakeRefused::Memory)
    }
}
