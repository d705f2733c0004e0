ghost use Rattle.std.specs.Prelude.{◌≡◌};
ghost use Rattle.page_io.specs.declared.stop.Stop.TheVariants as stop;
ghost use Rattle.tpl_pipe.specs.declared.refused.ParseRefused.TheVariants as refused;

use page_io::Stop;
use tpl_pipe::ParseRefused;
use tpl_token::TokenRefused;

/// Why a template file is not read. The lines are counted from 1.
#[derive(Clone, Copy, Debug, PartialEq, Eq, Drop)]
pub enum FileRefused {
    /// The text has no tokens, and the line of the offset that the cause names.
    Token(TokenRefused, u32),
    /// The tokens are no templates, and the line of the first token at which none goes on; that of the text's end for
    /// `UnclosedBlock`, that of the variable for `UndefinedVariable`, and that of the word `define` or `block` of the second
    /// definition for `MultipleDefinition`, which is 1 for the file's own body.
    Parse(ParseRefused, u32),
    /// Out of memory.
    Memory,
}

/// Why a symbol is refused, and its line.
pub type RefusalCause = (ParseRefused, u32);

/// Why a symbol is refused that is not allowed where it is.
pub fn unexpected(line: u32) -> Stop<RefusalCause>
    ensures { result ≡ stop.Cause (refused.UnexpectedToken, line) }
{
    Stop::Cause((ParseRefused::UnexpectedToken, line))
}
