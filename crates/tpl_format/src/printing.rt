ghost use Rattle.page_datum.specs.View.{ref_view};
ghost use Rattle.tpl_format.specs.Answers.{PrintAnswers, datas};
ghost use Rattle.tpl_format.specs.Prints.{printed_text, printed_args, printed_line};
ghost use Rattle.std.specs.Prelude.{◌≡◌};
ghost use Rattle.tpl_format.specs.Prints as spec;

use crate::limit::is_long;
use page_datum::{DatumRef, FaultKind, ValueStop, show_datum};
use page_io::{Memory, Text};
use std::alloc::Global;

/// What `print` makes of its arguments, or `println` where a line is wanted: each as `print_datum` prints it, but null as `<nil>`.
/// `print` puts a space between two of which neither is a text, `println` between any two, and LF at the end. (Go's
/// `text/template`, "Functions", in a profile.)
///
/// The errors are TooLong, where the text would have more than 16,777,216 bytes, and out of memory.
pub fn print(alloc: Global, args: &[DatumRef<'_>], line: bool) -> Result<Text, ValueStop>
    ensures { PrintAnswers (printed_text line (datas args.now)) result }
{
    if line {
        return print_line(alloc, args);
    }
    print_args(alloc, args)
}

// The arguments with a space between two of which neither is a text.
fn print_args(alloc: Global, args: &[DatumRef<'_>]) -> Result<Text, ValueStop>
    ensures { PrintAnswers (printed_args (datas args.now)) result }
{
    let mut out = Text::new(alloc);
    let mut apart = false;
    for datum in args {
        let other = !is_text(*datum);
        if apart && other {
            out.push_str(" ")?;
        }
        show_datum(alloc, *datum, &mut out)?;
        if is_long(&out) {
            return Err(ValueStop::Fault(FaultKind::TooLong));
        }
        apart = other;
    }
    Ok(out)
}

// The arguments with a space between any two, and LF.
fn print_line(alloc: Global, args: &[DatumRef<'_>]) -> Result<Text, ValueStop>
    ensures { PrintAnswers (printed_line (datas args.now)) result }
{
    let mut out = Text::new(alloc);
    let mut later = false;
    for datum in args {
        if later {
            out.push_str(" ")?;
        }
        show_datum(alloc, *datum, &mut out)?;
        if is_long(&out) {
            return Err(ValueStop::Fault(FaultKind::TooLong));
        }
        later = true;
    }
    out.push_str("\n")?;
    if is_long(&out) {
        return Err(ValueStop::Fault(FaultKind::TooLong));
    }
    Ok(out)
}

fn is_text(datum: DatumRef<'_>) -> bool
    ensures { result ≡ spec.is_text_datum (ref_view datum.entry) }
{
    match datum {
        DatumRef::Text(_) => true,
        _ => false,
    }
}
