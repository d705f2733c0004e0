// Where the lexeme begins with which a text may end unfinished: a percent triple, or an escape of a style.
ghost use Rattle.std.specs.Prelude.{◌≡◌, ◌+◌, ◌<◌, ◌≤◌, encode_utf8, get_or, length};
ghost use Rattle.place_core.specs.page.References as references;
ghost use Rattle.place_core.specs.place.LastLexeme.{is_lexeme_start};
ghost use Rattle.place_core.specs.place.LastLexeme as spec;
ghost use Rattle.html_scan.specs.ClassViews.{class_at};
ghost use Rattle.html_scan.specs.ScanViews.{open_form_at, pending_from, scan_at};
ghost use Rattle.html_scan.specs.Scans.{scan_reference};

use crate::class::Class;
use crate::references::{Outcome, ReferenceForm, broken_char, is_equals, meaning, turn};
use crate::scan::Scan;
use crate::slices::pending;

/// The place of the last `%` or `\` of a text up to its byte at an index, from the one before. A reference to one in a URL or a
/// style stands at its `&`.
#[inline(always)]
pub fn last_lexeme_start(
    text: &[u8],
    index: usize,
    before: usize,
    class: Class,
    scan: Scan,
) -> usize
    requires inside { index < length text.now }
    requires pending { pending_from scan ≤ index }
    ensures last { result ≡ spec.last_lexeme_start index before
        (scan_reference (scan_at text.now index scan)) (class_at class) (get_or text.now index 0) }
    ensures bound { before ≤ index → result ≤ index }
{
    if text[index] == b'%' || text[index] == b'\\' {
        return index;
    }
    match scan {
        Scan::InUrl {
            reference: Some(open),
            ..
        }
        | Scan::InStyle {
            reference: Some(open),
            ..
        } => {
            if is_start(class, open.form, pending(text, open.from + 1, index)) {
                open.from
            } else {
                before
            }
        }
        _ => before,
    }
}

// Whether a reference, of which this has been read, is found to be such a byte at a byte of this class.
fn is_start(class: Class, form: ReferenceForm, read: &[u8]) -> bool
    ensures { result ≡ is_lexeme_start (spec.ended_reference
        (references.turn (class_at class) (open_form_at form)) (class_at class)
        (open_form_at form) read.now) }
{
    match turn(class, form) {
        Outcome::Grows(_) => false,
        Outcome::Closes => is_start_char(meaning(form, read)),
        Outcome::Breaks => match broken_char(is_equals(class), form, read) {
            Some(found) => is_start_char(found),
            None => false,
        },
    }
}

fn is_start_char(found: char) -> bool
    ensures { result ≡ is_lexeme_start (encode_utf8 found) }
{
    let mut buffer = [0; 4];
    let bytes = found.encode_utf8(&mut buffer);
    bytes == "%" || bytes == "\\"
}
