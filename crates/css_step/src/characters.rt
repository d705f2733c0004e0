ghost use Rattle.std.specs.Prelude.{◌≡◌, true, encode_utf8};
ghost use Rattle.css_step.specs.StyleCharacters.{begins_style_lexeme, style_bytes_error};
ghost use Rattle.css_step.specs.StyleCharacters.{style_point_at, style_since, style_text_end};
ghost use Rattle.css_step.specs.StyleCharacters as spec;
ghost use Rattle.css_step.specs.StyleScanViews.{style_scan_at};
ghost use Rattle.place_core.specs.declared.mode.Mode.TheVariants as mode;
ghost use Rattle.url_step.specs.PartTexts.{is_in_value, place_behind, scalar_of};

use crate::cut;
use crate::cut::{refused_at_cut, start};
use crate::refusals::refused;
use crate::scan::StyleScan;
use crate::style_point::StylePoint;
use crate::text::next;
use place_core::{Chars, Code, Css, Mode, Step, StepErr};

/// The place in a style behind characters, from the place before them; or why the characters are refused, at which place, and the place
/// in the style before what is refused. (CSS Syntax Level 3, section 4.3.) Each character is read as the bytes of its UTF-8, and a
/// number that is no character as U+FFFD. The characters begin in no escape and no percent triple. Places are as those of the
/// characters: in bytes from the beginning of the node. The causes:
///
/// - `SplitToken`: a character at the beginning that would go on with what some path has ended in: a `*` behind a `/`, a `/` behind a
///   `<`, a `/` behind a `*` of a comment, and a `(` behind a word that some path has from before the characters.
/// - `BadString`: the end of a line in a string, or in a URL in quotes; a quote, a `(` or a backslash in a URL without quotes; behind a
///   URL all but white space and a `)`.
/// - `AmbigContext`: in a URL a `:` behind a value of data in the beginning, or where paths have spelled different things there.
/// - `PartialEscape`: in the mode `Open` the characters end in an escape or a percent triple; it stands one byte behind the place of the
///   last character, and the place is that before the backslash or the percent sign. In the mode `Whole` they may end in one.
///
/// The style is a value: the mode is not `Element`, and the answer is never `Step::Ends`. The reader of an element, which looks for its
/// end tag, is not part of this crate. A reference by an unknown name, which `html_step` refuses in a style, is for `Chars` a character like
/// others, U+FFFD. Takes no memory, and time in proportion to the number of the characters.
pub fn after_text<C: Chars>(place: Css, chars: C, mode: Mode) -> Result<Step<Css>, StepErr<Css>>
    requires mode { is_in_value mode ≡ true }
    ensures { result ≡ spec.after_style_characters mode (C.left chars) place }
{
    let mut left = chars;
    let mut point = StylePoint {
        scan: start(place),
        since: place,
    };
    let mut end = 0;
    while let Some((code, at)) = left.next() {
        let character = scalar(code);
        if let Some(code) = character_refused(point.scan, character) {
            return Err(StepErr {
                code,
                at,
                before: cut::place(point.scan),
            });
        }
        point = after_character(point, character);
        end = behind(at);
    }
    ended(mode, end, point)
}

// Why a byte of a character is refused.
fn character_refused(scan: StyleScan, character: char) -> Option<Code>
    ensures { result ≡ style_bytes_error (style_scan_at scan) (encode_utf8 character) }
{
    let mut buffer = [0; 4];
    bytes_refused(scan, character.encode_utf8(&mut buffer).as_bytes())
}

fn bytes_refused(scan: StyleScan, bytes: &[u8]) -> Option<Code>
    ensures { result ≡ style_bytes_error (style_scan_at scan) bytes.now }
{
    let mut here = scan;
    for byte in bytes {
        if let Some(code) = refused(here, *byte) {
            return Some(code);
        }
        here = next(here, *byte);
    }
    None
}

// Behind a character, and behind bytes.
fn after_character(point: StylePoint, character: char) -> StylePoint
    ensures { style_point_at result
        ≡ spec.style_point_behind (style_point_at point) (encode_utf8 character) }
{
    let mut buffer = [0; 4];
    after_bytes(point, character.encode_utf8(&mut buffer).as_bytes())
}

fn after_bytes(point: StylePoint, bytes: &[u8]) -> StylePoint
    ensures { style_point_at result ≡ spec.style_point_behind (style_point_at point) bytes.now }
{
    let mut here = point;
    for byte in bytes {
        here = after_byte(here, *byte);
    }
    here
}

fn after_byte(point: StylePoint, byte: u8) -> StylePoint
    ensures { style_point_at result ≡ spec.style_point_next (style_point_at point) byte }
{
    StylePoint {
        scan: next(point.scan, byte),
        since: since(begins_lexeme(byte), cut::place(point.scan), point.since),
    }
}

// Whether an escape or a percent triple may begin with a byte.
fn begins_lexeme(byte: u8) -> bool
    ensures { result ≡ begins_style_lexeme byte }
{
    byte == b'%' || byte == b'\\'
}

fn since(begins: bool, here: Css, before: Css) -> Css
    ensures { result ≡ style_since begins here before }
{
    if begins { here } else { before }
}

// Where the characters end: a node may not end in an escape or a percent triple.
fn ended(mode: Mode, end: u32, point: StylePoint) -> Result<Step<Css>, StepErr<Css>>
    ensures { result ≡ style_text_end mode end (style_point_at point) }
{
    match mode {
        Mode::Whole => Ok(Step::Inside(cut::place(point.scan))),
        Mode::Open | Mode::Element => ended_with_node(end, point),
    }
}

fn ended_with_node(end: u32, point: StylePoint) -> Result<Step<Css>, StepErr<Css>>
    ensures { result ≡ spec.style_text_end mode.Open end (style_point_at point) }
{
    match refused_at_cut(point.scan) {
        Some(cut) => Err(StepErr {
            code: cut.code,
            at: end,
            before: point.since,
        }),
        None => Ok(Step::Inside(cut::place(point.scan))),
    }
}

// One byte behind the place of a character.
fn behind(at: u32) -> u32
    ensures { result ≡ place_behind at }
{
    if at < u32::MAX { at + 1 } else { at }
}

// The character of a code point; U+FFFD for a number that is none.
fn scalar(code: u32) -> char
    ensures { result ≡ scalar_of code }
{
    match char::from_u32(code) {
        Some(character) => character,
        None => '\u{FFFD}',
    }
}
