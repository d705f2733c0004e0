ghost use Rattle.std.specs.Prelude.{◌≡◌, ◌<◌, length, true, encode_utf8};
ghost use Rattle.place_core.specs.declared.mode.Mode.TheVariants as mode;
ghost use Rattle.url_lexer.specs.Classes as classes;
ghost use Rattle.url_step.specs.PartTexts as spec;

use crate::text::{next, refused};
use crate::text_point::{OpenTriple, TextPoint};
use place_core::{Chars, Code, Mode, Parts, Step, StepErr};
use url_lexer::{UrlClass, url_class_of};

/// The parts of a URL behind characters, from the parts before them; or why the characters are refused, at which place, and the parts
/// before what is refused. (RFC 3986, section 3.) Each character is read as the bytes of its UTF-8, and a number that is no character as
/// U+FFFD. The characters begin in no percent triple. Places are as those of the characters: in bytes from the beginning of the node. The
/// causes:
///
/// - `AmbigContext`: a `:` behind a value of data in the beginning, or where paths have spelled different things there; it stands at
///   the `:`.
/// - `PartialEscape`: in the mode `Open` the characters end in a percent triple; it stands one byte behind the place of the last character, and
///   the parts are those before the percent sign. In the mode `Whole` they may end in one.
///
/// A URL is no content of an element: the mode is not `Element`, and the answer is never `Step::Ends`. A reference by an unknown name, which
/// `html_step` refuses in a URL, is for `Chars` a character like others, U+FFFD. Takes no memory, and time in proportion to the number of
/// the characters.
pub fn after_text<C: Chars>(
    place: Parts,
    chars: C,
    mode: Mode,
) -> Result<Step<Parts>, StepErr<Parts>>
    requires mode { spec.is_in_value mode ≡ true }
    ensures { result ≡ spec.after_characters mode (C.left chars) place }
{
    let mut left = chars;
    let mut point = TextPoint {
        parts: place,
        triple: OpenTriple::None,
    };
    let mut end = 0;
    while let Some((code, at)) = left.next() {
        let character = scalar(code);
        if let Some(code) = character_refused(point.parts, character) {
            return Err(StepErr {
                code,
                at,
                before: point.parts,
            });
        }
        point = after_character(point, character);
        end = behind(at);
    }
    ended(mode, end, point)
}

// Why a byte of a character is refused.
fn character_refused(parts: Parts, character: char) -> Option<Code>
    ensures { result ≡ spec.bytes_error parts (encode_utf8 character) }
{
    let mut buffer = [0; 4];
    bytes_refused(parts, character.encode_utf8(&mut buffer).as_bytes())
}

fn bytes_refused(parts: Parts, bytes: &[u8]) -> Option<Code>
    ensures { result ≡ spec.bytes_error parts bytes.now }
{
    let mut here = parts;
    for byte in bytes {
        if let Some(code) = refused(here, *byte) {
            return Some(code);
        }
        here = next(here, *byte);
    }
    None
}

// Behind a character, and behind bytes.
fn after_character(point: TextPoint, character: char) -> TextPoint
    ensures { result ≡ spec.point_behind point (encode_utf8 character) }
{
    let mut buffer = [0; 4];
    after_bytes(point, character.encode_utf8(&mut buffer).as_bytes())
}

fn after_bytes(point: TextPoint, bytes: &[u8]) -> TextPoint
    ensures { result ≡ spec.point_behind point bytes.now }
{
    let mut here = point;
    for byte in bytes {
        here = after_byte(here, *byte);
    }
    here
}

fn after_byte(point: TextPoint, byte: u8) -> TextPoint
    ensures { result ≡ spec.point_next point byte }
{
    TextPoint {
        parts: next(point.parts, byte),
        triple: triple_behind(point, url_class_of(byte)),
    }
}

fn triple_behind(point: TextPoint, class: UrlClass) -> OpenTriple
    ensures { result ≡ spec.triple_next point.triple point.parts class }
{
    match (point.triple, class) {
        (_, UrlClass::Percent) => OpenTriple::Percent(point.parts),
        (OpenTriple::Percent(before), UrlClass::Hexadecimal) => OpenTriple::Digit(before),
        _ => OpenTriple::None,
    }
}

// Where the characters end: a node may not end in a percent triple.
fn ended(mode: Mode, end: u32, point: TextPoint) -> Result<Step<Parts>, StepErr<Parts>>
    ensures { result ≡ spec.text_end mode end point }
{
    match (mode, point.triple) {
        (Mode::Open | Mode::Element, OpenTriple::Percent(before) | OpenTriple::Digit(before)) =>
            Err(StepErr {
                code: Code::PartialEscape,
                at: end,
                before,
            }),
        _ => Ok(Step::Inside(point.parts)),
    }
}

// One byte behind the place of a character.
fn behind(at: u32) -> u32
    ensures { result ≡ spec.place_behind at }
{
    if at < u32::MAX { at + 1 } else { at }
}

// The character of a code point; U+FFFD for a number that is none.
fn scalar(code: u32) -> char
    ensures { result ≡ spec.scalar_of code }
{
    match char::from_u32(code) {
        Some(character) => character,
        None => '\u{FFFD}',
    }
}
