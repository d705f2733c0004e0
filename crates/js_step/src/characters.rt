ghost use Rattle.std.specs.Prelude.{◌≡◌, ◌+◌, ◌^◌, ◌-◌, ◌≤◌, true, encode_utf8, length, option_map, take, Option};
ghost use Rattle.js_lexer.specs.Refusals.{Cause};
ghost use Rattle.js_step.specs.ScriptCharacters as spec;
ghost use Rattle.js_step.specs.ScriptCharacters.{script_read_at};
ghost use Rattle.js_step.specs.ScriptScanViews.{ScriptScanFits, most_bytes, script_cause_at};

use crate::begin::start;
use crate::cause::ScriptCause;
use crate::ends::{refused_at_cut, refused_at_end};
use crate::places::{place as place_of, shown};
use crate::refusals::refused;
use crate::script_read::{RefusedScript, ScriptRead};
use crate::text::next;
use place_core::{Chars, Js, Mode, Step, StepErr};

/// The place in a script behind characters, from the place before them; or why the characters are refused, at which place, and the place
/// in the script that is shown. Each character is read as the bytes of its UTF-8, and a number that is no character as U+FFFD. Places are
/// as those of the characters: in bytes from the beginning of the node. A cause stands at the character that holds the byte where it
/// stands; that may be one before the character at which it is known. At the end of the characters it stands one byte behind the place of
/// the last of them, where it stands at none. What is shown is the place before the lexeme in which the cause stands: before the slash, the
/// `<!--`, the escape, the `[`, the outermost template literal; and at `BadString` the place before the end of the line. The causes:
///
/// - `SlashAmbig`: a slash that begins no comment, where one divides on one path and begins a regular expression on another one, or where
///   it is not known what it begins, as behind a `}`. So it is at the end.
/// - `BadString`: the end of a line in a string or a regular expression.
/// - `HtmlInScript`: in code `<!--`, `-->` or `#!`, where HTML would begin a comment.
/// - `SplitToken`: a character at the beginning that would go on with what some path has ended in; and in the mode `Open` the characters
///   end in `<!`, `<!-`, or `</` and a beginning of `script`.
/// - `PartialEscape`, `PartialCharset`, `JSTemplate`: in the mode `Open` the characters end in an escape, in a `[ ]` of a regular
///   expression, or in a template literal. In the mode `Whole` they may. `JSTemplate` too: more than 16 template literals nest, in both.
///
/// The script is a value: the mode is not `Element`, and the answer is never `Step::Ends`. In the mode `Open` the node ends with the
/// characters, in the mode `Whole` the value does. There are no more than 2^120 characters, so that their bytes can be counted. Takes no
/// memory, and time in proportion to the number of the characters.
pub fn after_text<C: Chars>(place: Js, chars: C, mode: Mode) -> Result<Step<Js>, StepErr<Js>>
    requires mode { spec.is_script_of_value mode ≡ true }
    requires count { length (C.left chars) ≤ 2 ^ 120 }
    ensures { result ≡ spec.after_script_characters mode (C.left chars) place }
{
    let mut left = chars;
    let mut read = started(place);
    while let Some((code, _)) = left.next() {
        let character = scalar(code);
        if let Some(refused) = character_refused(read, character) {
            return Err(refusal(refused, place, chars));
        }
        read = after_character(read, character);
    }
    match ended(mode, read) {
        Some(refused) => Err(refusal(refused, place, chars)),
        None => Ok(Step::Inside(place_of(read.scan))),
    }
}

// What is refused, at its character, with the place that is shown.
fn refusal<C: Chars>(refused: RefusedScript, place: Js, chars: C) -> StepErr<Js>
    requires count { length (C.left chars) ≤ 2 ^ 120 }
    ensures { result ≡ spec.script_refusal place (C.left chars) refused }
{
    StepErr {
        code: refused.code,
        at: byte_place(refused.byte, chars),
        before: shown_behind(refused.shown, place, chars),
    }
}

// The place of the character that holds a byte.
fn byte_place<C: Chars>(byte: u128, chars: C) -> u32
    ensures { result ≡ spec.script_byte_place byte 0 (C.left chars) }
{
    let mut left = chars;
    let mut ahead = byte;
    let mut end = 0;
    while let Some((code, at)) = left.next() {
        let len = scalar(code).len_utf8() as u128;
        if ahead < len {
            return at;
        }
        ahead -= len;
        end = behind(at);
    }
    end
}

// The place that is shown behind the first bytes of characters.
fn shown_behind<C: Chars>(bytes: u128, place: Js, chars: C) -> Js
    requires count { length (C.left chars) ≤ 2 ^ 120 }
    ensures { result ≡ spec.script_shown_behind bytes (spec.script_text_bytes (C.left chars))
        (spec.script_read_start place) }
{
    let mut left = chars;
    let mut ahead = bytes;
    let mut read = started(place);
    while let Some((code, _)) = left.next() {
        let character = scalar(code);
        let len = character.len_utf8() as u128;
        if ahead < len {
            return shown_or_last(within_character(read, character, ahead as usize));
        }
        ahead -= len;
        read = after_character(read, character);
    }
    shown_or_last(read)
}

// Where a text begins.
fn started(place: Js) -> ScriptRead
    ensures count { result.count ≡ 0 }
    ensures fits { ScriptScanFits 0 result.scan }
    ensures read { script_read_at result ≡ spec.script_read_start place }
{
    ScriptRead {
        scan: start(place),
        last: place,
        count: 0,
    }
}

// The place that is shown, or the last one that was.
fn shown_or_last(read: ScriptRead) -> Js
    ensures { result ≡ spec.script_read_shown (script_read_at read) }
{
    match shown(read.scan) {
        Some(here) => here,
        None => read.last,
    }
}

// The number of the bytes before one that stands so many back.
fn byte_back(count: u128, back: u128) -> u128
    ensures { result ≡ count - back }
{
    if count < back { 0 } else { count - back }
}

// A cause, with the byte where it stands, and the one before which the place is shown.
fn there(read: ScriptRead, cause: Option<ScriptCause>) -> Option<RefusedScript>
    ensures { (o : Option Cause) → cause ≡ option_map script_cause_at o
        → result ≡ spec.script_refused_there read.count o }
{
    match cause {
        Some(cause) => Some(RefusedScript {
            code: cause.code,
            byte: byte_back(read.count, cause.back),
            shown: byte_back(read.count, cause.shown),
        }),
        None => None,
    }
}

// Behind a byte.
#[tactic(auto, using(crate::proofs::ScriptRoom::fits_most))]
fn after_byte(read: ScriptRead, byte: u8) -> ScriptRead
    requires count { read.count ≤ most_bytes }
    requires fits { ScriptScanFits read.count read.scan }
    ensures count { result.count ≡ read.count + 1 }
    ensures fits { ScriptScanFits result.count result.scan }
    ensures read { script_read_at result ≡ spec.script_read_next (script_read_at read) byte }
{
    ScriptRead {
        scan: next(read.scan, byte),
        last: shown_or_last(read),
        count: read.count + 1,
    }
}

// Why a byte is refused.
fn byte_refused(read: ScriptRead, byte: u8) -> Option<RefusedScript>
    ensures { result ≡ spec.script_byte_error (script_read_at read) byte }
{
    there(read, refused(false, read.scan, byte))
}

// Why a byte of several is refused, and where they lead.
fn bytes_refused(read: ScriptRead, bytes: &[u8]) -> Option<RefusedScript>
    requires count { read.count + length bytes.now ≤ most_bytes }
    requires fits { ScriptScanFits read.count read.scan }
    ensures { result ≡ spec.script_bytes_error (script_read_at read) bytes.now }
{
    let mut here = read;
    for byte in bytes {
        if let Some(refused) = byte_refused(here, *byte) {
            return Some(refused);
        }
        here = after_byte(here, *byte);
    }
    None
}

fn after_bytes(read: ScriptRead, bytes: &[u8]) -> ScriptRead
    requires count { read.count + length bytes.now ≤ most_bytes }
    requires fits { ScriptScanFits read.count read.scan }
    ensures count { result.count ≡ read.count + length bytes.now }
    ensures fits { ScriptScanFits result.count result.scan }
    ensures read { script_read_at result
        ≡ spec.script_read_behind (script_read_at read) bytes.now }
{
    let mut here = read;
    for byte in bytes {
        here = after_byte(here, *byte);
    }
    here
}

// The same of the bytes of a character.
#[tactic(auto, using(crate::proofs::ScriptRoom::most_four))]
fn character_refused(read: ScriptRead, character: char) -> Option<RefusedScript>
    requires count { read.count + 4 ≤ most_bytes }
    requires fits { ScriptScanFits read.count read.scan }
    ensures { result ≡ spec.script_bytes_error (script_read_at read) (encode_utf8 character) }
{
    let mut buffer = [0; 4];
    bytes_refused(read, character.encode_utf8(&mut buffer).as_bytes())
}

#[tactic(auto, using(crate::proofs::ScriptRoom::most_four))]
fn after_character(read: ScriptRead, character: char) -> ScriptRead
    requires count { read.count + 4 ≤ most_bytes }
    requires fits { ScriptScanFits read.count read.scan }
    ensures count { result.count ≤ read.count + 4 }
    ensures fits { ScriptScanFits result.count result.scan }
    ensures read { script_read_at result
        ≡ spec.script_read_behind (script_read_at read) (encode_utf8 character) }
{
    let mut buffer = [0; 4];
    after_bytes(read, character.encode_utf8(&mut buffer).as_bytes())
}

// Behind the first bytes of a character.
#[tactic(auto, using(crate::proofs::ScriptRoom::most_four))]
fn within_character(read: ScriptRead, character: char, bytes: usize) -> ScriptRead
    requires count { read.count + 4 ≤ most_bytes }
    requires fits { ScriptScanFits read.count read.scan }
    requires bytes { bytes ≤ length (encode_utf8 character) }
    ensures read { script_read_at result
        ≡ spec.script_read_behind (script_read_at read) (take bytes (encode_utf8 character)) }
{
    let mut buffer = [0; 4];
    after_bytes(
        read,
        &character.encode_utf8(&mut buffer).as_bytes()[..bytes],
    )
}

// Where the characters end: with the node, or with the value.
fn ended(mode: Mode, read: ScriptRead) -> Option<RefusedScript>
    ensures { result ≡ spec.script_characters_end mode (script_read_at read) }
{
    match mode {
        Mode::Whole => there(read, refused_at_end(read.scan)),
        Mode::Open | Mode::Element => there(read, refused_at_cut(read.scan)),
    }
}

// One byte behind the place of a character.
fn behind(at: u32) -> u32
    ensures { result ≡ spec.script_place_behind at }
{
    if at < u32::MAX { at + 1 } else { at }
}

// The character of a code point; U+FFFD for a number that is none.
fn scalar(code: u32) -> char
    ensures { result ≡ spec.script_scalar code }
{
    match char::from_u32(code) {
        Some(character) => character,
        None => '\u{FFFD}',
    }
}
