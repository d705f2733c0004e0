ghost use Rattle.std.specs.Prelude.{◌≡◌, false, length, true};
ghost use Rattle.js_lexer.specs.Refusals as refusals;
ghost use Rattle.js_lexer.specs.Trails as trails;
ghost use Rattle.js_step.specs.ScriptScanViews.{script_letters_at, script_lexeme_at};
ghost use Rattle.js_step.specs.ScriptScanViews.{script_is_refused, script_is_refused_inside};
ghost use Rattle.js_step.specs.ScriptScanViews.{script_markup_at};
ghost use Rattle.js_step.specs.declared.scan.ScriptMarkup.TheVariants as markup;

use crate::scan::{ScriptAt, ScriptLetters, ScriptMarkup};
use js_lexer::Sense;

// Whether a `<`, a `#` or a `-` is punctuation of code there. In the code of a template literal (`inside`) comments count too.
fn is_code(inside: bool, at: ScriptAt) -> bool
    ensures { result ≡ trails.is_markup_code inside (script_lexeme_at at) }
{
    match at {
        ScriptAt::Code(_)
        | ScriptAt::Word(_)
        | ScriptAt::Number
        | ScriptAt::Pluses(_)
        | ScriptAt::Minuses(_)
        | ScriptAt::Slash(Sense::Div | Sense::Brace) => true,
        ScriptAt::Line(_) | ScriptAt::Block(_, _) => inside,
        _ => false,
    }
}

// The word that a byte begins.
fn begun(code: bool, byte: u8) -> ScriptMarkup
    ensures { script_markup_at result ≡ trails.begun_markup code byte }
{
    match byte {
        b'<' if code => ScriptMarkup::Tag(false, ScriptLetters::None),
        b'#' if code => ScriptMarkup::Hash,
        b'-' if code => ScriptMarkup::Minus,
        _ => ScriptMarkup::None,
    }
}

// Behind `<` outside of template literals, where `<script` is no word.
fn behind_less(code: bool, letters: ScriptLetters, byte: u8) -> ScriptMarkup
    ensures { script_markup_at result
        ≡ trails.next_markup false code (script_markup_at (markup.Tag false letters)) byte }
{
    match (letters, byte) {
        (ScriptLetters::None, b'/') => ScriptMarkup::Tag(true, ScriptLetters::None),
        (ScriptLetters::None, b'!') => ScriptMarkup::LessBang,
        _ => begun(code, byte),
    }
}

// Behind `<` or `</`, and letters, in a template literal.
fn behind_letters(code: bool, solidus: bool, letters: ScriptLetters, byte: u8) -> ScriptMarkup
    ensures { script_markup_at result
        ≡ trails.next_markup true code (script_markup_at (markup.Tag solidus letters)) byte }
{
    match (solidus, letters, byte) {
        (_, ScriptLetters::None, b's') => ScriptMarkup::Tag(solidus, ScriptLetters::S),
        (_, ScriptLetters::S, b'c') => ScriptMarkup::Tag(solidus, ScriptLetters::Sc),
        (_, ScriptLetters::Sc, b'r') => ScriptMarkup::Tag(solidus, ScriptLetters::Scr),
        (_, ScriptLetters::Scr, b'i') => ScriptMarkup::Tag(solidus, ScriptLetters::Scri),
        (_, ScriptLetters::Scri, b'p') => ScriptMarkup::Tag(solidus, ScriptLetters::Scrip),
        (_, ScriptLetters::Scrip, b't') => ScriptMarkup::Tag(solidus, ScriptLetters::Script),
        (false, ScriptLetters::None, b'/') => ScriptMarkup::Tag(true, ScriptLetters::None),
        (false, ScriptLetters::None, b'!') => ScriptMarkup::LessBang,
        _ => begun(code, byte),
    }
}

// Behind `<` or `</`, and letters.
fn behind_tag(
    inside: bool,
    code: bool,
    solidus: bool,
    letters: ScriptLetters,
    byte: u8,
) -> ScriptMarkup
    ensures { script_markup_at result
        ≡ trails.next_markup inside code (script_markup_at (markup.Tag solidus letters)) byte }
{
    match (inside, solidus) {
        (false, false) => behind_less(code, letters, byte),
        (false, true) => behind_letters(code, true, letters, byte),
        (true, _) => behind_letters(code, solidus, letters, byte),
    }
}

// The bytes go on with the word, or the byte, in lower case, begins one.
fn next_markup(inside: bool, code: bool, markup: ScriptMarkup, byte: u8) -> ScriptMarkup
    ensures { script_markup_at result
        ≡ trails.next_markup inside code (script_markup_at markup) byte }
{
    match (markup, byte) {
        (ScriptMarkup::Tag(solidus, letters), _) => {
            behind_tag(inside, code, solidus, letters, byte)
        }
        (ScriptMarkup::LessBang, b'-') => ScriptMarkup::LessBangMinus,
        (ScriptMarkup::LessBangMinus, b'-') => ScriptMarkup::Opened,
        (ScriptMarkup::Hash, b'!') => ScriptMarkup::HashBang,
        (ScriptMarkup::Minus | ScriptMarkup::Minuses, b'-') => ScriptMarkup::Minuses,
        (ScriptMarkup::Minuses, b'>') => ScriptMarkup::Closed,
        _ => begun(code, byte),
    }
}

// What a byte makes of them, by where it is read: in a template literal (`inside`), or not.
pub fn markup_after(inside: bool, at: ScriptAt, markup: ScriptMarkup, byte: u8) -> ScriptMarkup
    ensures { script_markup_at result
        ≡ trails.markup_after inside (script_lexeme_at at) (script_markup_at markup) byte }
{
    let code = is_code(inside, at);
    next_markup(inside, code, markup, byte.to_ascii_lowercase())
}

// How many letters.
fn letters(letters: ScriptLetters) -> u128
    ensures { result ≡ length (script_letters_at letters) }
{
    match letters {
        ScriptLetters::None => 0,
        ScriptLetters::S => 1,
        ScriptLetters::Sc => 2,
        ScriptLetters::Scr => 3,
        ScriptLetters::Scri => 4,
        ScriptLetters::Scrip => 5,
        ScriptLetters::Script => 6,
    }
}

// How many bytes.
pub fn bytes(markup: ScriptMarkup) -> u128
    ensures { result ≡ length (script_markup_at markup) }
{
    match markup {
        ScriptMarkup::None => 0,
        ScriptMarkup::Tag(false, read) => letters(read) + 1,
        ScriptMarkup::Tag(true, read) => letters(read) + 2,
        ScriptMarkup::Hash | ScriptMarkup::Minus => 1,
        ScriptMarkup::LessBang | ScriptMarkup::HashBang | ScriptMarkup::Minuses => 2,
        ScriptMarkup::LessBangMinus | ScriptMarkup::Closed => 3,
        ScriptMarkup::Opened => 4,
    }
}

// `<!`, `<!-`, `</` and a prefix of `script`.
pub fn is_cut(markup: ScriptMarkup) -> bool
    ensures { result ≡ refusals.is_cut_markup (script_markup_at markup) }
{
    match markup {
        ScriptMarkup::Tag(solidus, _) => solidus,
        ScriptMarkup::LessBang | ScriptMarkup::LessBangMinus => true,
        _ => false,
    }
}

// `<!--`, `-->` and `#!`, which are refused in code.
pub fn is_refused(markup: ScriptMarkup) -> bool
    ensures { result ≡ script_is_refused (script_markup_at markup) }
{
    match markup {
        ScriptMarkup::Opened | ScriptMarkup::Closed | ScriptMarkup::HashBang => true,
        _ => false,
    }
}

// `<!--`, `<script` and `</script`, which are refused in the code of a template literal of an element.
pub fn is_refused_inside(markup: ScriptMarkup) -> bool
    ensures { result ≡ script_is_refused_inside (script_markup_at markup) }
{
    match markup {
        ScriptMarkup::Opened | ScriptMarkup::Tag(_, ScriptLetters::Script) => true,
        _ => false,
    }
}
