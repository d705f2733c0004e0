ghost use Rattle.std.specs.Prelude.{List, ◌≡◌, ◌+◌, ℕ};
ghost use Rattle.js_lexer.specs.States.{point};
ghost use Rattle.js_lexer.specs.Steps as steps;
ghost use Rattle.js_step.specs.KeptWords.{kept_point};
ghost use Rattle.js_step.specs.ScriptScanViews.{most_bytes};
ghost use Rattle.js_step.specs.ScriptScanViews.{NestsNothing, ScriptBracesFit, braces_opened};
ghost use Rattle.js_step.specs.ScriptScanViews.{script_escape_at, script_lexeme_at};
ghost use Rattle.js_step.specs.ScriptScanViews.{script_literals_at, script_point_at};
ghost use Rattle.js_step.specs.ScriptScanViews.{script_word_at};

use crate::point::ScriptPoint;
use crate::scan::{ScriptAt, ScriptEscape, ScriptLiterals, ScriptWord};
use crate::{literals, word};
use js_lexer::{ScriptClass, Sense};

// After a run of `+` or of `-`.
pub fn sense_if_odd(odd: bool) -> Sense
    ensures { result ≡ steps.sense_if_odd odd }
{
    if odd { Sense::Re } else { Sense::Div }
}

// Whether a word goes on with it.
fn is_word(class: ScriptClass) -> bool
    ensures { result ≡ steps.is_word class }
{
    match class {
        ScriptClass::Letter | ScriptClass::Digit | ScriptClass::Dollar | ScriptClass::Backslash =>
            true,
        _ => false,
    }
}

// Whether a number does.
fn is_number(class: ScriptClass) -> bool
    ensures { result ≡ steps.is_number class }
{
    match class {
        ScriptClass::Dot => true,
        _ => is_word(class),
    }
}

// Which lexeme a byte of code begins, where literals and braces stay as they are.
fn begun(sense: Sense, class: ScriptClass, byte: u8) -> ScriptAt
    requires { NestsNothing class }
    ensures { (fs : List ℕ) → point fs (script_lexeme_at result)
        ≡ steps.next_code sense class byte fs }
{
    match class {
        ScriptClass::Space | ScriptClass::LineEnd => ScriptAt::Code(sense),
        ScriptClass::Letter | ScriptClass::Dollar | ScriptClass::Backslash => {
            ScriptAt::Word(word::begun(byte))
        }
        ScriptClass::Digit => ScriptAt::Number,
        ScriptClass::QuotationMark => ScriptAt::InString(true, ScriptEscape::None),
        ScriptClass::Apostrophe => ScriptAt::InString(false, ScriptEscape::None),
        ScriptClass::Solidus => ScriptAt::Slash(sense),
        ScriptClass::Plus => ScriptAt::Pluses(true),
        ScriptClass::Minus => ScriptAt::Minuses(true),
        ScriptClass::OpenBracket
        | ScriptClass::Asterisk
        | ScriptClass::LessThan
        | ScriptClass::GreaterThan
        | ScriptClass::ExclamationMark
        | ScriptClass::Opens => ScriptAt::Code(Sense::Re),
        ScriptClass::CloseBracket
        | ScriptClass::Dot
        | ScriptClass::NumberSign
        | ScriptClass::Closes => ScriptAt::Code(Sense::Div),
        ScriptClass::GraveAccent | ScriptClass::OpenBrace | ScriptClass::CloseBrace => {
            unreachable!()
        }
    }
}

// A byte of code that goes on with no token.
fn in_code(literals: ScriptLiterals, sense: Sense, class: ScriptClass, byte: u8) -> ScriptPoint
    requires { ScriptBracesFit most_bytes literals }
    ensures fits { (k : ℕ) → ScriptBracesFit k literals
        → ScriptBracesFit (k + braces_opened class) result.literals }
    ensures point { script_point_at result
        ≡ steps.next_code sense class byte (script_literals_at literals) }
{
    match class {
        ScriptClass::GraveAccent => literals::opened(literals),
        ScriptClass::OpenBrace => ScriptPoint {
            literals: literals::with_brace(literals),
            at: ScriptAt::Code(Sense::Re),
        },
        ScriptClass::CloseBrace => literals::closed(literals),
        _ => ScriptPoint {
            literals,
            at: begun(sense, class, byte),
        },
    }
}

// What is held back after a byte of a string, a regular expression or a literal.
fn next_escape(escape: ScriptEscape, byte: u8) -> ScriptEscape
    ensures { script_escape_at result ≡ steps.next_escape (script_escape_at escape) byte }
{
    match (escape, byte) {
        (ScriptEscape::Backslash, b'x') => ScriptEscape::X,
        (ScriptEscape::Backslash, b'\r') => ScriptEscape::Return,
        (ScriptEscape::Backslash, _) => ScriptEscape::None,
        (ScriptEscape::X, b'3') => ScriptEscape::X3,
        (_, b'\\') => ScriptEscape::Backslash,
        _ => ScriptEscape::None,
    }
}

// Whether a backslash takes the next byte of a regular expression or a literal.
fn is_taken(escape: ScriptEscape) -> bool
    ensures { result ≡ steps.is_taken_in_script (script_escape_at escape) }
{
    match escape {
        ScriptEscape::Backslash => true,
        _ => false,
    }
}

// Whether one takes this byte of a string.
pub fn is_taken_in_string(escape: ScriptEscape, byte: u8) -> bool
    ensures { result ≡ steps.is_taken_in_string (script_escape_at escape) byte }
{
    match escape {
        ScriptEscape::Backslash => true,
        ScriptEscape::Return => byte == b'\n',
        _ => false,
    }
}

// In a string.
fn in_string(double: bool, escape: ScriptEscape, class: ScriptClass, byte: u8) -> ScriptAt
    ensures { (fs : List ℕ) → point fs (script_lexeme_at result)
        ≡ steps.next_script_string (steps.is_taken_in_string (script_escape_at escape) byte)
        double (script_escape_at escape) class byte fs }
{
    match (is_taken_in_string(escape, byte), double, class) {
        (false, true, ScriptClass::QuotationMark)
        | (false, false, ScriptClass::Apostrophe)
        | (false, _, ScriptClass::LineEnd) => ScriptAt::Code(Sense::Div),
        _ => ScriptAt::InString(double, next_escape(escape, byte)),
    }
}

// In a regular expression.
fn in_regexp(
    taken: bool,
    brackets: bool,
    escape: ScriptEscape,
    class: ScriptClass,
    byte: u8,
) -> ScriptAt
    ensures { (fs : List ℕ) → point fs (script_lexeme_at result)
        ≡ steps.next_regexp taken brackets (script_escape_at escape) class byte fs }
{
    match (taken, brackets, class) {
        (_, _, ScriptClass::LineEnd) | (false, false, ScriptClass::Solidus) => {
            ScriptAt::Code(Sense::Div)
        }
        (false, _, ScriptClass::OpenBracket) => {
            ScriptAt::InRegexp(true, next_escape(escape, byte))
        }
        (false, _, ScriptClass::CloseBracket) => {
            ScriptAt::InRegexp(false, next_escape(escape, byte))
        }
        _ => ScriptAt::InRegexp(brackets, next_escape(escape, byte)),
    }
}

// In the characters of a template literal.
fn in_template(
    literals: ScriptLiterals,
    escape: ScriptEscape,
    dollar: bool,
    class: ScriptClass,
    byte: u8,
) -> ScriptPoint
    ensures fits { (k : ℕ) → ScriptBracesFit k literals → ScriptBracesFit k result.literals }
    ensures point { script_point_at result ≡ steps.next_template
        (steps.is_taken_in_script (script_escape_at escape)) (script_escape_at escape) dollar class
        byte (script_literals_at literals) }
{
    let at = match (is_taken(escape), dollar, class) {
        (false, _, ScriptClass::GraveAccent) => return literals::ended(literals),
        (false, true, ScriptClass::OpenBrace) => ScriptAt::Code(Sense::Re),
        (false, _, ScriptClass::Dollar) => ScriptAt::InTemplate(next_escape(escape, byte), true),
        _ => ScriptAt::InTemplate(next_escape(escape, byte), false),
    };
    ScriptPoint { literals, at }
}

// Behind a slash that is held back, and begins a regular expression or a comment.
fn behind_regexp_slash(class: ScriptClass, byte: u8) -> ScriptAt
    ensures { (fs : List ℕ) → point fs (script_lexeme_at result)
        ≡ steps.next_slash Sense.Re class byte fs }
{
    match class {
        ScriptClass::Solidus => ScriptAt::Line(Sense::Re),
        ScriptClass::Asterisk => ScriptAt::Block(Sense::Re, false),
        _ => in_regexp(false, false, ScriptEscape::None, class, byte),
    }
}

// Behind a slash that is held back.
fn behind_slash(literals: ScriptLiterals, sense: Sense, class: ScriptClass, byte: u8) -> ScriptPoint
    requires { ScriptBracesFit most_bytes literals }
    ensures fits { (k : ℕ) → ScriptBracesFit k literals
        → ScriptBracesFit (k + braces_opened class) result.literals }
    ensures point { script_point_at result
        ≡ steps.next_slash sense class byte (script_literals_at literals) }
{
    let at = match (sense, class) {
        (Sense::Re, _) => behind_regexp_slash(class, byte),
        (_, ScriptClass::Solidus) => ScriptAt::Line(sense),
        (_, ScriptClass::Asterisk) => ScriptAt::Block(sense, false),
        _ => return in_code(literals, Sense::Re, class, byte),
    };
    ScriptPoint { literals, at }
}

// In a comment to the end of the line.
fn in_line(sense: Sense, class: ScriptClass) -> ScriptAt
    ensures { (fs : List ℕ) → point fs (script_lexeme_at result) ≡ steps.next_line sense class fs }
{
    match class {
        ScriptClass::LineEnd => ScriptAt::Code(sense),
        _ => ScriptAt::Line(sense),
    }
}

// In a comment of any length.
fn in_block(sense: Sense, star: bool, class: ScriptClass) -> ScriptAt
    ensures { (fs : List ℕ) → point fs (script_lexeme_at result)
        ≡ steps.next_block sense star class fs }
{
    match (star, class) {
        (true, ScriptClass::Solidus) => ScriptAt::Code(sense),
        (_, ScriptClass::Asterisk) => ScriptAt::Block(sense, true),
        _ => ScriptAt::Block(sense, false),
    }
}

// In a word: the first bytes of one, which is all that is kept.
fn in_word(literals: ScriptLiterals, read: ScriptWord, class: ScriptClass, byte: u8) -> ScriptPoint
    requires { ScriptBracesFit most_bytes literals }
    ensures fits { (k : ℕ) → ScriptBracesFit k literals
        → ScriptBracesFit (k + braces_opened class) result.literals }
    ensures point { script_point_at result
        ≡ kept_point (steps.next_script_word (steps.is_word class)
        (script_word_at read) class byte (script_literals_at literals)) }
{
    if is_word(class) {
        return ScriptPoint {
            literals,
            at: ScriptAt::Word(word::grown(read, byte)),
        };
    }
    in_code(literals, word::sense_behind(read), class, byte)
}

// In a number.
fn in_number(literals: ScriptLiterals, class: ScriptClass, byte: u8) -> ScriptPoint
    requires { ScriptBracesFit most_bytes literals }
    ensures fits { (k : ℕ) → ScriptBracesFit k literals
        → ScriptBracesFit (k + braces_opened class) result.literals }
    ensures point { script_point_at result ≡ steps.next_script_number (steps.is_number class)
        class byte (script_literals_at literals) }
{
    if is_number(class) {
        return ScriptPoint {
            literals,
            at: ScriptAt::Number,
        };
    }
    in_code(literals, Sense::Div, class, byte)
}

// In a run of `+`.
fn in_pluses(literals: ScriptLiterals, odd: bool, class: ScriptClass, byte: u8) -> ScriptPoint
    requires { ScriptBracesFit most_bytes literals }
    ensures fits { (k : ℕ) → ScriptBracesFit k literals
        → ScriptBracesFit (k + braces_opened class) result.literals }
    ensures point { script_point_at result
        ≡ steps.next_pluses odd class byte (script_literals_at literals) }
{
    match class {
        ScriptClass::Plus => ScriptPoint {
            literals,
            at: ScriptAt::Pluses(!odd),
        },
        _ => in_code(literals, sense_if_odd(odd), class, byte),
    }
}

// In a run of `-`.
fn in_minuses(literals: ScriptLiterals, odd: bool, class: ScriptClass, byte: u8) -> ScriptPoint
    requires { ScriptBracesFit most_bytes literals }
    ensures fits { (k : ℕ) → ScriptBracesFit k literals
        → ScriptBracesFit (k + braces_opened class) result.literals }
    ensures point { script_point_at result
        ≡ steps.next_minuses odd class byte (script_literals_at literals) }
{
    match class {
        ScriptClass::Minus => ScriptPoint {
            literals,
            at: ScriptAt::Minuses(!odd),
        },
        _ => in_code(literals, sense_if_odd(odd), class, byte),
    }
}

/// Where a byte of a class leads. (ECMA-262, section 12.)
pub fn next_point(from: ScriptPoint, class: ScriptClass, byte: u8) -> ScriptPoint
    requires { ScriptBracesFit most_bytes from.literals }
    ensures fits { (k : ℕ) → ScriptBracesFit k from.literals
        → ScriptBracesFit (k + braces_opened class) result.literals }
    ensures point { script_point_at result ≡ kept_point (steps.script_next
        (script_literals_at from.literals) (script_lexeme_at from.at) class byte) }
{
    let literals = from.literals;
    let at = match from.at {
        ScriptAt::Code(sense) => return in_code(literals, sense, class, byte),
        ScriptAt::Word(read) => return in_word(literals, read, class, byte),
        ScriptAt::Number => return in_number(literals, class, byte),
        ScriptAt::Pluses(odd) => return in_pluses(literals, odd, class, byte),
        ScriptAt::Minuses(odd) => return in_minuses(literals, odd, class, byte),
        ScriptAt::Slash(sense) => return behind_slash(literals, sense, class, byte),
        ScriptAt::Line(sense) => in_line(sense, class),
        ScriptAt::Block(sense, star) => in_block(sense, star, class),
        ScriptAt::InString(double, escape) => in_string(double, escape, class, byte),
        ScriptAt::InRegexp(brackets, escape) => {
            in_regexp(is_taken(escape), brackets, escape, class, byte)
        }
        ScriptAt::InTemplate(escape, dollar) => {
            return in_template(literals, escape, dollar, class, byte);
        }
        ScriptAt::TooDeep => ScriptAt::TooDeep,
    };
    ScriptPoint { literals, at }
}
