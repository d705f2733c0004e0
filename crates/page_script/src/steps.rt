ghost use Rattle.std.specs.Prelude.{List, ◌≡◌, ◌+◌, ◌∷◌, [], ℕ};
ghost use Rattle.js_lexer.specs.States.{point};
ghost use Rattle.js_lexer.specs.Steps as steps;
ghost use Rattle.page_script.specs.ReadViews.{BracesFit, ScriptNestsNothing, braces_of_class, most_script_bytes};
ghost use Rattle.page_script.specs.ReadViews.{read_escape_at, literals_at, read_point_at, token_at};
ghost use Rattle.page_script.specs.ReadViews.{word_behind, word_behind_in};

use crate::literals;
use crate::point::{ReadAt, ReadEscape, ReadLiterals, ReadPoint};
use js_lexer::{ScriptClass, Sense, sense_after};

// After a run of `+` or of `-`.
fn sense_if_odd(odd: bool) -> Sense
    ensures { result ≡ steps.sense_if_odd odd }
{
    if odd { Sense::Re } else { Sense::Div }
}

/// Whether a word goes on with it.
pub fn is_word(class: ScriptClass) -> bool
    ensures { result ≡ steps.is_word class }
{
    match class {
        ScriptClass::Letter | ScriptClass::Digit | ScriptClass::Dollar | ScriptClass::Backslash =>
            true,
        _ => false,
    }
}

/// Whether a number does.
pub fn is_number(class: ScriptClass) -> bool
    ensures { result ≡ steps.is_number class }
{
    match class {
        ScriptClass::Dot => true,
        _ => is_word(class),
    }
}

// Which token a byte of code begins, where literals and braces stay as they are.
fn begun(sense: Sense, class: ScriptClass, byte: u8) -> ReadAt
    requires { ScriptNestsNothing class }
    ensures { (fs : List ℕ) → point fs (token_at (byte ∷ []) result)
        ≡ steps.next_code sense class byte fs }
{
    match class {
        ScriptClass::Space | ScriptClass::LineEnd => ReadAt::Code(sense),
        ScriptClass::Letter | ScriptClass::Dollar | ScriptClass::Backslash => ReadAt::Word,
        ScriptClass::Digit => ReadAt::Number,
        ScriptClass::QuotationMark => ReadAt::InString(true, ReadEscape::None),
        ScriptClass::Apostrophe => ReadAt::InString(false, ReadEscape::None),
        ScriptClass::Solidus => ReadAt::Slash(sense),
        ScriptClass::Plus => ReadAt::Pluses(true),
        ScriptClass::Minus => ReadAt::Minuses(true),
        ScriptClass::OpenBracket
        | ScriptClass::Asterisk
        | ScriptClass::LessThan
        | ScriptClass::GreaterThan
        | ScriptClass::ExclamationMark
        | ScriptClass::Opens => ReadAt::Code(Sense::Re),
        ScriptClass::CloseBracket
        | ScriptClass::Dot
        | ScriptClass::NumberSign
        | ScriptClass::Closes => ReadAt::Code(Sense::Div),
        ScriptClass::GraveAccent | ScriptClass::OpenBrace | ScriptClass::CloseBrace => {
            unreachable!()
        }
    }
}

// A byte of code that goes on with no token.
fn in_code(literals: ReadLiterals, sense: Sense, class: ScriptClass, byte: u8) -> ReadPoint
    requires { BracesFit most_script_bytes literals }
    ensures fits { (k : ℕ) → BracesFit k literals
        → BracesFit (k + braces_of_class class) result.literals }
    ensures point { read_point_at (byte ∷ []) result
        ≡ steps.next_code sense class byte (literals_at literals) }
{
    match class {
        ScriptClass::GraveAccent => literals::opened(literals),
        ScriptClass::OpenBrace => ReadPoint {
            literals: literals::with_brace(literals),
            at: ReadAt::Code(Sense::Re),
        },
        ScriptClass::CloseBrace => literals::closed(literals),
        _ => ReadPoint {
            literals,
            at: begun(sense, class, byte),
        },
    }
}

// What is held back after a byte of a string, a regular expression or a literal.
fn next_escape(escape: ReadEscape, byte: u8) -> ReadEscape
    ensures { read_escape_at result ≡ steps.next_escape (read_escape_at escape) byte }
{
    match (escape, byte) {
        (ReadEscape::Backslash, b'x') => ReadEscape::X,
        (ReadEscape::Backslash, b'\r') => ReadEscape::Return,
        (ReadEscape::Backslash, _) => ReadEscape::None,
        (ReadEscape::X, b'3') => ReadEscape::X3,
        (_, b'\\') => ReadEscape::Backslash,
        _ => ReadEscape::None,
    }
}

// Whether a backslash takes the next byte of a regular expression or a literal.
fn is_taken(escape: ReadEscape) -> bool
    ensures { result ≡ steps.is_taken_in_script (read_escape_at escape) }
{
    match escape {
        ReadEscape::Backslash => true,
        _ => false,
    }
}

/// Whether one takes this byte of a string.
pub fn is_taken_in_string(escape: ReadEscape, byte: u8) -> bool
    ensures { result ≡ steps.is_taken_in_string (read_escape_at escape) byte }
{
    match escape {
        ReadEscape::Backslash => true,
        ReadEscape::Return => byte == b'\n',
        _ => false,
    }
}

// In a string.
fn in_string(double: bool, escape: ReadEscape, class: ScriptClass, byte: u8) -> ReadAt
    ensures { (w fs : List ℕ) → point fs (token_at w result)
        ≡ steps.next_script_string (steps.is_taken_in_string (read_escape_at escape) byte)
        double (read_escape_at escape) class byte fs }
{
    match (is_taken_in_string(escape, byte), double, class) {
        (false, true, ScriptClass::QuotationMark)
        | (false, false, ScriptClass::Apostrophe)
        | (false, _, ScriptClass::LineEnd) => ReadAt::Code(Sense::Div),
        _ => ReadAt::InString(double, next_escape(escape, byte)),
    }
}

// In a regular expression.
fn in_regexp(
    taken: bool,
    brackets: bool,
    escape: ReadEscape,
    class: ScriptClass,
    byte: u8,
) -> ReadAt
    ensures { (w fs : List ℕ) → point fs (token_at w result)
        ≡ steps.next_regexp taken brackets (read_escape_at escape) class byte fs }
{
    match (taken, brackets, class) {
        (_, _, ScriptClass::LineEnd) | (false, false, ScriptClass::Solidus) => {
            ReadAt::Code(Sense::Div)
        }
        (false, _, ScriptClass::OpenBracket) => {
            ReadAt::InRegexp(true, next_escape(escape, byte))
        }
        (false, _, ScriptClass::CloseBracket) => {
            ReadAt::InRegexp(false, next_escape(escape, byte))
        }
        _ => ReadAt::InRegexp(brackets, next_escape(escape, byte)),
    }
}

// In the characters of a template literal.
fn in_template(
    literals: ReadLiterals,
    escape: ReadEscape,
    dollar: bool,
    class: ScriptClass,
    byte: u8,
) -> ReadPoint
    ensures fits { (k : ℕ) → BracesFit k literals → BracesFit k result.literals }
    ensures point { (w : List ℕ) → read_point_at w result ≡ steps.next_template
        (steps.is_taken_in_script (read_escape_at escape)) (read_escape_at escape) dollar class
        byte (literals_at literals) }
{
    let at = match (is_taken(escape), dollar, class) {
        (false, _, ScriptClass::GraveAccent) => return literals::ended(literals),
        (false, true, ScriptClass::OpenBrace) => ReadAt::Code(Sense::Re),
        (false, _, ScriptClass::Dollar) => ReadAt::InTemplate(next_escape(escape, byte), true),
        _ => ReadAt::InTemplate(next_escape(escape, byte), false),
    };
    ReadPoint { literals, at }
}

// Behind a slash that begins a regular expression or a comment.
fn behind_regexp_slash(class: ScriptClass, byte: u8) -> ReadAt
    ensures { (w fs : List ℕ) → point fs (token_at w result)
        ≡ steps.next_slash Sense.Re class byte fs }
{
    match class {
        ScriptClass::Solidus => ReadAt::Line(Sense::Re),
        ScriptClass::Asterisk => ReadAt::Block(Sense::Re, false),
        _ => in_regexp(false, false, ReadEscape::None, class, byte),
    }
}

// Behind a slash that may begin a comment.
fn behind_slash(literals: ReadLiterals, sense: Sense, class: ScriptClass, byte: u8) -> ReadPoint
    requires { BracesFit most_script_bytes literals }
    ensures fits { (k : ℕ) → BracesFit k literals
        → BracesFit (k + braces_of_class class) result.literals }
    ensures point { read_point_at (byte ∷ []) result
        ≡ steps.next_slash sense class byte (literals_at literals) }
{
    let at = match (sense, class) {
        (Sense::Re, _) => behind_regexp_slash(class, byte),
        (_, ScriptClass::Solidus) => ReadAt::Line(sense),
        (_, ScriptClass::Asterisk) => ReadAt::Block(sense, false),
        _ => return in_code(literals, Sense::Re, class, byte),
    };
    ReadPoint { literals, at }
}

// In a comment to the end of the line.
fn in_line(sense: Sense, class: ScriptClass) -> ReadAt
    ensures { (w fs : List ℕ) → point fs (token_at w result) ≡ steps.next_line sense class fs }
{
    match class {
        ScriptClass::LineEnd => ReadAt::Code(sense),
        _ => ReadAt::Line(sense),
    }
}

// In a comment of any length.
fn in_block(sense: Sense, star: bool, class: ScriptClass) -> ReadAt
    ensures { (w fs : List ℕ) → point fs (token_at w result)
        ≡ steps.next_block sense star class fs }
{
    match (star, class) {
        (true, ScriptClass::Solidus) => ReadAt::Code(sense),
        (_, ScriptClass::Asterisk) => ReadAt::Block(sense, true),
        _ => ReadAt::Block(sense, false),
    }
}

// In a word.
fn in_word(literals: ReadLiterals, word: &[u8], class: ScriptClass, byte: u8) -> ReadPoint
    requires { BracesFit most_script_bytes literals }
    ensures fits { (k : ℕ) → BracesFit k literals
        → BracesFit (k + braces_of_class class) result.literals }
    ensures point { read_point_at (word_behind_in (steps.is_word class) word.now byte) result
        ≡ steps.next_script_word (steps.is_word class) word.now class byte
        (literals_at literals) }
{
    if is_word(class) {
        return ReadPoint {
            literals,
            at: ReadAt::Word,
        };
    }
    in_code(literals, sense_after(word), class, byte)
}

// In a number.
fn in_number(literals: ReadLiterals, class: ScriptClass, byte: u8) -> ReadPoint
    requires { BracesFit most_script_bytes literals }
    ensures fits { (k : ℕ) → BracesFit k literals
        → BracesFit (k + braces_of_class class) result.literals }
    ensures point { read_point_at (byte ∷ []) result ≡ steps.next_script_number
        (steps.is_number class) class byte (literals_at literals) }
{
    if is_number(class) {
        return ReadPoint {
            literals,
            at: ReadAt::Number,
        };
    }
    in_code(literals, Sense::Div, class, byte)
}

// In a run of `+`.
fn in_pluses(literals: ReadLiterals, odd: bool, class: ScriptClass, byte: u8) -> ReadPoint
    requires { BracesFit most_script_bytes literals }
    ensures fits { (k : ℕ) → BracesFit k literals
        → BracesFit (k + braces_of_class class) result.literals }
    ensures point { read_point_at (byte ∷ []) result
        ≡ steps.next_pluses odd class byte (literals_at literals) }
{
    match class {
        ScriptClass::Plus => ReadPoint {
            literals,
            at: ReadAt::Pluses(!odd),
        },
        _ => in_code(literals, sense_if_odd(odd), class, byte),
    }
}

// In a run of `-`.
fn in_minuses(literals: ReadLiterals, odd: bool, class: ScriptClass, byte: u8) -> ReadPoint
    requires { BracesFit most_script_bytes literals }
    ensures fits { (k : ℕ) → BracesFit k literals
        → BracesFit (k + braces_of_class class) result.literals }
    ensures point { read_point_at (byte ∷ []) result
        ≡ steps.next_minuses odd class byte (literals_at literals) }
{
    match class {
        ScriptClass::Minus => ReadPoint {
            literals,
            at: ReadAt::Minuses(!odd),
        },
        _ => in_code(literals, sense_if_odd(odd), class, byte),
    }
}

/// Where a byte of a class leads, behind the bytes of the word that it may go on with (ECMA-262, section 12).
pub fn next_point(from: ReadPoint, word: &[u8], class: ScriptClass, byte: u8) -> ReadPoint
    requires { BracesFit most_script_bytes from.literals }
    ensures fits { (k : ℕ) → BracesFit k from.literals
        → BracesFit (k + braces_of_class class) result.literals }
    ensures point { read_point_at (word_behind from.at class word.now byte) result ≡ steps.script_next
        (literals_at from.literals) (token_at word.now from.at) class byte }
{
    let literals = from.literals;
    let at = match from.at {
        ReadAt::Code(sense) => return in_code(literals, sense, class, byte),
        ReadAt::Word => return in_word(literals, word, class, byte),
        ReadAt::Number => return in_number(literals, class, byte),
        ReadAt::Pluses(odd) => return in_pluses(literals, odd, class, byte),
        ReadAt::Minuses(odd) => return in_minuses(literals, odd, class, byte),
        ReadAt::Slash(sense) => return behind_slash(literals, sense, class, byte),
        ReadAt::Line(sense) => in_line(sense, class),
        ReadAt::Block(sense, star) => in_block(sense, star, class),
        ReadAt::InString(double, escape) => in_string(double, escape, class, byte),
        ReadAt::InRegexp(brackets, escape) => {
            in_regexp(is_taken(escape), brackets, escape, class, byte)
        }
        ReadAt::InTemplate(escape, dollar) => {
            return in_template(literals, escape, dollar, class, byte);
        }
        ReadAt::TooDeep => ReadAt::TooDeep,
    };
    ReadPoint { literals, at }
}
