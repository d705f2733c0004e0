ghost use Rattle.std.specs.Prelude.{List, ◌≡◌, ℕ};
ghost use Rattle.page_script.specs.PieceEnds as ends;
ghost use Rattle.page_script.specs.ReadViews.{read_escape_at, literals_at, token_at};

use crate::literals::is_outside;
use crate::point::{ReadAt, ReadPoint};
use crate::steps::{is_number, is_taken_in_string, is_word};
use js_lexer::{ScriptClass, Sense};
use page_piece::PieceKind;

// A piece that a byte of these classes does not go on with.
fn unless(goes_on: bool, kind: PieceKind) -> Option<PieceKind>
    ensures { result ≡ ends.unless goes_on kind }
{
    if goes_on { None } else { Some(kind) }
}

// A slash that may begin a comment.
fn slash_ends(sense: Sense, class: ScriptClass) -> Option<PieceKind>
    ensures { result ≡ ends.slash_ends sense class }
{
    match (class, sense) {
        (ScriptClass::Solidus | ScriptClass::Asterisk, _) => None,
        (ScriptClass::LineEnd, Sense::Re) => Some(PieceKind::BadString),
        (_, Sense::Re) => None,
        _ => Some(PieceKind::Punct),
    }
}

// A run of `+`.
fn pluses_end(class: ScriptClass) -> Option<PieceKind>
    ensures { result ≡ ends.pluses_end class }
{
    match class {
        ScriptClass::Plus => None,
        _ => Some(PieceKind::Punct),
    }
}

// A run of `-`.
fn minuses_end(class: ScriptClass) -> Option<PieceKind>
    ensures { result ≡ ends.minuses_end class }
{
    match class {
        ScriptClass::Minus => None,
        _ => Some(PieceKind::Punct),
    }
}

// What the end of a line ends.
fn ends_at_line(kind: PieceKind, class: ScriptClass) -> Option<PieceKind>
    ensures { result ≡ ends.ends_at_line kind class }
{
    match class {
        ScriptClass::LineEnd => Some(kind),
        _ => None,
    }
}

// A string; whether a backslash takes the byte.
fn string_ends(taken: bool, class: ScriptClass) -> Option<PieceKind>
    ensures { result ≡ ends.string_ends taken class }
{
    if taken {
        return None;
    }
    ends_at_line(PieceKind::BadString, class)
}

// The piece that ends before a byte, in no template literal.
fn token_ends(at: ReadAt, class: ScriptClass, byte: u8) -> Option<PieceKind>
    ensures { (w : List ℕ) → result ≡ ends.token_ends (token_at w at) class byte }
{
    match at {
        ReadAt::Word => unless(is_word(class), PieceKind::Word),
        ReadAt::Number => unless(is_number(class), PieceKind::Number),
        ReadAt::Pluses(_) => pluses_end(class),
        ReadAt::Minuses(_) => minuses_end(class),
        ReadAt::Slash(sense) => slash_ends(sense, class),
        ReadAt::Line(_) => ends_at_line(PieceKind::Comment, class),
        ReadAt::InString(_, escape) => string_ends(is_taken_in_string(escape, byte), class),
        ReadAt::InRegexp(_, _) => ends_at_line(PieceKind::BadString, class),
        _ => None,
    }
}

/// The piece that ends before a byte of a class.
#[tactic(auto, using(crate::proofs::Outside::outside_rules))]
pub fn ends_before(from: ReadPoint, class: ScriptClass, byte: u8) -> Option<PieceKind>
    ensures { (w : List ℕ) → result ≡ ends.ends_before (literals_at from.literals)
        (token_at w from.at) class byte }
{
    if is_outside(from.literals) {
        return token_ends(from.at, class, byte);
    }
    None
}

// What a piece is that ends with a byte, in no template literal.
fn token_closed(at: ReadAt) -> PieceKind
    ensures { (w : List ℕ) → result ≡ ends.token_closed (token_at w at) }
{
    match at {
        ReadAt::Block(_, _) => PieceKind::Comment,
        ReadAt::InString(_, _) => PieceKind::String,
        ReadAt::InRegexp(_, _) => PieceKind::Regexp,
        _ => PieceKind::Punct,
    }
}

/// What a piece is that ends with a byte, by where it stands.
#[tactic(auto, using(crate::proofs::Outside::outside_rules))]
pub fn kind_closed(from: ReadPoint) -> PieceKind
    ensures { (w : List ℕ) → result ≡ ends.kind_closed (literals_at from.literals)
        (token_at w from.at) }
{
    if is_outside(from.literals) {
        return token_closed(from.at);
    }
    PieceKind::Template
}

/// Whether no piece is open.
#[tactic(auto, using(crate::proofs::Outside::outside_rules))]
pub fn is_between(point: ReadPoint) -> bool
    ensures { (w : List ℕ) → result ≡ ends.is_between (literals_at point.literals)
        (token_at w point.at) }
{
    if is_outside(point.literals) {
        return is_code(point.at);
    }
    false
}

// Whether no token is open.
fn is_code(at: ReadAt) -> bool
    ensures { (w : List ℕ) → result ≡ ends.is_code (token_at w at) }
{
    match at {
        ReadAt::Code(_) => true,
        _ => false,
    }
}

/// Whether a byte of the class is white space or the end of a line.
pub fn is_white_class(class: ScriptClass) -> bool
    ensures { result ≡ ends.is_white_class class }
{
    match class {
        ScriptClass::Space | ScriptClass::LineEnd => true,
        _ => false,
    }
}

// What a piece is that the end of the script cuts, in no template literal.
fn token_cut(at: ReadAt) -> Option<PieceKind>
    ensures { (w : List ℕ) → result ≡ ends.token_cut (token_at w at) }
{
    match at {
        ReadAt::Code(_) => None,
        ReadAt::Word => Some(PieceKind::Word),
        ReadAt::Number => Some(PieceKind::Number),
        ReadAt::Pluses(_) | ReadAt::Minuses(_) => Some(PieceKind::Punct),
        ReadAt::Slash(Sense::Re) => Some(PieceKind::Regexp),
        ReadAt::Slash(_) => Some(PieceKind::Punct),
        ReadAt::Line(_) | ReadAt::Block(_, _) => Some(PieceKind::Comment),
        ReadAt::InString(_, _) => Some(PieceKind::String),
        ReadAt::InRegexp(_, _) => Some(PieceKind::Regexp),
        ReadAt::InTemplate(_, _) => Some(PieceKind::Template),
        ReadAt::TooDeep => Some(PieceKind::Unfinished),
    }
}

// What it is in a template literal.
fn template_cut(at: ReadAt) -> Option<PieceKind>
    ensures { (w : List ℕ) → result ≡ ends.template_cut (token_at w at) }
{
    match at {
        ReadAt::TooDeep => Some(PieceKind::Unfinished),
        _ => Some(PieceKind::Template),
    }
}

/// What a piece is that the end of the script cuts.
#[tactic(auto, using(crate::proofs::Outside::outside_rules))]
pub fn kind_cut(point: ReadPoint) -> Option<PieceKind>
    ensures { (w : List ℕ) → result ≡ ends.kind_cut (literals_at point.literals)
        (token_at w point.at) }
{
    if is_outside(point.literals) {
        return token_cut(point.at);
    }
    template_cut(point.at)
}
