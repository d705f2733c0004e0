// References in values that are URLs, byte by byte, and the characters that they stand for.
ghost use Rattle.std.specs.Prelude.{◌≡◌, drop};
ghost use Rattle.place_core.specs.page.Classes.{is_equals_sign};
ghost use Rattle.place_core.specs.page.References as spec;
ghost use Rattle.place_core.specs.place.Errors.{is_unknown_name};
ghost use Rattle.html_scan.specs.BrokenReferences.{BreaksTo};
ghost use Rattle.html_scan.specs.ClassViews.{class_at};
ghost use Rattle.html_scan.specs.ScanViews.{open_form_at, outcome_at};

use crate::class::{Class, Letter};
use html_words::{named_char, numbered_char, short_char};

/// How far a reference has come.
#[derive(Clone, Copy)]
pub enum ReferenceForm {
    /// `&`.
    Begun,
    /// `&` and a name.
    Named,
    /// `&#`.
    Hashed,
    /// `&#` and digits.
    Decimal,
    /// `&#x`.
    HexMark,
    /// `&#x` and digits.
    Hexadecimal,
}

/// A reference that has begun: its form, and where its `&` stands in the text.
#[derive(Clone, Copy)]
pub struct OpenReference {
    pub form: ReferenceForm,
    pub from: usize,
}

/// What a byte does to an open reference.
#[derive(Clone, Copy)]
pub enum Outcome {
    /// The reference goes on.
    Grows(ReferenceForm),
    /// The reference ends with the byte.
    Closes,
    /// The reference ended before the byte.
    Breaks,
}

/// What a byte does to an open reference. (HTML Standard, sections 13.2.5.72 to 13.2.5.79.)
pub fn turn(class: Class, form: ReferenceForm) -> Outcome
    ensures { outcome_at result ≡ spec.turn (class_at class) (open_form_at form) }
{
    match (class, form) {
        (Class::Letter(_), ReferenceForm::Begun | ReferenceForm::Named) => Outcome::Grows(
            ReferenceForm::Named,
        ),
        (Class::Letter(Letter::X), ReferenceForm::Hashed) => Outcome::Grows(ReferenceForm::HexMark),
        (Class::Letter(Letter::Hexadecimal), ReferenceForm::HexMark | ReferenceForm::Hexadecimal) =>
            Outcome::Grows(ReferenceForm::Hexadecimal),
        (Class::Digit, ReferenceForm::Begun | ReferenceForm::Named) => Outcome::Grows(
            ReferenceForm::Named,
        ),
        (Class::Digit, ReferenceForm::Hashed | ReferenceForm::Decimal) => Outcome::Grows(
            ReferenceForm::Decimal,
        ),
        (Class::Digit, ReferenceForm::HexMark | ReferenceForm::Hexadecimal) => Outcome::Grows(
            ReferenceForm::Hexadecimal,
        ),
        (Class::NumberSign, ReferenceForm::Begun) => Outcome::Grows(ReferenceForm::Hashed),
        (
            Class::Semicolon,
            ReferenceForm::Named | ReferenceForm::Decimal | ReferenceForm::Hexadecimal,
        ) => Outcome::Closes,
        _ => Outcome::Breaks,
    }
}

/// Whether it is an equals sign, before which a name is no reference.
pub fn is_equals(class: Class) -> bool
    ensures { result ≡ is_equals_sign (class_at class) }
{
    matches!(class, Class::EqualsSign)
}

/// The character of a reference that its semicolon ends, from the bytes after its `&`.
#[tactic(auto, unfolding(place_core::specs::page::References::meaning))]
pub fn meaning(form: ReferenceForm, pending: &[u8]) -> char
    ensures { result ≡ spec.meaning (open_form_at form) pending.now }
{
    match form {
        ReferenceForm::Named => named_char(pending),
        ReferenceForm::Decimal => numbered_char(10, behind(pending, 1)),
        ReferenceForm::Hexadecimal => numbered_char(16, behind(pending, 2)),
        _ => '\u{FFFD}',
    }
}

/// Whether it is a name that stands for no character.
#[tactic(auto, unfolding(place_core::specs::place::Errors::is_unknown_name))]
pub fn is_unknown(form: ReferenceForm, pending: &[u8]) -> bool
    ensures { result ≡ is_unknown_name (open_form_at form) pending.now }
{
    match form {
        ReferenceForm::Named => named_char(pending) == '\u{FFFD}',
        _ => false,
    }
}

/// The character of a reference that no semicolon ends, before an equals sign or not; none where it is text as it stands.
pub fn broken_char(equals: bool, form: ReferenceForm, pending: &[u8]) -> Option<char>
    ensures { BreaksTo equals (open_form_at form) pending.now result }
{
    match form {
        ReferenceForm::Named => {
            if equals {
                return None;
            }
            short_char(pending)
        }
        ReferenceForm::Decimal => Some(numbered_char(10, behind(pending, 1))),
        ReferenceForm::Hexadecimal => Some(numbered_char(16, behind(pending, 2))),
        _ => None,
    }
}

fn behind(bytes: &[u8], count: usize) -> &[u8]
    ensures { result.now ≡ drop count bytes.now }
{
    let (_, rest) = bytes.split_at(count.min(bytes.len()));
    rest
}
