// Tags in a listing of tokens.
ghost use Rattle.std.specs.Prelude.{◌≡◌, ◌++◌, ◌∷◌, [], codes, OnOk};
ghost use Rattle.page_lexer.specs.Printing as spec;

use crate::print_lines::{push_quoted_line, push_word_line};
use crate::print_pieces::push_pieces;
use crate::token::{Attr, Read, Tag};
use page_io::{List, Memory, Text};
use page_piece::Piece;
use page_url::Scheme;

/// Appends the line of a start tag, and its attributes.
pub fn push_start(out: &mut Text, tag: &Tag) -> Result<(), Memory>
    ensures { OnOk result (out.new
        ≡ out.old ++ (spec.word_line (codes "start ") (tag.now.name ++ spec.closing_mark tag.now.closing)
        ++ spec.attribute_lines tag.now.attrs)) }
{
    push_start_line(out, tag.name.as_str(), tag.closing)?;
    push_attributes(out, &tag.attrs)
}

/// Appends the line of an end tag, and its attributes.
pub fn push_end(out: &mut Text, tag: &Tag) -> Result<(), Memory>
    ensures { OnOk result (out.new
        ≡ out.old ++ (spec.word_line (codes "end ") tag.now.name ++ spec.attribute_lines tag.now.attrs)) }
{
    push_word_line(out, "end ", tag.name.as_str())?;
    push_attributes(out, &tag.attrs)
}

fn push_start_line(out: &mut Text, name: &str, closing: bool) -> Result<(), Memory>
    ensures { OnOk result (out.new
        ≡ out.old ++ spec.word_line (codes "start ") (name.now ++ spec.closing_mark closing)) }
{
    let mark = if closing { " /" } else { "" };
    let name = format!(in out.allocator(); "{name}{mark}")?;
    push_word_line(out, "start ", name.as_str())
}

fn push_attributes(out: &mut Text, attributes: &List<Attr>) -> Result<(), Memory>
    ensures { OnOk result (out.new ≡ out.old ++ spec.attribute_lines attributes.now) }
{
    for attribute in attributes.as_slice() {
        push_attribute(out, attribute.name.as_str(), &attribute.value)?;
    }
    Ok(())
}

fn push_attribute(out: &mut Text, name: &str, value: &Read) -> Result<(), Memory>
    ensures { OnOk result (out.new
        ≡ out.old ++ spec.value_lines (codes "  attr " ++ (name.now ++ 32 ∷ [])) value.now) }
{
    let front = format!(in out.allocator(); "  attr {name} ")?;
    push_value(out, front.as_str(), value)
}

// Appends the lines of a value, behind its attribute's name.
fn push_value(out: &mut Text, front: &str, value: &Read) -> Result<(), Memory>
    ensures { OnOk result (out.new ≡ out.old ++ spec.value_lines front.now value.now) }
{
    match value {
        Read::Chars(text) => push_quoted_line(out, front, "plain", text.as_str()),
        Read::Url(scheme, text) => push_url(out, front, scheme, text.as_str()),
        Read::Script(pieces) => push_pieces_under(out, front, "script", pieces),
        Read::Style(pieces) => push_pieces_under(out, front, "style", pieces),
    }
}

fn push_url(out: &mut Text, front: &str, scheme: &Scheme, text: &str) -> Result<(), Memory>
    ensures { OnOk result (out.new
        ≡ out.old ++ spec.quoted_line front.now (codes "url " ++ spec.scheme_word scheme.now) text.now) }
{
    let scheme = scheme_word(scheme);
    let word = format!(in out.allocator(); "url {scheme}")?;
    push_quoted_line(out, front, word.as_str(), text)
}

// The word for a scheme: itself, or a hyphen where there is none.
fn scheme_word(scheme: &Scheme) -> &str
    ensures { result.now ≡ spec.scheme_word scheme.now }
{
    match scheme {
        Scheme::Nothing => "-",
        Scheme::Named(name) => name.as_str(),
    }
}

fn push_pieces_under(
    out: &mut Text,
    front: &str,
    word: &str,
    pieces: &List<Piece>,
) -> Result<(), Memory>
    ensures { OnOk result (out.new ≡ out.old ++ spec.pieces_under_attribute front.now word.now pieces.now) }
{
    push_word_line(out, front, word)?;
    push_pieces(out, "    ", pieces)
}
