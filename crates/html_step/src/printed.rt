ghost use Rattle.std.specs.Prelude.{◌≡◌, ◌++◌, ◌||◌, IfOk, OnOk, codes};
ghost use Rattle.html_step.specs.Sets.{flag_text};
ghost use Rattle.html_step.specs.PlaceText.{element_text, kind_text, place_text, quotes_text, tag_place_text, tag_text, typed_text, value_place_text};

use crate::bodies::{push_body, push_css, push_js};
use crate::sets::{push_bare, push_flag, push_flagged, push_spots};
use page_io::{Memory, Text};
use place_core::{Element, Kind, Place, Quotes, TagOf, TagPlace, ValuePlace};
use std::alloc::Global;

/// The text of a place: what it is, and then its parts, with a blank before each, as `tag script before typed` and `value other
/// dq plain`. A set is its members, joined by `+`, and nothing where it has none. Fails only if allocation fails.
pub fn print_place(alloc: Global, place: Place) -> Result<Text, Memory>
    ensures { IfOk result (λ text. text ≡ place_text place) }
{
    let mut out = Text::new(alloc);
    push_place(&mut out, place)?;
    Ok(out)
}

fn push_place(out: &mut Text, place: Place) -> Result<(), Memory>
    ensures { OnOk result (out.new ≡ out.old ++ place_text place) }
{
    match place {
        Place::Text => out.push_str("text"),
        Place::Doctype => out.push_str("doctype"),
        Place::Comment(dash) => push_flagged(out, "comment", dash, " dash"),
        Place::Rcdata(element) => out.push_str(element_word(element)),
        Place::Tag(tag) => push_tag_place(out, tag),
        Place::Value(value) => push_value_place(out, value),
        Place::Script(js) => {
            out.push_str("script")?;
            push_js(out, js)
        }
        Place::Style(css) => {
            out.push_str("style")?;
            push_css(out, css)
        }
        Place::Block(lt) => push_flagged(out, "block", lt, " lt"),
    }
}

fn push_tag_place(out: &mut Text, place: TagPlace) -> Result<(), Memory>
    ensures { OnOk result (out.new ≡ out.old ++ (codes "tag" ++ tag_place_text place)) }
{
    out.push_str("tag")?;
    push_tag(out, place.tag)?;
    push_spots(out, place.spots)?;
    push_name(out, place)
}

// What is known of the name of an attribute, and of a `type` in the tag.
fn push_name(out: &mut Text, place: TagPlace) -> Result<(), Memory>
    ensures { OnOk result (out.new ≡ out.old
        ++ (flag_text (place.spots.inside || place.spots.after) (kind_text place.kind)
        ++ typed_text place.typed)) }
{
    push_flag(
        out,
        place.spots.inside || place.spots.after,
        kind_word(place.kind),
    )?;
    push_flag(out, place.typed, " typed")
}

fn push_value_place(out: &mut Text, place: ValuePlace) -> Result<(), Memory>
    ensures { OnOk result (out.new ≡ out.old ++ (codes "value" ++ value_place_text place)) }
{
    out.push_str("value")?;
    push_tag(out, place.tag)?;
    push_quotes(out, place.quotes)?;
    push_body(out, place.body)?;
    push_flag(out, place.typed, " typed")
}

fn push_tag(out: &mut Text, tag: TagOf) -> Result<(), Memory>
    ensures { OnOk result (out.new ≡ out.old ++ tag_text tag) }
{
    match tag {
        TagOf::End => out.push_str(" end"),
        TagOf::Start(element) => {
            out.push_str(" ")?;
            out.push_str(element_word(element))
        }
    }
}

fn push_quotes(out: &mut Text, quotes: Quotes) -> Result<(), Memory>
    ensures { OnOk result (out.new ≡ out.old ++ quotes_text quotes) }
{
    match quotes {
        Quotes::Dq => out.push_str(" dq"),
        Quotes::Sq => out.push_str(" sq"),
        Quotes::Bare(bare) => push_bare(out, bare),
    }
}

fn element_word(element: Element) -> &'static str
    ensures { result.now ≡ element_text element }
{
    match element {
        Element::Other => "other",
        Element::Title => "title",
        Element::Textarea => "textarea",
        Element::Style => "style",
        Element::Script => "script",
        Element::DataBlock => "data",
    }
}

fn kind_word(kind: Option<Kind>) -> &'static str
    ensures { result.now ≡ kind_text kind }
{
    match kind {
        None => "",
        Some(Kind::Plain) => " plain",
        Some(Kind::Url) => " url",
        Some(Kind::Script) => " script",
        Some(Kind::Style) => " style",
        Some(Kind::ScriptType) => " type",
        Some(Kind::NoHole) => " nohole",
    }
}
