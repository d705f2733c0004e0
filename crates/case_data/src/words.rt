use crate::characters::{put_first, put_prefix, put_value};
use case_table::{CaseOutput, CaseRow, CaseStop};
use html_words::{attr_kind, script_type, special};
use place_core::Element;

/// Writes what a call of `html_words` gives: the kind of a name on an element, whether a name is special, whether a type is
/// that of a script; the first character of bytes, the same of what stands before others, and all characters of a value.
pub fn put_words(out: &mut CaseOutput, call: &str, row: &CaseRow) -> Result<(), CaseStop> {
    match call {
        "attr_kind" => put_kind(out, row.text(0)?, element_of(row.text(1)?)?),
        "special" => out.put(if special(row.text(0)?) {
            "special"
        } else {
            "not"
        }),
        "script_type" => out.put(if script_type(row.text(0)?) {
            "script"
        } else {
            "data"
        }),
        "next_char" => put_first(out, row)?,
        "next_char_before" => put_prefix(out, row)?,
        "RefChars" => put_value(out, row)?,
        _ => return Err(CaseStop::Form),
    }
    Ok(())
}

fn element_of(word: &str) -> Result<Element, CaseStop> {
    match word {
        "Other" => Ok(Element::Other),
        "Title" => Ok(Element::Title),
        "Textarea" => Ok(Element::Textarea),
        "Style" => Ok(Element::Style),
        "Script" => Ok(Element::Script),
        "DataBlock" => Ok(Element::DataBlock),
        _ => Err(CaseStop::Form),
    }
}

fn put_kind(out: &mut CaseOutput, name: &str, element: Element) {
    let kind = attr_kind(name, element);
    out.put_made(format!(in out.alloc(); "{kind:?}"));
}
