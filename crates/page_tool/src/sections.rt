// The template and the data of `make N`.
ghost use Rattle.std.specs.Prelude.{◌≡◌, IfOk, OnOk, ◌++◌, ◌∷◌, []};
ghost use Rattle.page_datum.specs.Data as values;
ghost use Rattle.page_datum.specs.View.{view};
ghost use Rattle.page_tool.specs.Sections.{made_data, made_files, number_following, section_at, sections_from};

use page_datum::{Datum, Entries, Files, Items, NamedFile};
use page_io::{Bytes, List, Memory, Text};
use std::alloc::Global;

/// The name of the one file.
pub const MADE_NAME: &str = "make.html";

/// The one file, which has so many sections.
pub fn made_files(alloc: Global, sections: u32) -> Result<Files, Memory>
    ensures { IfOk result (λ files. files ≡ made_files sections) }
{
    let name = Text::copy_of(alloc, MADE_NAME)?;
    let bytes = made_bytes(alloc, sections)?;
    let mut list = List::new(alloc);
    list.push(NamedFile { name, bytes })?;
    Ok(Files {
        dir: Text::new(alloc),
        list,
    })
}

// So many sections, by the numbers that follow their number.
fn made_bytes(alloc: Global, sections: u32) -> Result<Bytes, Memory>
    ensures { IfOk result (λ bytes. bytes ≡ sections_from sections sections) }
{
    let mut bytes = Bytes::new(alloc);
    let mut number = sections;
    for _ in 0..sections {
        number = following(number);
        push_section(&mut bytes, number)?;
    }
    Ok(bytes)
}

// Appends the section that a number chooses, and the end of its line.
fn push_section(bytes: &mut Bytes, number: u32) -> Result<(), Memory>
    ensures { OnOk result (bytes.new ≡ bytes.old ++ (section_at number ++ 10 ∷ [])) }
{
    bytes.push_slice(section_at(number).as_bytes())?;
    bytes.push_slice(b"\n")?;
    Ok(())
}

// The number that follows a number, by a linear congruence.
fn following(number: u32) -> u32
    ensures { result ≡ number_following number }
{
    ((number as u64 * 1_103_515_245 + 12_345) % 2_147_483_648) as u32
}

// The section that a number chooses.
fn section_at(number: u32) -> &'static str
    ensures { result.now ≡ section_at number }
{
    match number / 65_536 % 5 {
        0 => "<p>{{.v}}</p>",
        1 => "<a href=\"/s?q={{.v}}\">{{.v}}</a>",
        2 => "<ul>{{range .l}}<li title={{.}}>{{.}}</li>{{end}}</ul>",
        3 => "<script>var x = {{.v}};</script>",
        _ => "<style>p{width:{{.w}}px}</style>",
    }
}

/// The data, `{"l":["a b","c"],"v":"<&","w":7}`.
pub fn made_datum(alloc: Global) -> Result<Datum, Memory>
    ensures { IfOk result (λ datum. view datum ≡ made_data) }
{
    let mut items = Vec::new(alloc);
    items.push(text(alloc, "a b")?)?;
    items.push(text(alloc, "c")?)?;
    let mut pairs = Vec::new(alloc);
    pairs.push((Text::copy_of(alloc, "l")?, Datum::List(Items::from(items))))?;
    pairs.push((Text::copy_of(alloc, "v")?, text(alloc, "<&")?))?;
    pairs.push((Text::copy_of(alloc, "w")?, Datum::Int(7)))?;
    Ok(Datum::Dict(Entries::from_pairs(alloc, pairs)?))
}

fn text(alloc: Global, text: &str) -> Result<Datum, Memory>
    ensures { IfOk result (λ datum. view datum ≡ values.text text.now) }
{
    Ok(Datum::Text(Text::copy_of(alloc, text)?))
}
