ghost use Rattle.std.specs.Prelude.{◌≤◌, ◌+◌, ◌<◌, IfOk, OnOk, length, string_bytes};
ghost use Rattle.page_datum.specs.Reading.{max_length};

use crate::nests::{Nest, nests};
use crate::request::Input;
use crate::requests::{body, heads};
use crate::template_sets::{chain, pairs};
use crate::units::{push_units, push_within};
use std::alloc::{AllocError, Global};

/// An input of at most that many bytes.
pub fn input_of(alloc: Global, input: Input, size: usize) -> Result<String, AllocError>
    requires { size ≤ max_length }
    ensures { IfOk result (λ text. length (string_bytes text) ≤ size) }
{
    match input {
        Input::Text => repeated(alloc, "", "a", "", size),
        Input::Open => repeated(alloc, "", "{{", "", size),
        Input::String => repeated(alloc, "{{\"", "a", "\"}}", size),
        Input::Actions => repeated(alloc, "", "{{.}}", "", size),
        Input::Definitions | Input::Variables => numbered(alloc, input, size),
        Input::Markup => repeated(alloc, "", "<\"&", "", size),
        Input::References => repeated(alloc, "", "&lt;&#9;", "", size),
        Input::Tags => repeated(alloc, "", "<a b=c>", "", size),
        Input::Numbers => repeated(alloc, "[", "1,", "1]", size),
        Input::Texts => repeated(alloc, "[\"", "a", "\"]", size),
        Input::Lists => repeated(alloc, "[", "[],", "[]]", size),
        Input::Objects => objects(alloc, size),
        Input::Sections => repeated(alloc, "", SECTION, "", size),
        Input::RefusedSections => repeated(alloc, "", SECTION, "<h{{.}}>", size),
        Input::PageSections => page_sections(alloc, size),
        Input::Urls => repeated(alloc, "", URL, "", size),
        Input::Links => repeated(alloc, "", LINK, "", size),
        Input::Styles => repeated(alloc, "", STYLE, "", size),
        Input::StyleElements => repeated(alloc, "", STYLE_ELEMENT, "", size),
        Input::Scripts => repeated(alloc, "", SCRIPT, "", size),
        Input::ScriptElements => repeated(alloc, "", SCRIPT_ELEMENT, "", size),
        Input::Chain => chain(alloc, size),
        Input::Pairs => pairs(alloc, size),
        Input::Nests => nests(alloc, TAGS, size),
        Input::Values => nests(alloc, VALUES, size),
        Input::Heads => heads(alloc, size),
        Input::Body => body(alloc, size),
        Input::PageRequests => repeated(alloc, "", PAGE_REQUEST, "", size),
        Input::SmallPages => repeated(alloc, "", "<p>{{.q}}</p>", "", size),
        Input::One | Input::Four => Ok(String::new(alloc)),
    }
}

// A section of a page.
const SECTION: &str = "<p title=\"{{.a}}\">{{if .b}}x{{else}}<b>{{end}}</p>\n";

// A tag with a URL.
const URL: &str = "<a href=\"/list/a%20b?c=d&amp;e=&#102;\">";

// A link with two values in its URL.
const LINK: &str = "<a href=\"/list/{{.v}}?q={{.w}}\">{{.v}}</a>\n";

// A tag with two values in its style.
const STYLE: &str = "<p style=\"color: {{.v}}; width: {{.w}}px\">{{.v}}</p>\n";

// An element `style`, of which one property has a value.
const STYLE_ELEMENT: &str = "<style>p{width:{{.w}}px}</style>\n";

// A tag with three values in a script: a number in its code, and a text in a string and in a regular expression.
const SCRIPT: &str = "<p onclick=\"f({{.w}}, '{{.v}}', /{{.v}}/)\">{{.v}}</p>\n";

// An element `script` with three values: a number in its code, and a text in a string and in a regular expression.
const SCRIPT_ELEMENT: &str =
    "<script>var w = {{.w}}; f('{{.v}}', /{{.v}}/); // a comment\n</script>\n";

// A request for a small page.
const PAGE_REQUEST: &str = "GET /p/file?q=b HTTP/1.1\r\nHost: www.example.org\r\n\r\n";

// A section of a page with a hole.
const PAGE_HOLE: &str = "<p>{{.v}}</p>\n";

// The same, and then a section with a list.
const PAGE_HOLE_AND_LIST: &str =
    "<p>{{.v}}</p>\n<ul>{{range .l}}<li title={{.}}>{{.}}</li>{{end}}</ul>\n";

// Each level has a tag.
const TAGS: Nest = Nest {
    front: "",
    begin: "{{range .a}}<b title=\"{{.b}}\">",
    end: "</b>{{end}}",
    back: "",
};

// All levels are in a value without quotes.
const VALUES: Nest = Nest {
    front: "<p x=",
    begin: "{{range .a}}{{.b}}",
    end: "{{end}}",
    back: ">",
};

// As many sections as fit, in turn of the two kinds.
fn page_sections(alloc: Global, size: usize) -> Result<String, AllocError>
    requires { size ≤ max_length }
    ensures { IfOk result (λ text. length (string_bytes text) ≤ size) }
{
    let mut text = repeated(alloc, "", PAGE_HOLE_AND_LIST, "", size)?;
    push_within(&mut text, PAGE_HOLE, size)?;
    Ok(text)
}

// As many units as fit, each with its number.
fn numbered(alloc: Global, input: Input, size: usize) -> Result<String, AllocError>
    requires { size ≤ max_length }
    ensures { IfOk result (λ text. length (string_bytes text) ≤ size) }
{
    let mut text = String::new(alloc);
    for number in 0..size {
        let one = numbered_unit(alloc, input, number)?;
        if text.len() + one.len() > size {
            return Ok(text);
        }
        text.push_str(one.as_str())?;
    }
    Ok(text)
}

// A variable, and a use of the one with half its number; or a definition with a name and a body of its own.
fn numbered_unit(alloc: Global, input: Input, number: usize) -> Result<String, AllocError> {
    if input == Input::Variables {
        let older = number / 2;
        return format!(in alloc; "{{{{$v{number} := .}}}}{{{{$v{older}}}}}\n");
    }
    format!(in alloc; "{{{{define \"n{number}\"}}}}{number}{{{{end}}}}\n")
}

// An object with as many members as fit, whose keys differ; nothing where none fits.
fn objects(alloc: Global, size: usize) -> Result<String, AllocError>
    requires { size ≤ max_length }
    ensures { IfOk result (λ text. length (string_bytes text) ≤ size) }
{
    let end = "\"\":0}";
    let mut text = String::new(alloc);
    if end.len() + 1 > size {
        return Ok(text);
    }
    text.push_str("{")?;
    let room = size - end.len();
    for number in 0..size {
        let one = format!(in alloc; "\"k{number}\":{number},")?;
        if text.len() + one.len() > room {
            break;
        }
        text.push_str(one.as_str())?;
    }
    text.push_str(end)?;
    Ok(text)
}

// A prefix, as many units as fit, and an end; nothing where these two do not fit.
fn repeated(
    alloc: Global,
    prefix: &str,
    unit: &str,
    end: &str,
    size: usize,
) -> Result<String, AllocError>
    requires unit { 0 < length unit.now }
    requires unit_short { length unit.now ≤ 128 }
    requires prefix { length prefix.now ≤ 8 }
    requires end { length end.now ≤ 8 }
    requires size { size ≤ max_length }
    ensures { IfOk result (λ text. length (string_bytes text) ≤ size) }
{
    let mut text = String::new(alloc);
    if prefix.len() + end.len() > size {
        return Ok(text);
    }
    text.push_str(prefix)?;
    let room = size - end.len();
    let eight = format!(in alloc; "{unit}{unit}{unit}{unit}{unit}{unit}{unit}{unit}")?;
    let many = format!(in alloc; "{eight}{eight}{eight}{eight}")?;
    push_units(&mut text, many.as_str(), room)?;
    push_units(&mut text, unit, room)?;
    text.push_str(end)?;
    Ok(text)
}
