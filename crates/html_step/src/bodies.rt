ghost use Rattle.std.specs.Prelude.{◌≡◌, ◌++◌, ◌≤◌, IfOk, OnOk};
ghost use Rattle.std.specs.Str.{IsAscii};
ghost use Rattle.html_step.specs.PlaceText.{body_text, css_text, js_text, open_text, parts_text, prefix_text};
ghost use Rattle.html_step.specs.PlaceText as spec;

use crate::sets::{push_css_tails, push_flag, push_flagged, push_js_tails, push_senses, push_set};
use page_io::{Memory, Text};
use place_core::{Body, Css, Js, Parts, Prefix};

/// Prints what a value is read as.
pub fn push_body(out: &mut Text, body: Body) -> Result<(), Memory>
    ensures { OnOk result (out.new ≡ out.old ++ body_text body) }
{
    match body {
        Body::Plain => out.push_str(" plain"),
        Body::NoHole => out.push_str(" nohole"),
        Body::Url(parts) => push_url(out, " url", parts),
        Body::Js(js) => push_js(out, js),
        Body::Css(css) => push_css(out, css),
    }
}

/// Prints a place in a script.
pub fn push_js(out: &mut Text, js: Js) -> Result<(), Memory>
    ensures { OnOk result (out.new ≡ out.old ++ js_text js) }
{
    match js {
        Js::Code(senses, tails) => {
            out.push_str(" js code")?;
            push_senses(out, senses)?;
            push_js_tails(out, tails)
        }
        Js::Dq => out.push_str(" js dq"),
        Js::Sq => out.push_str(" js sq"),
        Js::Regexp(slash) => push_flagged(out, " js regexp", slash, " slash"),
        Js::Line(senses) => {
            out.push_str(" js line")?;
            push_senses(out, senses)
        }
        Js::Block(senses, star) => {
            out.push_str(" js block")?;
            push_senses(out, senses)?;
            push_flag(out, star, " star")
        }
    }
}

/// Prints a place in a style.
pub fn push_css(out: &mut Text, css: Css) -> Result<(), Memory>
    ensures { OnOk result (out.new ≡ out.old ++ css_text css) }
{
    match css {
        Css::Code(tails) => {
            out.push_str(" css code")?;
            push_css_tails(out, tails)
        }
        Css::Dq => out.push_str(" css dq"),
        Css::Sq => out.push_str(" css sq"),
        Css::UrlFresh => out.push_str(" css urlfresh"),
        Css::Url(parts) => push_url(out, " css url", parts),
        Css::UrlDq(parts) => push_url(out, " css urldq", parts),
        Css::UrlSq(parts) => push_url(out, " css urlsq", parts),
        Css::UrlEnd => out.push_str(" css urlend"),
        Css::Comment(star) => push_flagged(out, " css comment", star, " star"),
    }
}

// A place in a URL, after a word.
fn push_url(out: &mut Text, word: &str, parts: Parts) -> Result<(), Memory>
    ensures { OnOk result (out.new ≡ out.old ++ (word.now ++ parts_text parts)) }
{
    out.push_str(word)?;
    let opened = opened(out, parts.opened)?;
    push_parts(out, parts, opened.as_str())
}

fn push_parts(out: &mut Text, s: Parts, opened: &str) -> Result<(), Memory>
    requires { opened.now ≡ open_text s.opened }
    ensures { OnOk result (out.new ≡ out.old ++ parts_text s) }
{
    push_set(
        out,
        &[
            (s.start, "start"),
            (s.opened.is_some(), opened),
            (s.openhole, "openhole"),
            (s.prequery, "prequery"),
            (s.query, "query"),
            (s.bad, "bad"),
        ],
    )
}

// The word for the beginning of a URL.
fn opened(near: &Text, prefix: Option<Prefix>) -> Result<Text, Memory>
    ensures { IfOk result (λ word. word ≡ open_text prefix) }
{
    let mut word = Text::new(near.allocator());
    match prefix {
        Some(prefix) => {
            push_prefix(&mut word, prefix)?;
            Ok(word)
        }
        None => Ok(word),
    }
}

fn push_prefix(out: &mut Text, prefix: Prefix) -> Result<(), Memory>
    ensures { OnOk result (out.new ≡ out.old ++ prefix_text prefix) }
{
    match prefix {
        Prefix::Off => out.push_str("open"),
        Prefix::Javascript(count) => push_spelled(out, "javascript", count),
        Prefix::Vbscript(count) => push_spelled(out, "vbscript", count),
        Prefix::DataScheme(count) => push_spelled(out, "data", count),
        Prefix::Differs => out.push_str("open(?)"),
    }
}

// So many letters of a word.
fn push_spelled(out: &mut Text, word: &str, count: u8) -> Result<(), Memory>
    requires { IsAscii word.now }
    ensures { OnOk result (out.new ≡ out.old ++ spec.spelled word.now count) }
{
    let (letters, _) = word.split_at(usize::from(count).min(word.len()));
    out.push_str("open(")?;
    out.push_str(letters)?;
    out.push_str(")")
}
