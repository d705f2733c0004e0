ghost use Rattle.std.specs.Prelude.{◌≡◌, ◌++◌, ◌||◌, IfOk, OnErr, OnOk, codes, string_bytes};
ghost use Rattle.std.specs.List.{list_any};
ghost use Rattle.css_lexer.specs.ReadBack.{IsBackInCode};
ghost use Rattle.css_lexer.specs.Sanitizers as spec;
ghost use Rattle.css_lexer.specs.Urls.{urls};
ghost use Rattle.san_css.specs.Undoing.{is_backslash};

use crate::undone::push_undone;
use crate::unsafe_words::{holds_bytes, is_spelled_in};
use css_lexer::{is_forbidden, values_read_back_in_code};
use page_io::{Memory, Text};
use std::alloc::Global;

/// What is written where a text may not stand in a style.
pub const FAILSAFE: &str = "ZgotmplZ";

/// What is written for a text in a style outside strings and URLs: the text with its escapes undone, or `ZgotmplZ`
/// where that has NUL, one of `"'()*/;@[\]{}<>` or a backquote, where it has `--`, and where its letters, digits and
/// `_` alone, in any case, spell `expression` or `mozbinding`. There it is plain, whatever the text: between tokens, in
/// words and plain text, and behind a `/`. Fails only if allocation fails. (CSS Syntax Level 3, section 4.3.7.)
pub fn css_value(alloc: Global, text: &str) -> Result<Text, Memory>
    ensures written { IfOk result (λ bytes. bytes ≡ spec.css_value text.now) }
    ensures in_code { IfOk result (λ bytes. IsBackInCode urls text.now bytes) }
{
    values_read_back_in_code();
    let mut out = String::new(alloc);
    push_css_value(&mut out, text)?;
    Ok(Text::from(out))
}

/// Appends what `css_value` gives. Fails only if allocation fails, and then nothing is appended. Of its own it allocates
/// only where the text has a backslash.
pub fn push_css_value(out: &mut String, text: &str) -> Result<(), Memory>
    ensures written { OnOk result (string_bytes out.new
        ≡ string_bytes out.old ++ spec.css_value text.now) }
    ensures kept { OnErr result (string_bytes out.new ≡ string_bytes out.old) }
{
    if !has_backslash(text.as_bytes()) {
        return push_unless_unsafe(out, text);
    }
    let mut undone = String::new(*out.allocator());
    push_undone(&mut undone, text)?;
    push_unless_unsafe(out, undone.as_str())
}

fn has_backslash(text: &[u8]) -> bool
    ensures { result ≡ list_any is_backslash text.now }
{
    text.iter().any(|byte| *byte == b'\\')
}

// Appends a text that has no escapes, or the failsafe where it may not be written.
fn push_unless_unsafe(out: &mut String, text: &str) -> Result<(), Memory>
    ensures written { OnOk result (string_bytes out.new
        ≡ string_bytes out.old ++ spec.unless_unsafe text.now) }
    ensures kept { OnErr result (string_bytes out.new ≡ string_bytes out.old) }
{
    let written = if is_unsafe(text.as_bytes()) {
        FAILSAFE
    } else {
        text
    };
    out.push_str(written)?;
    Ok(())
}

// Whether the failsafe is to stand in place of a text that has no escapes.
fn is_unsafe(text: &[u8]) -> bool
    ensures { result ≡ spec.is_unsafe text.now }
{
    has_forbidden(text) || (holds_bytes(b"--", text) || runs_code(text))
}

fn has_forbidden(text: &[u8]) -> bool
    ensures { result ≡ list_any spec.is_forbidden text.now }
{
    text.iter().any(|byte| is_forbidden(*byte))
}

// Whether the letters, digits and `_` of a text spell a property that runs code.
fn runs_code(text: &[u8]) -> bool
    ensures { result ≡ (spec.holds_word (codes "expression") (spec.style_spelled text.now)
        || spec.holds_word (codes "mozbinding") (spec.style_spelled text.now)) }
{
    is_spelled_in(b"expression", text) || is_spelled_in(b"mozbinding", text)
}
