ghost use Rattle.std.specs.Prelude.{◌≡◌, ◌++◌, OnOk, map, true};
ghost use Rattle.html_step.specs.PlaceText.{bare_text, css_tails_text, js_tails_text, senses_text, spots_text};
ghost use Rattle.html_step.specs.Sets.{flag_text, member, member_text, member_set_text};
ghost use Rattle.html_step.specs.Sets as spec;

use page_io::{Memory, Text};
use place_core::{Bare, CssTails, JsTails, Senses, Spots};

/// Prints a set: a blank, and the members that it has, joined by `+`; nothing where it has none.
pub fn push_set(out: &mut Text, members: &[(bool, &str)]) -> Result<(), Memory>
    ensures { OnOk result (out.new
        ≡ out.old ++ member_set_text true (map (λ m. member m.0 m.1.now) members.now)) }
{
    let mut first = true;
    for row in members {
        push_member(out, row.0, first, row.1)?;
        first = first && !row.0;
    }
    Ok(())
}

fn push_member(out: &mut Text, there: bool, first: bool, word: &str) -> Result<(), Memory>
    ensures { OnOk result (out.new ≡ out.old ++ member_text there first word.now) }
{
    if !there {
        return Ok(());
    }
    out.push_str(separator(first))?;
    out.push_str(word)
}

fn separator(first: bool) -> &'static str
    ensures { result.now ≡ spec.separator first }
{
    if first { " " } else { "+" }
}

/// Prints a word only where something holds.
pub fn push_flag(out: &mut Text, there: bool, word: &str) -> Result<(), Memory>
    ensures { OnOk result (out.new ≡ out.old ++ flag_text there word.now) }
{
    if !there {
        return Ok(());
    }
    out.push_str(word)
}

/// Prints a word, and another one only where something holds.
pub fn push_flagged(out: &mut Text, word: &str, there: bool, more: &str) -> Result<(), Memory>
    ensures { OnOk result (out.new ≡ out.old ++ (word.now ++ flag_text there more.now)) }
{
    out.push_str(word)?;
    push_flag(out, there, more)
}

/// Prints where in a tag.
pub fn push_spots(out: &mut Text, s: Spots) -> Result<(), Memory>
    ensures { OnOk result (out.new ≡ out.old ++ spots_text s) }
{
    push_set(
        out,
        &[
            (s.name, "name"),
            (s.before, "before"),
            (s.inside, "in"),
            (s.after, "after"),
        ],
    )
}

/// Prints how far a value without quotes has come.
pub fn push_bare(out: &mut Text, s: Bare) -> Result<(), Memory>
    ensures { OnOk result (out.new ≡ out.old ++ bare_text s) }
{
    push_set(out, &[(s.uq, "uq"), (s.unbegun, "unbegun")])
}

/// Prints what a slash would be in a script.
pub fn push_senses(out: &mut Text, s: Senses) -> Result<(), Memory>
    ensures { OnOk result (out.new ≡ out.old ++ senses_text s) }
{
    push_set(out, &[(s.re, "re"), (s.div, "div"), (s.brace, "brace")])
}

/// Prints what a script ends in.
pub fn push_js_tails(out: &mut Text, s: JsTails) -> Result<(), Memory>
    ensures { OnOk result (out.new ≡ out.old ++ js_tails_text s) }
{
    push_set(
        out,
        &[
            (s.word, "word"),
            (s.num, "num"),
            (s.lt, "lt"),
            (s.slash, "slash"),
            (s.plus, "plus"),
            (s.minus, "minus"),
            (s.hash, "hash"),
        ],
    )
}

/// Prints what a style ends in.
pub fn push_css_tails(out: &mut Text, s: CssTails) -> Result<(), Memory>
    ensures { OnOk result (out.new ≡ out.old ++ css_tails_text s) }
{
    push_set(out, &[(s.word, "word"), (s.slash, "slash"), (s.lt, "lt")])
}
