ghost use Rattle.std.specs.Prelude.{◌≡◌};
ghost use Rattle.js_step.specs.ScriptScanViews.{script_lexeme_at, script_markup_at, script_scan_at};
ghost use Rattle.js_step.specs.ScriptScans.{script_before_end, script_scan_shown};
ghost use Rattle.js_step.specs.ScriptScans.{script_scan_place, script_slash_place, script_star_end};
ghost use Rattle.js_step.specs.ScriptScans.{script_tail_at};
ghost use Rattle.place_core.specs.place.ScriptParts.{script_tails, script_quote_place};

use crate::literals::is_outside;
use crate::scan::{NO_TAILS, ScriptAt, ScriptLetters, ScriptMarkup, ScriptScan};
use place_core::{Js, JsTails, Senses};

// What a text has ended in that the next one may go on with.
fn tails_at(at: ScriptAt, markup: ScriptMarkup) -> JsTails
    ensures { result
        ≡ script_tails (script_tail_at (script_lexeme_at at) (script_markup_at markup)) }
{
    match (at, markup) {
        (ScriptAt::Code(_), ScriptMarkup::Tag(false, ScriptLetters::None)) => {
            JsTails {
                lt: true,
                ..NO_TAILS
            }
        }
        (ScriptAt::Code(_), ScriptMarkup::Hash) => JsTails {
            hash: true,
            ..NO_TAILS
        },
        (ScriptAt::Word(_), _) => JsTails {
            word: true,
            ..NO_TAILS
        },
        (ScriptAt::Number, _) => JsTails {
            num: true,
            ..NO_TAILS
        },
        (ScriptAt::Pluses(_), _) => JsTails {
            plus: true,
            ..NO_TAILS
        },
        (ScriptAt::Minuses(_), _) => JsTails {
            minus: true,
            ..NO_TAILS
        },
        (ScriptAt::Slash(_), _) => JsTails {
            slash: true,
            ..NO_TAILS
        },
        _ => NO_TAILS,
    }
}

// The same of all paths, also of those that ended in something before the text, where it has no character.
fn tails_at_end(scan: ScriptScan) -> JsTails
    ensures { result ≡ script_before_end (script_scan_at scan) }
{
    if scan.trail.fresh {
        scan.before
    } else {
        tails_at(scan.at, scan.trail.markup)
    }
}

// Whether some path has ended in the `*` of a comment.
fn star_at_end(scan: ScriptScan) -> bool
    ensures { result ≡ script_star_end (script_scan_at scan) }
{
    if scan.trail.fresh {
        return scan.star;
    }
    match scan.at {
        ScriptAt::Block(_, star) => star,
        _ => false,
    }
}

// The place behind a slash that begins no comment of this node.
fn slash_place(re: bool, tails: JsTails) -> Js
    ensures { result ≡ script_slash_place re tails }
{
    if re {
        Js::Regexp(tails.slash)
    } else {
        Js::Code(
            Senses {
                re: true,
                div: false,
                brace: false,
            },
            tails,
        )
    }
}

// The place in a string.
fn quote_place(double: bool) -> Js
    ensures { result ≡ script_quote_place double }
{
    if double { Js::Dq } else { Js::Sq }
}

/// The place where the node ends, if that is not refused.
pub fn place(scan: ScriptScan) -> Js
    ensures { result ≡ script_scan_place (script_scan_at scan) }
{
    let tails = tails_at_end(scan);
    match scan.at {
        ScriptAt::Slash(_) => slash_place(scan.senses.re, tails),
        ScriptAt::Line(_) => Js::Line(scan.senses),
        ScriptAt::Block(_, _) => Js::Block(scan.senses, star_at_end(scan)),
        ScriptAt::InString(double, _) => quote_place(double),
        ScriptAt::InRegexp(_, _) => Js::Regexp(tails.slash),
        _ => Js::Code(scan.senses, tails),
    }
}

/// The place that is shown before a byte; none within a template literal, nor behind a slash after `}`.
pub fn shown(scan: ScriptScan) -> Option<Js>
    ensures { result ≡ script_scan_shown (script_scan_at scan) }
{
    if !is_outside(scan.literals) {
        return None;
    }
    match scan.at {
        ScriptAt::Slash(_) if scan.senses.brace => None,
        ScriptAt::InTemplate(_, _) | ScriptAt::TooDeep => None,
        _ => Some(place(scan)),
    }
}
