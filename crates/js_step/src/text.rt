ghost use Rattle.std.specs.Prelude.{◌≡◌, ◌&&◌, ◌+◌, ◌≤◌, [], ◌∷◌, ℕ};
ghost use Rattle.js_lexer.specs.Feeding as feeding;
ghost use Rattle.js_lexer.specs.Trails as trails;
ghost use Rattle.js_step.specs.KeptWords.{kept_point, kept_scan};
ghost use Rattle.js_step.specs.ScriptScanViews.{most_bytes};
ghost use Rattle.js_step.specs.ScriptScanViews.{ScriptBracesFit, ScriptScanFits};
ghost use Rattle.js_step.specs.ScriptScanViews.{ScriptTrailFits};
ghost use Rattle.js_step.specs.ScriptScanViews.{script_lexeme_at, script_lines_at, script_literals_at};
ghost use Rattle.js_step.specs.ScriptScanViews.{script_point_at, script_scan_at};
ghost use Rattle.js_step.specs.ScriptScanViews.{script_trail_at};
ghost use Rattle.js_step.specs.ScriptScans.{script_in_sense, script_scan_next, script_sense_next};
ghost use Rattle.js_step.specs.ScriptScans.{script_senses_next, script_tails_next};

use crate::feeding::fed;
use crate::literals::is_outside;
use crate::point::ScriptPoint;
use crate::refusals::tells_white_apart;
use crate::scan::{NO_TAILS, ScriptAt, ScriptLiterals, ScriptPart, ScriptScan, ScriptTrail};
use crate::senses::{both, in_sense, one_sense, only, sense_at};
use crate::white::{next_held, releases};
use crate::{escapes, markup};
use js_lexer::Sense;
use place_core::{JsTails, Senses};

// How many bytes have been read since a `[` that is not closed.
fn next_bracket(at: ScriptAt, bracket: u128) -> u128
    requires { bracket ≤ most_bytes }
    ensures most { result ≤ bracket + 1 }
    ensures bracket { result ≡ trails.bracket_after (script_lexeme_at at) bracket }
{
    match at {
        ScriptAt::InRegexp(true, _) => bracket + 1,
        _ => 0,
    }
}

// How many since the outermost template literal.
fn next_literal(literals: ScriptLiterals, literal: u128) -> u128
    requires { literal ≤ most_bytes }
    ensures most { result ≤ literal + 1 }
    ensures literal { result ≡ trails.literal_after (script_literals_at literals) literal }
{
    if is_outside(literals) { 0 } else { literal + 1 }
}

// What a byte is by itself in a block comment: the end of a line, or the first byte of one.
#[tactic(auto, using(crate::proofs::LineBytes::line_rules))]
fn line_alone(byte: u8) -> ScriptPart
    ensures { script_lines_at result ≡ trails.lines_of (byte ∷ []) }
{
    if byte == b'\n' {
        return ScriptPart::Line;
    }
    if byte == b'\r' {
        return ScriptPart::Line;
    }
    if byte == 0xE2 {
        return ScriptPart::E2;
    }
    ScriptPart::None
}

// Whether the end of a line is in the part of a block comment, behind a byte of it.
#[tactic(auto, using(crate::proofs::LineBytes::line_rules))]
fn lines_with(lines: ScriptPart, byte: u8) -> ScriptPart
    ensures { script_lines_at result ≡ trails.lines_with (script_lines_at lines) byte }
{
    match (lines, byte) {
        (ScriptPart::Line, _) => ScriptPart::Line,
        (ScriptPart::E280, 0xA8) => ScriptPart::Line,
        (ScriptPart::E280, 0xA9) => ScriptPart::Line,
        (ScriptPart::E2, 0x80) => ScriptPart::E280,
        _ => line_alone(byte),
    }
}

fn next_lines(at: ScriptAt, lines: ScriptPart, byte: u8) -> ScriptPart
    ensures { script_lines_at result
        ≡ trails.lines_after (script_lexeme_at at) (script_lines_at lines) byte }
{
    match at {
        ScriptAt::Block(_, _) => lines_with(lines, byte),
        _ => ScriptPart::None,
    }
}

// What is known of the bytes behind one that leads from a point to another.
fn next_trail(
    some: bool,
    trail: ScriptTrail,
    from: ScriptPoint,
    to: ScriptPoint,
    byte: u8,
) -> ScriptTrail
    requires { ScriptTrailFits most_bytes trail }
    ensures fits { (k : ℕ) → ScriptTrailFits k trail → ScriptTrailFits (k + 1) result }
    ensures trail { script_trail_at result ≡ trails.next_trail some (script_trail_at trail)
        (script_point_at from) (script_point_at to) byte }
{
    let inside = !is_outside(from.literals);
    ScriptTrail {
        fresh: trail.fresh && !some,
        markup: markup::markup_after(inside, from.at, trail.markup, byte),
        escape: escapes::next_escape(to.at, trail.escape, byte),
        brace: escapes::next_brace(to.at, trail.escape, trail.brace, byte),
        bracket: next_bracket(to.at, trail.bracket),
        literal: next_literal(to.literals, trail.literal),
        lines: next_lines(to.at, trail.lines, byte),
    }
}

// Where a byte leads on the paths of a sense.
fn fed_in(sense: Sense, scan: ScriptScan, byte: u8) -> ScriptPoint
    requires { ScriptBracesFit most_bytes scan.literals }
    ensures fits { (k : ℕ) → ScriptBracesFit k scan.literals
        → ScriptBracesFit (k + 1) result.literals }
    ensures point { script_point_at result ≡ kept_point (feeding.point_of (feeding.feed_script
        (script_in_sense sense (script_scan_at scan).state) byte)) }
{
    let at = in_sense(sense, scan.at);
    let from = ScriptPoint {
        literals: scan.literals,
        at,
    };
    fed(from, tells_white_apart(at), scan.held, byte)
}

// What a slash would be behind a byte on the paths of a sense.
fn sense_next(is_one: bool, sense: Sense, scan: ScriptScan, byte: u8) -> Senses
    requires { ScriptBracesFit most_bytes scan.literals }
    ensures { result ≡ script_sense_next is_one sense (script_scan_at scan).state byte }
{
    if is_one {
        let to = fed_in(sense, scan, byte);
        only(sense_at(to.at))
    } else {
        Senses {
            re: false,
            div: false,
            brace: false,
        }
    }
}

// What it would be on all paths.
fn senses_next(scan: ScriptScan, byte: u8) -> Senses
    requires { ScriptBracesFit most_bytes scan.literals }
    ensures { result ≡ script_senses_next scan.senses (script_scan_at scan).state byte }
{
    let re = sense_next(scan.senses.re, Sense::Re, scan, byte);
    let div = sense_next(scan.senses.div, Sense::Div, scan, byte);
    let brace = sense_next(scan.senses.brace, Sense::Brace, scan, byte);
    both(re, both(div, brace))
}

// What some path ended in before the text, while the first character is ahead.
fn tails_next(fresh: bool, before: JsTails) -> JsTails
    ensures { result ≡ script_tails_next fresh before }
{
    if fresh {
        JsTails {
            lt: false,
            hash: false,
            ..before
        }
    } else {
        NO_TAILS
    }
}

// Whether some path ended in the `*` of a comment, while the first character is ahead.
fn star_next(fresh: bool, star: bool) -> bool
    ensures { result ≡ fresh && star }
{
    fresh && star
}

/// Where a byte of text leads, if it is not refused.
pub fn next(scan: ScriptScan, byte: u8) -> ScriptScan
    requires { ScriptScanFits most_bytes scan }
    ensures fits { (k : ℕ) → ScriptScanFits k scan → ScriptScanFits (k + 1) result }
    ensures scan { script_scan_at result ≡ kept_scan (script_scan_next (script_scan_at scan) byte) }
{
    let sense = one_sense(scan.senses);
    let at = in_sense(sense, scan.at);
    let apart = tells_white_apart(at);
    let from = ScriptPoint {
        literals: scan.literals,
        at,
    };
    let to = fed_in(sense, scan, byte);
    let some = releases(apart, scan.held, byte);
    let trail = next_trail(some, scan.trail, from, to, byte);
    ScriptScan {
        senses: senses_next(scan, byte),
        before: tails_next(trail.fresh, scan.before),
        star: star_next(trail.fresh, scan.star),
        at: to.at,
        literals: to.literals,
        held: next_held(apart, scan.held, byte),
        trail,
    }
}
