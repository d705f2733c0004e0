// What a page gets for a text in the element `script`: the text as it stands, but that comments are left out, and that the `<` of a
// word with which HTML would read something in a token is written otherwise.
ghost use Rattle.std.specs.Prelude.{◌≡◌, ◌++◌, ◌∷◌, ◌+◌, ◌-◌, ◌<◌, ◌≤◌, ◌^◌, ◌&&◌, not, ℕ, List, [], IfOk, OnOk, codes, get_or, length, true, false};
ghost use Rattle.js_lexer.specs.Written.{blank_of, escaped_less, is_hidden_in_script, is_taken_at, script_hides, script_written, script_written_at_cut, waiting_slash};
ghost use Rattle.js_lexer.specs.Written as written;
ghost use Rattle.js_step.specs.ScriptScans.{script_shared};
ghost use Rattle.js_step.specs.ScriptScanViews.{script_lexeme_at, script_lines_at, script_scan_at};
ghost use Rattle.place_core.specs.page.Classes.{class_of as class_of_byte};
ghost use Rattle.place_core.specs.page.Contents.{pending_bytes};
ghost use Rattle.place_core.specs.page.Tags.{feed_bytes};
ghost use Rattle.html_scan.specs.Slices.{pending as pending_of};
ghost use Rattle.html_scan.specs.ScanViews.{pending_from, pending_length, scan_at, script_pending_at, script_reach};
ghost use Rattle.html_scan.specs.Scans.{scan_next, script_fed_byte, script_feeding, script_scan_may_end};
ghost use Rattle.text_norm.specs.InScripts.{back_of_scan, script_of_scan};
ghost use Rattle.text_norm.specs.Kept.{IsProgressKept, IsScriptKept, ProgressReads, ScriptEnds, ScriptReadsOn, held_in_line, is_script_comment, line_end_length_of, reference_of, scan_of};
ghost use Rattle.text_norm.specs.Kept as spec;
ghost use Rattle.text_norm.specs.Scanned.{scan_cut_out, scripts_writing};
ghost use Rattle.text_norm.specs.Written.{script_read_out};

use crate::pending::WriteProgress;
use crate::plain_runs::push_run;
use html_scan::{
    Scan, ScriptPending, ScriptStep, after_script_byte, begun_script, behind_pending, class_of,
    may_end, script_step,
};
use js_step::{ScriptAt, ScriptEscape, ScriptHeld, ScriptPart, ScriptScan, is_outside};
use page_io::{Memory, Text};
use place_core::Place;

/// Writes what is no longer pending when a byte of a script has been read, behind which the text has been read to this scan state.
pub fn write_in_script(
    out: &mut Text,
    text: &str,
    index: usize,
    progress: WriteProgress,
    after: Scan,
) -> Result<WriteProgress, Memory>
    requires inside { index < length text.now }
    requires script { spec.is_in_script (scan_of text.now index progress) ≡ true }
    requires kept { IsProgressKept text.now index progress }
    requires scan { let b = get_or text.now index 0 in scan_at text.now (index + 1) after
        ≡ scan_next (scan_of text.now index progress) (class_of_byte b) b }
    requires pending { pending_from after ≤ index + 1 }
    ensures { (kept : IsProgressKept text.now index progress)
        → IfOk result (λ later.
        ProgressReads text.now index progress later kept.free out.old out.new) }
{
    let (script, back) = script_of(progress.scan);
    let bytes = text.as_bytes();
    let class = class_of(bytes[index]);
    let from = index - length_of(back);
    let done = match script_step(bytes, index, class, may_end(script), back) {
        ScriptStep::Holds(_) => progress.done,
        ScriptStep::Releases => write_read(out, text, from, index, script, progress.done)?,
        ScriptStep::Reads => write_read(out, text, from, index + 1, script, progress.done)?,
        ScriptStep::Ends { .. } => write_before_end(out, text, from, script, progress.done)?,
    };
    Ok(WriteProgress {
        scan: after,
        reference: None,
        done,
    })
}

// Writes what is no longer pending when the script has read the bytes from a place to another. What is pending then begins at the answer.
fn write_read(
    out: &mut Text,
    text: &str,
    from: usize,
    to: usize,
    script: ScriptScan,
    done: usize,
) -> Result<usize, Memory>
    requires order { from ≤ to }
    requires inside { to ≤ length text.now }
    requires reach { script_reach script ≤ from }
    requires kept { IsScriptKept text.now from (script_shared (script_scan_at script)) done }
    ensures { let n = script_scan_at script in let read = pending_of text.now from to in
        (kept : IsScriptKept text.now from (script_shared n) done) → IfOk result (λ later.
        ScriptReadsOn text.now to (script_shared (feed_bytes script_feeding n read)) later
        kept.free (script_read_out scripts_writing n read) out.old out.new) }
{
    let bytes = text.as_bytes();
    if is_hidden(bytes, from, to, script) {
        return write_word(out, text, from, to, script, done);
    }
    let mut read = script;
    let mut written = done;
    let mut at = from;
    while at < to {
        let next = after_script_byte(read, bytes[at]);
        written = write_script_byte(out, text, at, written, read, next)?;
        read = next;
        at += 1;
    }
    Ok(written)
}

// Whether bytes are one of the words, in a token.
fn is_hidden(text: &[u8], from: usize, to: usize, script: ScriptScan) -> bool
    requires order { from ≤ to }
    requires inside { to ≤ length text.now }
    ensures { result ≡ (not (script_scan_may_end (script_scan_at script))
        && is_hidden_in_script (pending_of text.now from to)) }
{
    !may_end(script) && is_word(html_scan::pending(text, from, to))
}

// Writes one of the words in a token.
fn write_word(
    out: &mut Text,
    text: &str,
    from: usize,
    to: usize,
    script: ScriptScan,
    done: usize,
) -> Result<usize, Memory>
    requires order { from ≤ to }
    requires inside { to ≤ length text.now }
    requires kept { IsScriptKept text.now from (script_shared (script_scan_at script)) done }
    requires token { script_scan_may_end (script_scan_at script) ≡ false }
    requires word { is_hidden_in_script (pending_of text.now from to) ≡ true }
    ensures { let n = script_scan_at script in let read = pending_of text.now from to in
        (kept : IsScriptKept text.now from (script_shared n) done) → IfOk result (λ later.
        ScriptReadsOn text.now to (script_shared (feed_bytes script_feeding n read)) later
        kept.free (script_hides (script_shared n) read) out.old out.new) }
{
    push_run(out, text, done, from)?;
    out.push_str(escaped(script))?;
    push_run(out, text, from + 1, to)?;
    Ok(to)
}

// Writes what is no longer pending when the script has read a byte. What is pending then begins at the answer.
fn write_script_byte(
    out: &mut Text,
    text: &str,
    index: usize,
    done: usize,
    before: ScriptScan,
    after: ScriptScan,
) -> Result<usize, Memory>
    requires inside { index < length text.now }
    requires kept { IsScriptKept text.now index (script_shared (script_scan_at before)) done }
    requires fed { script_scan_at after
        ≡ script_fed_byte (script_scan_at before) (get_or text.now index 0) }
    ensures { let n = script_scan_at before in let b = get_or text.now index 0 in
        (kept : IsScriptKept text.now index (script_shared n) done) → IfOk result (λ later.
        ScriptReadsOn text.now (index + 1) (script_shared (script_fed_byte n b)) later
        kept.free (script_written (script_shared n) b) out.old out.new) }
{
    if in_comment(before) {
        if in_comment(after) {
            return Ok(index + 1 - held_length(after));
        }
        if is_block(before) {
            out.push_str(blank(before))?;
            return Ok(index + 1);
        }
        return Ok(index + 1 - line_end_length(text.as_bytes()[index]));
    }
    if in_comment(after) {
        push_run(out, text, done, index - waiting(before))?;
        return Ok(index + 1);
    }
    Ok(done)
}

// Writes what is no longer pending before the end tag that ends the script. What is pending then begins at the answer.
fn write_before_end(
    out: &mut Text,
    text: &str,
    from: usize,
    script: ScriptScan,
    done: usize,
) -> Result<usize, Memory>
    requires inside { from < length text.now }
    requires less { get_or text.now from 0 ≡ 60 }
    requires kept { IsScriptKept text.now from (script_shared (script_scan_at script)) done }
    ensures { let n = script_scan_at script in
        (kept : IsScriptKept text.now from (script_shared n) done) → IfOk result (λ later.
        ScriptEnds text.now from later kept.free (script_written_at_cut (script_shared n))
        out.old out.new) }
{
    if !in_comment(script) {
        return Ok(done);
    }
    if is_block(script) {
        out.push_str(blank(script))?;
    }
    Ok(from)
}

// Whether a script is in a comment that does not end with its line.
fn is_block(script: ScriptScan) -> bool
    ensures { result ≡ written.is_block (script_lexeme_at script.at) }
{
    match script.at {
        ScriptAt::Block(_, _) => true,
        _ => false,
    }
}

// The script in its element, and what is pending behind it.
fn script_of(scan: Scan) -> (ScriptScan, ScriptPending)
    ensures script { (text : List ℕ) (k : ℕ)
        → script_scan_at result.0 ≡ script_of_scan (scan_at text k scan) }
    ensures back { (text : List ℕ) (k : ℕ)
        → script_pending_at text k result.1 ≡ back_of_scan (scan_at text k scan) }
    ensures reach { script_reach result.0 + pending_length result.1 ≤ pending_from scan }
{
    match scan {
        Scan::InScriptElement { script, pending } => (script, pending),
        Scan::At(Place::Script(js)) => (begun_script(js), ScriptPending::Nothing),
        _ => (begun_script(place_core::Js::Dq), ScriptPending::Nothing),
    }
}

/// Whether a script is in a comment that is no part of a template literal.
pub fn in_comment(script: ScriptScan) -> bool
    ensures { result ≡ is_script_comment (script_shared (script_scan_at script)) }
{
    if !is_outside(script.literals) {
        return false;
    }
    match script.at {
        ScriptAt::Line(_) | ScriptAt::Block(_, _) => true,
        _ => false,
    }
}

/// How many bytes a slash is that waits, as it may begin a comment.
pub fn waiting(script: ScriptScan) -> usize
    ensures { result ≡ length (waiting_slash (script_shared (script_scan_at script))) }
{
    if script.trail.fresh || !is_outside(script.literals) {
        return 0;
    }
    match (script.at, script.held) {
        (ScriptAt::Slash(_), ScriptHeld::None) => 1,
        _ => 0,
    }
}

/// How many bytes of a comment to the end of the line may be such an end.
pub fn held_length(script: ScriptScan) -> usize
    ensures { result ≡ length (held_in_line (script_shared (script_scan_at script))) }
{
    if !is_outside(script.literals) {
        return 0;
    }
    match (script.at, script.held) {
        (ScriptAt::Line(_), ScriptHeld::One(_)) => 1,
        (ScriptAt::Line(_), ScriptHeld::Two(_, _)) => 2,
        _ => 0,
    }
}

// What a part of a block comment becomes.
fn blank(script: ScriptScan) -> &'static str
    ensures { result.now ≡ blank_of (script_lines_at script.trail.lines) }
{
    match script.trail.lines {
        ScriptPart::Line => "\n",
        _ => " ",
    }
}

// What a `<` is written as in a token, by whether a backslash before it has been written.
fn escaped(script: ScriptScan) -> &'static str
    ensures { result.now ≡ escaped_less (is_taken_at (script_lexeme_at script.at)) }
{
    match script.at {
        ScriptAt::InString(_, ScriptEscape::Backslash)
        | ScriptAt::InRegexp(_, ScriptEscape::Backslash)
        | ScriptAt::InTemplate(ScriptEscape::Backslash, _) => "x3C",
        _ => "\\x3C",
    }
}

// How many bytes the end of a line is, by its last one.
fn line_end_length(byte: u8) -> usize
    ensures { result ≡ line_end_length_of byte }
{
    if byte < 128 { 1 } else { 3 }
}

/// How many bytes are pending.
pub fn length_of(back: ScriptPending) -> usize
    requires small { pending_length back < 2 ^ 64 }
    ensures { result ≡ pending_length back }
{
    match back {
        ScriptPending::Nothing => 0,
        ScriptPending::Less => 1,
        ScriptPending::Name { letters } => letters + 2,
        ScriptPending::Bang => 2,
        ScriptPending::BangDash => 3,
        ScriptPending::Opening { letters } => letters + 1,
    }
}

// One of the words, in any case.
fn is_word(bytes: &[u8]) -> bool
    ensures { result ≡ is_hidden_in_script bytes.now }
{
    bytes.eq_ignore_ascii_case(b"<script")
        || bytes.eq_ignore_ascii_case(b"</script")
        || bytes.eq_ignore_ascii_case(b"<!--")
}

/// Writes what is left of a text that ends in a script.
pub fn write_script_end(out: &mut Text, text: &str, progress: WriteProgress) -> Result<(), Memory>
    requires script { spec.is_in_script (scan_of text.now (length text.now) progress) ≡ true }
    requires kept { IsProgressKept text.now (length text.now) progress }
    ensures { (kept : IsProgressKept text.now (length text.now) progress)
        → OnOk result (out.new ≡ out.old ++ (kept.free
        ++ scan_cut_out (scan_of text.now (length text.now) progress)
        (reference_of text.now progress))) }
{
    let (script, back) = script_of(progress.scan);
    let from = text.len() - length_of(back);
    let end = behind_pending(text.as_bytes(), text.len(), script, back);
    if may_end(script) || from == text.len() {
        let done = write_read(out, text, from, text.len(), script, progress.done)?;
        write_unwritten(out, text, end, done)?;
    } else {
        write_begun_word(out, text, from, script, progress.done)?;
    }
    write_script_cut(out, end)
}

// Writes the beginning of a word, in a token in which the text ends.
fn write_begun_word(
    out: &mut Text,
    text: &str,
    from: usize,
    script: ScriptScan,
    done: usize,
) -> Result<(), Memory>
    requires inside { from < length text.now }
    requires less { get_or text.now from 0 ≡ 60 }
    requires token { script_scan_may_end (script_scan_at script) ≡ false }
    requires kept { IsScriptKept text.now from (script_shared (script_scan_at script)) done }
    ensures { let s = script_shared (script_scan_at script) in
        (kept : IsScriptKept text.now from s done)
        → OnOk result (out.new ≡ out.old ++ (kept.free
        ++ script_hides s (pending_of text.now from (length text.now)))) }
{
    push_run(out, text, done, from)?;
    out.push_str(escaped(script))?;
    push_run(out, text, from + 1, text.len())
}

// Writes what stands before a slash that waits, where a text ends; in a comment that is nothing.
fn write_unwritten(
    out: &mut Text,
    text: &str,
    script: ScriptScan,
    done: usize,
) -> Result<(), Memory>
    requires kept { IsScriptKept text.now (length text.now)
        (script_shared (script_scan_at script)) done }
    ensures { (kept : IsScriptKept text.now (length text.now)
        (script_shared (script_scan_at script)) done)
        → OnOk result (out.new ≡ out.old ++ kept.free) }
{
    if in_comment(script) {
        return Ok(());
    }
    push_run(out, text, done, text.len() - waiting(script))
}

// Writes a slash that waits, and the part of a block comment, where a text ends.
fn write_script_cut(out: &mut Text, script: ScriptScan) -> Result<(), Memory>
    ensures { OnOk result (out.new
        ≡ out.old ++ script_written_at_cut (script_shared (script_scan_at script))) }
{
    if in_comment(script) && is_block(script) {
        return out.push_str(blank(script));
    }
    if waiting(script) == 1 {
        return out.push_str("/");
    }
    Ok(())
}
