ghost use Rattle.std.specs.Prelude.{◌≡◌, ◌++◌, ◌<◌, ◌≤◌, ◌^◌, IfOk, OnOk, length};
ghost use Rattle.text_norm.specs.Kept.{IsProgressKept, IsWriteEnd, ProgressReads, reference_of, scan_of};
ghost use Rattle.text_norm.specs.Scanned.{scan_cut_out, written_at};
ghost use Rattle.text_norm.specs.Written.{text_escaped};

use crate::pending::{Change, Ending, WriteProgress, change_of, ending_at, less_from};
use crate::plain_runs::{push_less, push_reference, push_run, resting_end};
use crate::reference::{begun, reference_after};
use crate::script_writer::{write_in_script, write_script_end};
use html_scan::{Scan, class_of, next};
use page_io::{Memory, Text};
use place_core::Place;
use std::alloc::Global;

/// What a page gets for a text of a template, from the place before it: the text as it stands, but that
///
/// - a comment is left out,
/// - a `<` that begins nothing, in text, a title or a textarea, is written as `&lt;`,
/// - an `&` with which a reference has begun is written as `&amp;` where the text ends in the reference, or a comment begins,
/// - in the element `style`, a comment is written as a space,
/// - in the element `script`, a block comment is written as a space or a line feed, of a line comment nothing is written, and in a token
///   the `<` of `<script`, `</script` and `<!--` is written as `\x3C`.
///
/// So what comes after the text, or after the comment, goes on with none of these. A data block is written as it stands. (HTML
/// Standard, section 13.2.5.) Fails only if allocation fails. Takes time in proportion to the length of the text.
pub fn write_text(alloc: Global, place: Place, text: &str) -> Result<Text, Memory>
    requires { length text.now < 2 ^ 32 }
    ensures { IfOk result (λ written. written ≡ written_at text.now place) }
{
    let mut out = Text::new(alloc);
    let mut progress = WriteProgress {
        scan: Scan::At(place),
        reference: None,
        done: 0,
    };
    let bytes = text.as_bytes();
    let mut index = 0;
    while index < bytes.len() {
        progress = write_byte(&mut out, text, index, progress)?;
        index = resting_end(bytes, index + 1, progress);
    }
    write_end(&mut out, text, progress)?;
    Ok(out)
}

// Reads a byte of a text, and writes what is no longer pending.
fn write_byte(
    out: &mut Text,
    text: &str,
    index: usize,
    progress: WriteProgress,
) -> Result<WriteProgress, Memory>
    requires inside { index < length text.now }
    requires kept { IsProgressKept text.now index progress }
    ensures { (kept : IsProgressKept text.now index progress)
        → IfOk result (λ later.
        ProgressReads text.now index progress later kept.free out.old out.new) }
{
    let bytes = text.as_bytes();
    let class = class_of(bytes[index]);
    let scan = next(bytes, index, class, progress.scan);
    match change_of(progress.scan, scan) {
        Change::Keeps => Ok(WriteProgress {
            scan,
            reference: reference_after(progress.scan, scan, class, progress.reference, index),
            done: progress.done,
        }),
        Change::EscapesLess => {
            let less = less_from(progress.scan, index);
            push_less(out, text, progress.done, less)?;
            Ok(WriteProgress {
                scan,
                reference: begun(class, index),
                done: less + 1,
            })
        }
        Change::OpensComment => {
            write_free(out, text, index, progress)?;
            Ok(WriteProgress {
                scan,
                reference: None,
                done: index + 1,
            })
        }
        Change::LeavesOut => Ok(WriteProgress {
            scan,
            reference: None,
            done: index + 1,
        }),
        Change::OpensStyleComment => {
            push_run(out, text, progress.done, index - 1)?;
            Ok(WriteProgress {
                scan,
                reference: None,
                done: index + 1,
            })
        }
        Change::EndsStyleComment => {
            out.push_str(" ")?;
            Ok(WriteProgress {
                scan,
                reference: None,
                done: index + 1,
            })
        }
        Change::LeavesPending => Ok(WriteProgress {
            scan,
            reference: None,
            done: index,
        }),
        Change::EndsInStyleComment => {
            out.push_str(" ")?;
            Ok(WriteProgress {
                scan,
                reference: None,
                done: progress.done,
            })
        }
        Change::InScript => write_in_script(out, text, index, progress, scan),
    }
}

// Writes what is free, and then an open reference, which is to be text.
fn write_free(
    out: &mut Text,
    text: &str,
    index: usize,
    progress: WriteProgress,
) -> Result<(), Memory>
    requires inside { index ≤ length text.now }
    requires kept { IsProgressKept text.now index progress }
    requires ends { IsWriteEnd text.now index progress }
    ensures { (kept : IsProgressKept text.now index progress)
        → OnOk result (out.new ≡ out.old
        ++ (kept.free ++ text_escaped (reference_of text.now progress))) }
{
    match progress.reference {
        None => push_run(out, text, progress.done, less_from(progress.scan, index)),
        Some(opened) => push_reference(out, text, progress.done, opened),
    }
}

// Writes what is left where a text ends.
fn write_end(out: &mut Text, text: &str, progress: WriteProgress) -> Result<(), Memory>
    requires kept { IsProgressKept text.now (length text.now) progress }
    ensures { (kept : IsProgressKept text.now (length text.now) progress)
        → OnOk result (out.new ≡ out.old ++ (kept.free
        ++ scan_cut_out (scan_of text.now (length text.now) progress)
        (reference_of text.now progress))) }
{
    match ending_at(progress.scan) {
        Ending::InComment => Ok(()),
        Ending::InStyle => push_run(out, text, progress.done, text.len()),
        Ending::InStyleComment => out.push_str(" "),
        Ending::InScript => write_script_end(out, text, progress),
        Ending::BehindLess => {
            let less = less_from(progress.scan, text.len());
            push_less(out, text, progress.done, less)?;
            push_run(out, text, less + 1, text.len())
        }
        Ending::Loose => write_free(out, text, text.len(), progress),
    }
}
