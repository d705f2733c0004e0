ghost use Rattle.std.specs.Prelude.{◌≡◌, ◌+◌, ◌-◌, ◌≤◌, ℕ, List, length};
ghost use Rattle.css_step.specs.StyleScanViews.{style_scan_at};
ghost use Rattle.js_lexer.specs.Written.{waiting_slash};
ghost use Rattle.js_step.specs.ScriptScans.{script_shared};
ghost use Rattle.js_step.specs.ScriptScanViews.{script_scan_at};
ghost use Rattle.html_scan.specs.ScanViews.{scan_at, pending_from};
ghost use Rattle.text_norm.specs.Kept.{comment_change, content_change, ending_of, held_in_line, less_change, less_kept, solidus_kept, style_change, style_ending};
ghost use Rattle.text_norm.specs.Kept as spec;

use crate::reference::Opened;
use crate::script_writer::{held_length, length_of, waiting};
use css_step::StyleScan;
use html_scan::Scan;
use js_step::ScriptScan;
use place_core::{Css, Element, Place};

/// How far a text has been read and written: the scan state to which it has been read, the reference that is open there, and the
/// offset up to which what has been read has been written. The bytes from there on are pending.
#[derive(Clone, Copy)]
pub struct WriteProgress {
    pub scan: Scan,
    pub reference: Option<Opened>,
    pub done: usize,
}

/// What becomes of a byte of a text, and of what is pending before it.
#[derive(Clone, Copy)]
pub enum Change {
    /// They stay as they are.
    Keeps,
    /// The pending `<` began nothing, and is to be text.
    EscapesLess,
    /// The pending `<` begins a comment: the text from it on is left out, and an open reference is to be text.
    OpensComment,
    /// The byte is part of a comment, and is left out.
    LeavesOut,
    /// The byte and the `/` before it begin a comment of a style, and are left out.
    OpensStyleComment,
    /// The byte ends a comment of a style, which becomes a space.
    EndsStyleComment,
    /// The byte is part of a comment of a style, or begins the end tag of the style: it is pending.
    LeavesPending,
    /// The pending end tag of a style ends its comment, which becomes a space.
    EndsInStyleComment,
    /// It is said of scripts in their element by what the byte does there.
    InScript,
}

/// Where a text ends.
#[derive(Clone, Copy)]
pub enum Ending {
    /// Where no `<` is pending.
    Loose,
    /// Where a `<` is pending, which now begins nothing.
    BehindLess,
    /// In a comment.
    InComment,
    /// In a style, where all that is pending is written as it stands.
    InStyle,
    /// In a comment of a style, which becomes a space.
    InStyleComment,
    /// In a script in its element.
    InScript,
}

/// What becomes of a byte, by what has been read before it and with it.
pub fn change_of(before: Scan, after: Scan) -> Change
    ensures { (text : List ℕ) (j k : ℕ) → result
        ≡ spec.change_of (scan_at text j before) (scan_at text k after) }
{
    match before {
        Scan::At(Place::Comment(_)) | Scan::InCommentEnd(_) => Change::LeavesOut,
        Scan::AfterLess | Scan::AfterLessSolidus | Scan::InDeclaration { .. } => {
            after_less(after)
        }
        Scan::At(Place::Script(_)) | Scan::InScriptElement { .. } => Change::InScript,
        Scan::AfterContentLess(Element::DataBlock) => Change::Keeps,
        Scan::InContentName {
            element: Element::DataBlock,
            ..
        } => Change::Keeps,
        Scan::AfterContentLess(_) | Scan::InContentName { .. } => after_content_less(after),
        Scan::At(Place::Style(_))
        | Scan::InStyleElement(_)
        | Scan::AfterStyleLess(_)
        | Scan::InStyleName { .. } => in_style(in_style_comment(before), after),
        _ => Change::Keeps,
    }
}

// In the element `style`, where what stands before the byte is in a comment of the style, or not.
fn in_style(before: bool, after: Scan) -> Change
    ensures { (text : List ℕ) (k : ℕ) → result ≡ style_change before (scan_at text k after) }
{
    match after {
        Scan::At(Place::Style(_)) | Scan::InStyleElement(_) => {
            by_comment(before, in_style_comment(after))
        }
        Scan::AfterStyleLess(_) if before => Change::LeavesPending,
        Scan::AfterStyleLess(_) | Scan::InStyleName { .. } => Change::Keeps,
        _ if before => Change::EndsInStyleComment,
        _ => Change::Keeps,
    }
}

fn by_comment(before: bool, after: bool) -> Change
    ensures { result ≡ comment_change before after }
{
    match (before, after) {
        (true, true) => Change::LeavesOut,
        (true, false) => Change::EndsStyleComment,
        (false, true) => Change::OpensStyleComment,
        (false, false) => Change::Keeps,
    }
}

// Whether what has been read is in a comment of a style in its element.
fn in_style_comment(scan: Scan) -> bool
    ensures { (text : List ℕ) (k : ℕ) → result ≡ spec.in_style_comment (scan_at text k scan) }
{
    match scan {
        Scan::At(Place::Style(Css::Comment(_))) => true,
        Scan::InStyleElement(style)
        | Scan::AfterStyleLess(style)
        | Scan::InStyleName { style, .. } => is_comment(style),
        _ => false,
    }
}

fn is_comment(style: StyleScan) -> bool
    ensures { result ≡ spec.is_style_comment (style_scan_at style) }
{
    match style {
        StyleScan::Comment(_) | StyleScan::StarBefore => true,
        _ => false,
    }
}

fn after_less(after: Scan) -> Change
    ensures { (text : List ℕ) (k : ℕ) → result ≡ less_change (scan_at text k after) }
{
    match after {
        Scan::At(Place::Text) | Scan::AfterLess => Change::EscapesLess,
        Scan::InCommentEnd(_) => Change::OpensComment,
        _ => Change::Keeps,
    }
}

fn after_content_less(after: Scan) -> Change
    ensures { (text : List ℕ) (k : ℕ) → result ≡ content_change (scan_at text k after) }
{
    match after {
        Scan::At(Place::Rcdata(_)) | Scan::AfterContentLess(_) => Change::EscapesLess,
        _ => Change::Keeps,
    }
}

/// Where a text ends that has been read to this scan state.
pub fn ending_at(scan: Scan) -> Ending
    ensures { (text : List ℕ) (k : ℕ) → result ≡ ending_of (scan_at text k scan) }
{
    match scan {
        Scan::At(Place::Comment(_)) | Scan::InCommentEnd(_) => Ending::InComment,
        Scan::At(Place::Script(_)) | Scan::InScriptElement { .. } => Ending::InScript,
        Scan::AfterContentLess(Element::DataBlock) => Ending::Loose,
        Scan::InContentName {
            element: Element::DataBlock,
            ..
        } => Ending::Loose,
        Scan::AfterLess
        | Scan::AfterLessSolidus
        | Scan::InDeclaration { .. }
        | Scan::AfterContentLess(_)
        | Scan::InContentName { .. } => Ending::BehindLess,
        Scan::At(Place::Style(_))
        | Scan::InStyleElement(_)
        | Scan::AfterStyleLess(_)
        | Scan::InStyleName { .. } => style_end(in_style_comment(scan)),
        _ => Ending::Loose,
    }
}

fn style_end(in_comment: bool) -> Ending
    ensures { result ≡ style_ending in_comment }
{
    if in_comment {
        return Ending::InStyleComment;
    }
    Ending::InStyle
}

/// The offset of the pending `<` after this many bytes, or in a style of the pending `/`; and this number itself where none is pending.
#[tactic(auto, using(crate::proofs::ScriptBacks::kept_length))]
pub fn less_from(scan: Scan, index: usize) -> usize
    requires { pending_from scan ≤ index }
    ensures { (text : List ℕ) → index ≤ length text
        → result ≡ index - length (less_kept (scan_at text index scan)) }
{
    match scan {
        Scan::AfterContentLess(Element::DataBlock) => index,
        Scan::InContentName {
            element: Element::DataBlock,
            ..
        } => index,
        Scan::AfterLess | Scan::AfterContentLess(_) => index.saturating_sub(1),
        Scan::AfterLessSolidus => index.saturating_sub(2),
        Scan::InDeclaration { from } => from.saturating_sub(2),
        Scan::InContentName { from, .. } => from,
        Scan::InStyleElement(style) => style_from(style, index),
        Scan::AfterStyleLess(style) => style_from(style, index.saturating_sub(1)),
        Scan::InStyleName { style, from } => style_from(style, from),
        Scan::InScriptElement { script, pending } => {
            let back = length_of(pending);
            script_from(script, index.saturating_sub(back))
        }
        _ => index,
    }
}

fn script_from(script: ScriptScan, index: usize) -> usize
    ensures { let s = script_shared (script_scan_at script) in
        result ≡ index - (length (waiting_slash s) + length (held_in_line s)) }
{
    index
        .saturating_sub(waiting(script))
        .saturating_sub(held_length(script))
}

fn style_from(style: StyleScan, index: usize) -> usize
    ensures { result ≡ index - length (solidus_kept (style_scan_at style)) }
{
    match style {
        StyleScan::Solidus => index.saturating_sub(1),
        _ => index,
    }
}
