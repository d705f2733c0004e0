ghost use Rattle.std.specs.Prelude.{◌≡◌, ◌++◌, ◌+◌, ◌-◌, ◌≤◌, ◌<◌, ℕ, OnOk, codes, get_or, length};
ghost use Rattle.std.specs.Str.{IsCharBoundary};
ghost use Rattle.place_core.specs.declared.place.Place.TheVariants as place;
ghost use Rattle.html_scan.specs.Slices.{pending};
ghost use Rattle.text_norm.specs.Resting.{Differs, Rests, ReferenceStays};

use crate::pending::WriteProgress;
use crate::reference::Opened;
use html_scan::Scan;
use page_io::{Memory, Text};
use place_core::{Element, Place};

/// Where a run of bytes ends that stay as they are, and after which a text has been read to the same scan state: in text, in a title,
/// in a textarea and in a data block, the bytes other than `<` and `&`.
#[inline(always)]
pub fn resting_end(bytes: &[u8], index: usize, progress: WriteProgress) -> usize
    requires { index ≤ length bytes.now }
    ensures order { index ≤ result }
    ensures inside { result ≤ length bytes.now }
    ensures rests { (i : ℕ) → index ≤ i → i < result → Rests progress (get_or bytes.now i 0) }
{
    match progress.reference {
        None => match progress.scan {
            Scan::At(place) => place_end(bytes, index, place),
            _ => index,
        },
        Some(_) => index,
    }
}

#[inline(always)]
fn place_end(bytes: &[u8], index: usize, place: Place) -> usize
    requires { index ≤ length bytes.now }
    ensures order { index ≤ result }
    ensures inside { result ≤ length bytes.now }
    ensures stays { (i : ℕ) → index ≤ i → i < result → ReferenceStays place (get_or bytes.now i 0) }
{
    match place {
        Place::Text => run_end(bytes, index),
        Place::Rcdata(element) => rcdata_end(bytes, index, element),
        Place::Block(false) => run_end(bytes, index),
        _ => index,
    }
}

// In a title or a textarea; no other element has such a place.
#[inline(always)]
fn rcdata_end(bytes: &[u8], index: usize, element: Element) -> usize
    requires { index ≤ length bytes.now }
    ensures order { index ≤ result }
    ensures inside { result ≤ length bytes.now }
    ensures stays { (i : ℕ) → index ≤ i → i < result
        → ReferenceStays (place.Rcdata element) (get_or bytes.now i 0) }
{
    match element {
        Element::Title => run_end(bytes, index),
        Element::Textarea => run_end(bytes, index),
        _ => index,
    }
}

// Where a run of bytes other than `<` and `&` ends.
fn run_end(bytes: &[u8], index: usize) -> usize
    requires { index ≤ length bytes.now }
    ensures order { index ≤ result }
    ensures inside { result ≤ length bytes.now }
    ensures differs { (i : ℕ) → index ≤ i → i < result → Differs (get_or bytes.now i 0) }
{
    for at in index..bytes.len() {
        if bytes[at] == b'<' || bytes[at] == b'&' {
            return at;
        }
    }
    bytes.len()
}

/// Writes a part of a text as it stands.
pub fn push_run(out: &mut Text, text: &str, from: usize, to: usize) -> Result<(), Memory>
    requires order { from ≤ to }
    requires from { IsCharBoundary text.now from }
    requires to { IsCharBoundary text.now to }
    ensures { OnOk result (out.new ≡ out.old ++ pending text.now from to) }
{
    let (read, _) = text.split_at(to);
    let (_, run) = read.split_at(from);
    out.push_str(run)
}

/// Writes a part of a text as it stands, and then a `<` that is to be text.
pub fn push_less(out: &mut Text, text: &str, from: usize, less: usize) -> Result<(), Memory>
    requires order { from ≤ less }
    requires from { IsCharBoundary text.now from }
    requires to { IsCharBoundary text.now less }
    ensures { OnOk result (out.new ≡ out.old ++ (pending text.now from less ++ codes "&lt;")) }
{
    push_run(out, text, from, less)?;
    out.push_str("&lt;")
}

/// Writes a part of a text as it stands, and then a reference that is to be text.
pub fn push_reference(out: &mut Text, text: &str, from: usize, opened: Opened) -> Result<(), Memory>
    requires begun { 0 < opened.from }
    requires before { from ≤ opened.from - 1 }
    requires order { opened.from ≤ opened.to }
    requires from { IsCharBoundary text.now from }
    requires sign { IsCharBoundary text.now (opened.from - 1) }
    requires bytes { IsCharBoundary text.now opened.from }
    requires to { IsCharBoundary text.now opened.to }
    ensures { OnOk result (out.new ≡ out.old ++ (pending text.now from (opened.from - 1)
        ++ (codes "&amp;" ++ pending text.now opened.from opened.to))) }
{
    push_run(out, text, from, opened.from - 1)?;
    out.push_str("&amp;")?;
    push_run(out, text, opened.from, opened.to)
}
