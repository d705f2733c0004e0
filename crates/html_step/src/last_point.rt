// The last point of a text at which two paths are apart in the beginning of a URL.
ghost use Rattle.std.specs.Prelude.{◌≡◌, ◌↔◌, ◌<◌, ◌≤◌, ◌+◌, IfSome, IsTrue, None, Some, drop, length, true};
ghost use Rattle.place_core.specs.page.States.{LexState};
ghost use Rattle.place_core.specs.page.Tags.{ValueState};
ghost use Rattle.place_core.specs.place.ApartPlaces.{opened_apart};
ghost use Rattle.place_core.specs.place.StatePlaces.{placed};
ghost use Rattle.html_scan.specs.ScanViews.{open_reference_at, pending_from, scan_at};
ghost use Rattle.html_scan.specs.Scans.{At};
ghost use Rattle.html_step.specs.ApartInText.{AreNotApart, IsLastIn, TakesByte};
ghost use Rattle.html_step.specs.ApartScans.{AnswersLast, IsBeginning, scan_beginning};
ghost use Rattle.html_step.specs.ApartScans as scans;
ghost use Rattle.html_step.specs.Steps as spec;

use html_scan::{OpenReference, Outcome, Scan, class_of, next, shown_place, turn};
use place_core::{Place, spells_apart};

/// The last point of a text, up to one of its points, at which two paths are apart in the beginning of a URL, by their places before
/// the text: how many bytes stand before that point. None where there is none. Takes no memory, and time in proportion to the length
/// of the text.
pub fn last_apart(one: Place, other: Place, text: &str, upto: u32) -> Option<u32>
    ensures found { IfSome result (λ after. (s r : LexState ValueState)
        → placed s ≡ Some one → placed r ≡ Some other
        → TakesByte upto (spec.after_text text.now one)
        → TakesByte upto (spec.after_text text.now other)
        → IsLastIn upto text.now s r (spec.place_before text.now after one)
        (spec.place_before text.now after other)) }
    ensures none { result ≡ None → (s r : LexState ValueState)
        → placed s ≡ Some one → placed r ≡ Some other
        → TakesByte upto (spec.after_text text.now one)
        → TakesByte upto (spec.after_text text.now other) → AreNotApart upto text.now s r }
{
    last_by_scans(text.as_bytes(), one, other, upto)
}

// The last point by the scan states. Behind the end of the text each point is as the end.
fn last_by_scans(text: &[u8], one: Place, other: Place, upto: u32) -> Option<u32>
    ensures { AnswersLast (upto + 1) text.now (At one) (At other) result }
{
    let end = (upto as usize).min(text.len());
    let mut one = Scan::At(one);
    let mut other = Scan::At(other);
    let mut last = None;
    for index in 0..end {
        if are_apart(text, index, one, other) {
            last = Some(index as u32);
        }
        let class = class_of(text[index]);
        one = next(text, index, class, one);
        other = next(text, index, class, other);
    }
    if are_apart(text, end, one, other) {
        return Some(upto);
    }
    last
}

fn are_apart(text: &[u8], index: usize, one: Scan, other: Scan) -> bool
    requires inside { index ≤ length text.now }
    requires pending { pending_from one ≤ index }
    requires other_pending { pending_from other ≤ index }
    ensures { IsTrue result ↔ (opened_apart
        (scan_beginning (scan_at text.now index one) (drop index text.now))
        (scan_beginning (scan_at text.now index other) (drop index text.now)) ≡ true) }
{
    match (url_place(text, index, one), url_place(text, index, other)) {
        (Some(one), Some(other)) => spells_apart(one, other),
        _ => false,
    }
}

// A place that may be in the beginning of a URL, and within no reference with which the next byte goes on.
fn url_place(text: &[u8], index: usize, scan: Scan) -> Option<Place>
    requires inside { index ≤ length text.now }
    requires pending { pending_from scan ≤ index }
    ensures { IsBeginning result
        (scan_beginning (scan_at text.now index scan) (drop index text.now)) }
{
    match scan {
        Scan::At(place) => Some(place),
        Scan::InUrl { reference, .. } | Scan::InStyle { reference, .. } => {
            if reads_on(text, index, reference) {
                return None;
            }
            shown_place(text, index, scan)
        }
        Scan::InStyleElement(_) | Scan::AfterStyleLess(_) | Scan::InStyleName { .. } => {
            shown_place(text, index, scan)
        }
        _ => None,
    }
}

fn reads_on(text: &[u8], index: usize, reference: Option<OpenReference>) -> bool
    requires inside { index ≤ length text.now }
    ensures { result
        ≡ scans.reads_on (open_reference_at text.now index reference) (drop index text.now) }
{
    let (_, left) = text.split_at(index);
    match (reference, left.split_first()) {
        (Some(open), Some((byte, _))) => match turn(class_of(*byte), open.form) {
            Outcome::Grows(_) | Outcome::Closes => true,
            Outcome::Breaks => false,
        },
        _ => false,
    }
}
