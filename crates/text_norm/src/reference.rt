ghost use Rattle.std.specs.Prelude.{◌≡◌, ◌+◌, ◌^◌, ◌<◌, ◌≤◌, ℕ, List, [], IfSome, false, get_or, length, Option};
ghost use Rattle.place_core.specs.page.References.{begin_reference, next_reference};
ghost use Rattle.html_scan.specs.ClassViews.{class_at};
ghost use Rattle.html_scan.specs.ScanViews.{scan_at};
ghost use Rattle.text_norm.specs.Kept.{Continues, IsReadTo, place_kept, scan_kept, less_kept, reference_kept};
ghost use Rattle.text_norm.specs.Kept as spec;
ghost use Rattle.text_norm.specs.Scanned.{rcdata_open};
ghost use Rattle.text_norm.specs.ReferenceViews.{reference_view};

use html_scan::{Class, Outcome, ReferenceForm, Scan, turn};
use place_core::{Element, Place};

/// A reference that has begun: its form, and where the bytes after its `&` begin and end in the text.
#[derive(Clone, Copy)]
pub struct Opened {
    pub form: ReferenceForm,
    pub from: usize,
    pub to: usize,
}

/// The reference that is open after a byte where none was open.
pub fn begun(class: Class, index: usize) -> Option<Opened>
    requires small { index < 2 ^ 63 }
    ensures reference { (text : List ℕ) → reference_view text result
        ≡ begin_reference (class_at class) }
    ensures so { (reference : Option Opened)
        → IfSome result (IsReadTo (class_at class) index reference) }
{
    match class {
        Class::Ampersand => Some(Opened {
            form: ReferenceForm::Begun,
            from: index + 1,
            to: index + 1,
        }),
        _ => None,
    }
}

// The reference that is open after a byte of a text with references.
fn after_byte(reference: Option<Opened>, class: Class, index: usize) -> Option<Opened>
    requires small { index < 2 ^ 63 }
    requires from { IfSome reference (λ opened. opened.from ≤ index) }
    ensures reference { (text : List ℕ) → index < length text
        → IfSome reference (λ opened. opened.to ≡ index)
        → reference_view text result
        ≡ next_reference (reference_view text reference) (class_at class) (get_or text index 0) }
    ensures so { IfSome result (IsReadTo (class_at class) index reference) }
{
    match reference {
        None => begun(class, index),
        Some(opened) => match turn(class, opened.form) {
            Outcome::Grows(form) => Some(Opened {
                form,
                to: index + 1,
                ..opened
            }),
            Outcome::Closes => None,
            Outcome::Breaks => begun(class, index),
        },
    }
}

/// The reference that is open after a byte that stays as it is.
pub fn reference_after(
    before: Scan,
    after: Scan,
    class: Class,
    reference: Option<Opened>,
    index: usize,
) -> Option<Opened>
    requires small { index < 2 ^ 63 }
    requires from { IfSome reference (λ opened. opened.from ≤ index) }
    ensures reference { (text : List ℕ) (j k : ℕ) → index < length text
        → (less_kept (scan_at text j before) ≡ [] → IfSome reference (λ opened. opened.to ≡ index))
        → reference_view text result
        ≡ reference_kept (spec.stays (scan_at text j before) (scan_at text k after))
        (scan_at text j before) (class_at class) (get_or text index 0)
        (reference_view text reference) }
    ensures so { (text : List ℕ) (j k : ℕ)
        → Continues (spec.stays (scan_at text j before) (scan_at text k after))
        (class_at class) index reference result }
{
    if stays(before, after) {
        return reference;
    }
    moved(before, class, reference, index)
}

// The reference that is open after a byte with which none stays pending.
fn moved(before: Scan, class: Class, reference: Option<Opened>, index: usize) -> Option<Opened>
    requires small { index < 2 ^ 63 }
    requires from { IfSome reference (λ opened. opened.from ≤ index) }
    ensures reference { (text : List ℕ) (j : ℕ) → index < length text
        → (less_kept (scan_at text j before) ≡ [] → IfSome reference (λ opened. opened.to ≡ index))
        → reference_view text result
        ≡ scan_kept (scan_at text j before) (class_at class) (get_or text index 0)
        (reference_view text reference) }
    ensures so { Continues false (class_at class) index reference result }
{
    match before {
        Scan::At(place) => moved_at(place, class, reference, index),
        Scan::InUrl { .. } | Scan::InStyle { .. } => after_byte(reference, class, index),
        Scan::InScript { .. } => after_byte(reference, class, index),
        Scan::BeforeType(_) => after_byte(reference, class, index),
        Scan::InType { .. } => after_byte(reference, class, index),
        _ => None,
    }
}

fn moved_at(place: Place, class: Class, reference: Option<Opened>, index: usize) -> Option<Opened>
    requires small { index < 2 ^ 63 }
    requires from { IfSome reference (λ opened. opened.from ≤ index) }
    ensures reference { (text : List ℕ) → index < length text
        → IfSome reference (λ opened. opened.to ≡ index)
        → reference_view text result
        ≡ place_kept place (class_at class) (get_or text index 0) (reference_view text reference) }
    ensures so { Continues false (class_at class) index reference result }
{
    match place {
        Place::Text => after_byte(reference, class, index),
        Place::Value(_) => after_byte(reference, class, index),
        Place::Rcdata(element) => moved_in(element, class, reference, index),
        _ => None,
    }
}

// In a title or a textarea; a data block has no references.
fn moved_in(
    element: Element,
    class: Class,
    reference: Option<Opened>,
    index: usize,
) -> Option<Opened>
    requires small { index < 2 ^ 63 }
    requires from { IfSome reference (λ opened. opened.from ≤ index) }
    ensures reference { (text : List ℕ) → index < length text
        → IfSome reference (λ opened. opened.to ≡ index)
        → reference_view text result
        ≡ rcdata_open element (class_at class) (get_or text index 0) (reference_view text reference) }
    ensures so { Continues false (class_at class) index reference result }
{
    match element {
        Element::DataBlock => None,
        _ => after_byte(reference, class, index),
    }
}

// Whether an open reference stays pending as it is, with the bytes after it.
fn stays(before: Scan, after: Scan) -> bool
    ensures { (text : List ℕ) (j k : ℕ) → result
        ≡ spec.stays (scan_at text j before) (scan_at text k after) }
{
    match before {
        Scan::At(Place::Text) => begins_less(after),
        Scan::AfterLess | Scan::InDeclaration { .. } => goes_on_in_text(after),
        _ => false,
    }
}

fn begins_less(after: Scan) -> bool
    ensures { (text : List ℕ) (k : ℕ) → result ≡ spec.begins_less (scan_at text k after) }
{
    match after {
        Scan::AfterLess => true,
        _ => false,
    }
}

fn goes_on_in_text(after: Scan) -> bool
    ensures { (text : List ℕ) (k : ℕ) → result ≡ spec.text_goes_on (scan_at text k after) }
{
    match after {
        Scan::AfterLessSolidus | Scan::InDeclaration { .. } => true,
        _ => false,
    }
}
