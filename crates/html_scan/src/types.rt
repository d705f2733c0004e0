ghost use Rattle.std.specs.Prelude.{◌≡◌, ◌+◌, ◌^◌, ◌<◌, ◌≤◌, ℕ, List, get_or, length};
ghost use Rattle.place_core.specs.page.References.{Closed};
ghost use Rattle.place_core.specs.page.Tags.{is_start};
ghost use Rattle.html_scan.specs.ClassViews.{class_at};
ghost use Rattle.html_scan.specs.ScanViews.{quoting_at, read_type, scan_at, pending_from};
ghost use Rattle.html_scan.specs.Scans.{before_type_next, ended_type, type_begun, type_next};
ghost use Rattle.html_scan.specs.Slices.{pending};
ghost use Rattle.html_scan.specs.Scans as spec;
ghost use Rattle.html_scan.specs.declared.scan.Scan.TheVariants as scan;
ghost use Rattle.place_core.specs.page.Html as html;
ghost use Rattle.place_core.specs.page.Tags as tags;

use crate::class::Class;
use crate::quoting::Quoting;
use crate::scan::Scan;
use crate::tags::{before_name, content};
use html_words::script_type_in_value;
use place_core::{Element, TagOf};

/// The tag after the value of a script's `type`, by that value as it is written.
pub fn type_tag(tag: TagOf, value: &[u8]) -> TagOf
    ensures { let read = read_type type_begun Closed value.now
        in result ≡ spec.type_tag tag (ended_type read.0 read.1) }
{
    tag_by_type(tag, script_type_in_value(value))
}

// The tag after a `type`, which is a script's or not: that decides the content of a script element.
fn tag_by_type(tag: TagOf, of_script: bool) -> TagOf
    ensures { result ≡ tags.tag_by_type tag of_script }
{
    match tag {
        TagOf::Start(Element::Script) if !of_script => TagOf::Start(Element::DataBlock),
        _ => tag,
    }
}

// Whether a `type` has been seen after its value.
fn typed_after(tag: TagOf) -> bool
    ensures { result ≡ is_start tag }
{
    match tag {
        TagOf::End => false,
        TagOf::Start(_) => true,
    }
}

/// Before the value of a script's `type`.
#[tactic(auto, using(crate::proofs::TypesRead::type_starts))]
pub fn before_type(class: Class, tag: TagOf, index: usize) -> Scan
    requires small { index < 2 ^ 63 }
    ensures scan { (text : List ℕ) → index < length text → scan_at text (index + 1) result
        ≡ before_type_next (class_at class) (get_or text index 0) tag }
    ensures pending { pending_from result ≤ index + 1 }
{
    match class {
        Class::White => Scan::BeforeType(tag),
        Class::QuotationMark => begins(tag, Quoting::Double, index + 1),
        Class::Apostrophe => begins(tag, Quoting::Single, index + 1),
        Class::GreaterThan => Scan::At(content(type_tag(tag, b""))),
        _ => begins(tag, Quoting::Unquoted, index),
    }
}

fn begins(tag: TagOf, quoting: Quoting, from: usize) -> Scan
    ensures { result ≡ scan.InType tag quoting from }
{
    Scan::InType { tag, quoting, from }
}

/// In the value of a script's `type`, of which this has been read.
pub fn in_type(class: Class, tag: TagOf, quoting: Quoting, value: &[u8], from: usize) -> Scan
    ensures scan { (text : List ℕ) (k : ℕ) → from ≤ k → k < length text
        → value.now ≡ pending text from k → let read = read_type type_begun Closed value.now
        in scan_at text (k + 1) result
        ≡ type_next (html.ends_value (quoting_at quoting) (class_at class)) (class_at class)
        (get_or text k 0) tag (quoting_at quoting) read.0 read.1 }
    ensures pending { pending_from result ≤ from }
{
    if ends(quoting, class) {
        return after_type(class, type_tag(tag, value), quoting);
    }
    begins(tag, quoting, from)
}

/// Whether a byte ends a value.
pub fn ends(quoting: Quoting, class: Class) -> bool
    ensures { result ≡ html.ends_value (quoting_at quoting) (class_at class) }
{
    match (quoting, class) {
        (Quoting::Double, Class::QuotationMark) => true,
        (Quoting::Single, Class::Apostrophe) => true,
        (Quoting::Unquoted, Class::White | Class::GreaterThan) => true,
        _ => false,
    }
}

fn after_type(class: Class, tag: TagOf, quoting: Quoting) -> Scan
    ensures scan { (text : List ℕ) (k : ℕ) → scan_at text k result
        ≡ spec.after_type (quoting_at quoting) (class_at class) tag }
    ensures pending { pending_from result ≡ 0 }
{
    match (quoting, class) {
        (Quoting::Unquoted, Class::GreaterThan) => Scan::At(content(tag)),
        _ => Scan::At(before_name(tag, typed_after(tag))),
    }
}
