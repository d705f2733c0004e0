ghost use Rattle.std.specs.Prelude.{◌≡◌, ◌+◌, ◌<◌, ◌≤◌, ℕ, List, get_or, length};
ghost use Rattle.html_scan.specs.ClassViews.{class_at};
ghost use Rattle.html_scan.specs.ScanViews.{scan_at, pending_from};
ghost use Rattle.html_scan.specs.Scans.{bang_next, content_next, end_name_next, pending_less_next};
ghost use Rattle.html_scan.specs.Scans as spec;
ghost use Rattle.place_core.specs.declared.element.Element.TheVariants as element;
ghost use Rattle.html_scan.specs.Slices.{pending};

use crate::class::Class;
use crate::scan::Scan;
use crate::tags::before_name;
use place_core::{Element, Place, TagOf};

/// In a title, a textarea or a data block.
pub fn in_content(class: Class, element: Element) -> Scan
    ensures scan { (text : List ℕ) (k : ℕ) → scan_at text k result
        ≡ content_next (class_at class) element }
    ensures pending { pending_from result ≤ 1 }
{
    match class {
        Class::LessThan => Scan::AfterContentLess(element),
        _ => Scan::At(rest_place(element)),
    }
}

/// Where the content of an element goes on that holds no tags.
pub fn rest_place(element: Element) -> Place
    ensures { result ≡ spec.rest_place element }
{
    match element {
        Element::DataBlock => Place::Block(false),
        _ => Place::Rcdata(element),
    }
}

/// In a data block, after `<!`.
pub fn after_block_bang(class: Class) -> Scan
    ensures scan { (text : List ℕ) (k : ℕ) → scan_at text k result
        ≡ bang_next (class_at class) element.DataBlock }
    ensures pending { pending_from result ≤ 3 }
{
    match class {
        Class::HyphenMinus => Scan::AfterBlockBangDash,
        _ => in_content(class, Element::DataBlock),
    }
}

/// In a title, a textarea or a data block, after `<`.
pub fn after_content_less(class: Class, element: Element, index: usize) -> Scan
    requires less { 1 ≤ index }
    ensures scan { (text : List ℕ) → scan_at text (index + 1) result
        ≡ pending_less_next (class_at class) element }
    ensures pending { pending_from result ≤ index + 1 }
{
    match class {
        Class::Solidus => Scan::InContentName {
            element,
            from: index - 1,
        },
        Class::ExclamationMark if matches!(element, Element::DataBlock) => Scan::AfterBlockBang,
        _ => in_content(class, element),
    }
}

/// In a title, a textarea or a data block, after `</` and letters: whether the byte goes on with its name, and whether they are all
/// of it.
pub fn in_content_name(
    class: Class,
    grows: bool,
    whole: bool,
    element: Element,
    from: usize,
) -> Scan
    ensures scan { (text : List ℕ) (k : ℕ) → from + 2 ≤ k → k < length text
        → scan_at text (k + 1) result
        ≡ end_name_next grows whole (class_at class) (get_or text k 0) element
        (pending text (from + 2) k) }
    ensures pending { pending_from result ≤ from + 2 }
{
    match class {
        Class::Letter(_) if grows => Scan::InContentName { element, from },
        Class::White | Class::Solidus if whole => Scan::At(before_name(TagOf::End, false)),
        Class::GreaterThan if whole => Scan::At(Place::Text),
        _ => in_content(class, element),
    }
}
