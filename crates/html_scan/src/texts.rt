ghost use Rattle.std.specs.Prelude.{◌≡◌, ◌+◌, ◌^◌, ◌<◌, ◌≤◌, ℕ, List, get_or, length};
ghost use Rattle.html_scan.specs.ClassViews.{class_at};
ghost use Rattle.html_scan.specs.ScanViews.{declaration_at, scan_at, pending_from};
ghost use Rattle.html_scan.specs.Scans.{declaration_next, less_next, solidus_next, text_scan, At, doctype_next};
ghost use Rattle.html_scan.specs.Slices.{pending};

use crate::class::Class;
use crate::comment_stage::CommentStage;
use crate::declaration::Declaration;
use crate::scan::Scan;
use place_core::Place;

/// In text.
pub fn in_text(class: Class) -> Scan
    ensures scan { (text : List ℕ) (k : ℕ)
        → scan_at text k result ≡ text_scan (class_at class) }
    ensures pending { pending_from result ≡ 0 }
{
    match class {
        Class::LessThan => Scan::AfterLess,
        _ => Scan::At(Place::Text),
    }
}

/// After `<`.
pub fn after_less(class: Class, index: usize) -> Scan
    requires small { index < 2 ^ 63 }
    ensures scan { (text : List ℕ) → index < length text → scan_at text (index + 1) result
        ≡ less_next (class_at class) (get_or text index 0) }
    ensures pending { pending_from result ≤ index + 1 }
{
    match class {
        Class::Letter(_) => Scan::InTagName {
            ends: false,
            from: index,
        },
        Class::Solidus => Scan::AfterLessSolidus,
        Class::ExclamationMark => Scan::InDeclaration { from: index + 1 },
        _ => in_text(class),
    }
}

/// After `</`.
pub fn after_solidus(class: Class, index: usize) -> Scan
    ensures scan { (text : List ℕ) → index < length text → scan_at text (index + 1) result
        ≡ solidus_next (class_at class) (get_or text index 0) }
    ensures pending { pending_from result ≤ index }
{
    match class {
        Class::Letter(_) => Scan::InTagName {
            ends: true,
            from: index,
        },
        _ => in_text(class),
    }
}

/// After `<!` and bytes that open this with the byte at hand.
pub fn in_declaration(class: Class, opens: Declaration, from: usize) -> Scan
    ensures scan { (text : List ℕ) (k : ℕ) → from ≤ k → k < length text
        → scan_at text (k + 1) result ≡ declaration_next (declaration_at opens)
        (class_at class) (get_or text k 0) (pending text from k) }
    ensures pending { pending_from result ≤ from }
{
    match opens {
        Declaration::Comment => Scan::InCommentEnd(CommentStage::Started),
        Declaration::Doctype => Scan::At(Place::Doctype),
        Declaration::Undecided => Scan::InDeclaration { from },
        Declaration::Nothing => in_text(class),
    }
}

/// In a doctype, which goes up to `>`.
pub fn in_doctype(class: Class) -> Place
    ensures { At result ≡ doctype_next (class_at class) }
{
    match class {
        Class::GreaterThan => Place::Text,
        _ => Place::Doctype,
    }
}
