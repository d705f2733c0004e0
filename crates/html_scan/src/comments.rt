ghost use Rattle.std.specs.Prelude.{◌≡◌, ℕ, List};
ghost use Rattle.place_core.specs.page.States.{Inside};
ghost use Rattle.html_scan.specs.ClassViews.{class_at};
ghost use Rattle.html_scan.specs.ScanViews.{scan_at, pending_from, stage_at};
ghost use Rattle.html_scan.specs.Scans.{comment_next};

use crate::class::Class;
use crate::comment_stage::CommentStage;
use crate::scan::Scan;
use place_core::Place;

/// In a comment.
pub fn in_comment(class: Class) -> Scan
    ensures scan { (text : List ℕ) (k : ℕ) → scan_at text k result
        ≡ comment_next (class_at class) Inside }
    ensures pending { pending_from result ≡ 0 }
{
    match class {
        Class::HyphenMinus => Scan::InCommentEnd(CommentStage::Dash),
        _ => Scan::At(Place::Comment(false)),
    }
}

/// In what may be the end of a comment. (HTML Standard, sections 13.2.5.43 to 13.2.5.52.)
pub fn in_comment_end(class: Class, stage: CommentStage) -> Scan
    ensures scan { (text : List ℕ) (k : ℕ) → scan_at text k result
        ≡ comment_next (class_at class) (stage_at stage) }
    ensures pending { pending_from result ≡ 0 }
{
    match (class, stage) {
        (Class::GreaterThan, CommentStage::Dash) => Scan::At(Place::Comment(false)),
        (Class::GreaterThan, _) => Scan::At(Place::Text),
        (Class::HyphenMinus, CommentStage::Started) => Scan::InCommentEnd(
            CommentStage::StartedDash,
        ),
        (Class::HyphenMinus, CommentStage::Bang) => Scan::InCommentEnd(CommentStage::Dash),
        (Class::HyphenMinus, _) => Scan::InCommentEnd(CommentStage::DashDash),
        (Class::ExclamationMark, CommentStage::DashDash) => Scan::InCommentEnd(CommentStage::Bang),
        _ => Scan::At(Place::Comment(false)),
    }
}
