use crate::comment_stage::CommentStage;
use crate::quoting::Quoting;
use crate::references::OpenReference;
use crate::script_pending::ScriptPending;
use crate::triple::Triple;
use css_step::StyleScan;
use js_step::ScriptScan;
use place_core::{Element, Place, TagOf, ValuePlace};

/// Where a text has been read to: a place, or within a lexeme. What has been read of a name, or of the value of a `type`, begins
/// at `from` in the text, and goes up to the byte at hand.
#[derive(Clone, Copy)]
pub enum Scan {
    /// At a place.
    At(Place),
    /// In text, after `<`.
    AfterLess,
    /// In text, after `</`.
    AfterLessSolidus,
    /// In text, after `<!` and what has been read since.
    InDeclaration {
        from: usize,
    },
    /// In the name of a tag, an end tag or not.
    InTagName {
        ends: bool,
        from: usize,
    },
    /// In the name of an attribute of this tag, in which a `type` may have been seen.
    InAttributeName {
        tag: TagOf,
        typed: bool,
        from: usize,
    },
    /// In a comment, in what may be its end.
    InCommentEnd(CommentStage),
    /// In a value that is a URL, in a percent triple or in a reference; elsewhere in it the text is at a place.
    InUrl {
        place: ValuePlace,
        triple: Triple,
        reference: Option<OpenReference>,
    },
    /// In a value that is a style, in a lexeme of it or in a reference; elsewhere in it the text is at a place. `style` has the
    /// body, so that `place` has that of an empty style.
    InStyle {
        place: ValuePlace,
        style: StyleScan,
        reference: Option<OpenReference>,
    },
    /// In a value that is a script, behind a byte of this text or in a reference. `script` has the body.
    InScript {
        place: ValuePlace,
        script: ScriptScan,
        reference: Option<OpenReference>,
    },
    /// In a title, a textarea or a data block, after `<`.
    AfterContentLess(Element),
    /// In a title, a textarea or a data block, after `</` and letters; `from` is where the `<` stands.
    InContentName {
        element: Element,
        from: usize,
    },
    /// In the element `style`, in a lexeme of the style; elsewhere in it the text is at a place.
    InStyleElement(StyleScan),
    /// In the element `style`, after `<`; the scan state of the style is the one before it.
    AfterStyleLess(StyleScan),
    /// In the element `style`, after `</` and letters; `from` is where the `<` stands, and the scan state is the one before it.
    InStyleName {
        style: StyleScan,
        from: usize,
    },
    /// In the element `script`, behind a byte of this text; `script` is the scan state before what is pending back.
    InScriptElement {
        script: ScriptScan,
        pending: ScriptPending,
    },
    /// In a data block, after `<!`.
    AfterBlockBang,
    /// In a data block, after `<!-`.
    AfterBlockBangDash,
    /// Before the value of the `type` of a script, of this tag.
    BeforeType(TagOf),
    /// In that value.
    InType {
        tag: TagOf,
        quoting: Quoting,
        from: usize,
    },
}
