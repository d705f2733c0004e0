use crate::token::PageToken;
use page_io::List;
use place_core::Element;

/// Where the reading of a page stands (HTML Standard, section 13.2.5).
#[derive(Clone, Copy)]
pub enum Where {
    /// In text (data state).
    Text,
    /// After `<` (tag open state).
    TagOpen,
    /// After `</` (end tag open state).
    EndTagOpen,
    /// After `<!` and bytes that may still become `--` or `doctype` (markup declaration open state).
    DeclarationOpen,
    /// In a comment.
    Comment(CommentState),
    /// In what is read as a comment up to `>` (bogus comment state).
    BogusComment,
    /// In a doctype, of which only its end matters.
    Doctype,
    /// In the name of a tag (tag name state).
    TagName,
    /// Where the name of an attribute may begin (before attribute name state).
    BeforeAttributeName,
    /// In the name of an attribute (attribute name state).
    AttributeName,
    /// After the name of an attribute and white space (after attribute name state).
    AfterAttributeName,
    /// After the equals sign (before attribute value state).
    BeforeAttributeValue,
    /// In the value of an attribute (attribute value states).
    AttributeValue(PageQuoting),
    /// After the end of a quoted value (after attribute value (quoted) state).
    AfterAttributeValue,
    /// After a solidus (self-closing start tag state).
    SelfClosingStartTag,
    /// In the content of an element that has no tags in it (RCDATA, RAWTEXT and script data states).
    Content(Element, Pending),
}

/// How much of what may end a comment stands before a place in it.
#[derive(Clone, Copy)]
pub enum CommentState {
    /// `<!--` (comment start state).
    Started,
    /// `<!---` (comment start dash state).
    StartedDash,
    /// Nothing (comment state).
    Inside,
    /// `-` (comment end dash state).
    Dash,
    /// `--` (comment end state).
    DashDash,
    /// `--!` (comment end bang state).
    Bang,
}

/// How the value of an attribute is written: between quotation marks, between apostrophes, or without.
#[derive(Clone, Copy)]
pub enum PageQuoting {
    Double,
    Single,
    Unquoted,
}

/// How much of what may be an element's own end tag stands before a place in its content.
#[derive(Clone, Copy)]
pub enum Pending {
    Nothing,
    /// `<` (less-than sign states).
    LessThan,
    /// `</` and letters that may become the element's name (end tag open and end tag name states).
    Name,
}

/// Where an attribute stands in the page: its name from `name_from` up to `name_to`, and its value, without its quotes, from
/// `value_from` up to `value_to`. One without a value has an empty one.
#[derive(Clone, Copy, Debug, Drop)]
pub struct AttrPlace {
    pub name_from: usize,
    pub name_to: usize,
    pub value_from: usize,
    pub value_to: usize,
}

/// What has been read of a page. Places are counted in bytes from the page's beginning.
#[derive(Drop)]
pub struct Reading {
    /// Where the reading stands.
    pub at: Where,
    /// Where the text or the content at hand begins.
    pub text: usize,
    /// Where the last `<` of a text or a content stands: there a tag, a comment or a doctype at hand begins.
    pub less: usize,
    /// Where the name of the tag at hand begins; of a declaration, what stands after `<!`.
    pub name: usize,
    /// Where the name of the tag at hand ends.
    pub name_to: usize,
    /// Whether the tag at hand is an end tag.
    pub is_end: bool,
    /// The attribute at hand.
    pub attr: AttrPlace,
    /// The attributes before it, in order.
    pub attrs: List<AttrPlace>,
    /// The tokens so far, in order.
    pub tokens: List<PageToken>,
}
