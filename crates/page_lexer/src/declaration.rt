ghost use Rattle.std.specs.Prelude.{◌≡◌};
ghost use Rattle.page_lexer.specs.Declarations.{page_declaration_at};
ghost use Rattle.place_core.specs.page.Comments as spec;

use html_words::{begins, same};

/// What bytes after `<!` open.
#[derive(Clone, Copy)]
pub enum PageDeclaration {
    Comment,
    Doctype,
    /// What may still become one of these.
    Undecided,
    Nothing,
}

/// What bytes after `<!` open: a doctype in any case of the letters (HTML Standard, section 13.2.5.42).
pub fn declared_by(bytes: &[u8]) -> PageDeclaration
    ensures { page_declaration_at result ≡ spec.declared_by bytes.now }
{
    if bytes == b"--".as_slice() {
        return PageDeclaration::Comment;
    }
    if same(bytes, b"doctype") {
        return PageDeclaration::Doctype;
    }
    if b"--".starts_with(bytes) || begins(b"doctype", bytes) {
        return PageDeclaration::Undecided;
    }
    PageDeclaration::Nothing
}
