ghost use Rattle.std.specs.Prelude.{◌≡◌};
ghost use Rattle.html_scan.specs.ScanViews.{declaration_at};
ghost use Rattle.place_core.specs.page.Comments as spec;

use html_words::{begins, same};

/// What bytes after `<!` open.
#[derive(Clone, Copy)]
pub enum Declaration {
    Comment,
    Doctype,
    /// What may still become one of these.
    Undecided,
    Nothing,
}

/// What bytes after `<!` open: a doctype in any case of the letters.
pub fn declared_by(bytes: &[u8]) -> Declaration
    ensures { declaration_at result ≡ spec.declared_by bytes.now }
{
    if bytes == b"--".as_slice() {
        return Declaration::Comment;
    }
    if same(bytes, b"doctype") {
        return Declaration::Doctype;
    }
    if b"--".starts_with(bytes) || begins(b"doctype", bytes) {
        return Declaration::Undecided;
    }
    Declaration::Nothing
}
