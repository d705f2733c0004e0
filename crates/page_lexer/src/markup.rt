// Text, comments and doctypes (HTML Standard, sections 13.2.5.1, 13.2.5.6, 13.2.5.7 and 13.2.5.41 to 13.2.5.53).
ghost use Rattle.std.specs.Prelude.{◌≡◌, OnOk};
ghost use Rattle.page_lexer.specs.Markup as spec;

use crate::class::PageClass;
use crate::declaration::{PageDeclaration, declared_by};
use crate::parts::part;
use crate::reading::comment_goes_on;
use crate::state::{CommentState, Reading, Where};
use crate::token::What;
use page_io::Memory;

impl Reading {
    /// In text (data state).
    pub fn in_text(&mut self, class: PageClass, here: usize)
        ensures { self.new ≡ spec.text class here self.old }
    {
        if let PageClass::LessThan = class {
            self.less = here;
            self.at = Where::TagOpen;
        }
    }

    /// After `<` (tag open state).
    pub fn tag_open(&mut self, class: PageClass, here: usize, next: usize) -> Result<(), Memory>
        ensures { OnOk result (self.new ≡ spec.tag_open class here next self.old) }
    {
        match class {
            PageClass::Letter => return self.begin_tag(here, false),
            PageClass::Solidus => self.at = Where::EndTagOpen,
            PageClass::ExclamationMark => {
                self.end_text()?;
                self.name = next;
                self.at = Where::DeclarationOpen;
            }
            PageClass::QuestionMark => {
                self.end_text()?;
                self.at = Where::BogusComment;
            }
            PageClass::LessThan => self.less = here,
            _ => self.at = Where::Text,
        }
        Ok(())
    }

    /// After `</` (end tag open state).
    pub fn end_tag_open(&mut self, class: PageClass, here: usize, next: usize) -> Result<(), Memory>
        ensures { OnOk result (self.new ≡ spec.end_tag_open class here next self.old) }
    {
        if let PageClass::Letter = class {
            return self.begin_tag(here, true);
        }
        self.end_text()?;
        self.bogus_comment(class, next)
    }

    /// After `<!` and some bytes (markup declaration open state).
    pub fn in_declaration_open(
        &mut self,
        page: &[u8],
        class: PageClass,
        next: usize,
    ) -> Result<(), Memory>
        ensures { OnOk result (self.new ≡ spec.in_declaration_open page.now class next self.old) }
    {
        match declared_by(part(page, self.name, next)) {
            PageDeclaration::Comment => {
                self.at = Where::Comment(CommentState::Started);
                Ok(())
            }
            PageDeclaration::Doctype => {
                self.at = Where::Doctype;
                Ok(())
            }
            PageDeclaration::Undecided => Ok(()),
            PageDeclaration::Nothing => self.bogus_comment(class, next),
        }
    }

    /// In a comment (comment states).
    pub fn comment(
        &mut self,
        state: CommentState,
        class: PageClass,
        next: usize,
    ) -> Result<(), Memory>
        ensures { OnOk result (self.new ≡ spec.comment state class next self.old) }
    {
        if let PageClass::GreaterThan = class {
            if ends_comment(state) {
                return self.end_markup(next, What::Comment);
            }
        }
        self.at = Where::Comment(comment_goes_on(state, class));
        Ok(())
    }

    /// In what is read as a comment up to `>` (bogus comment state).
    pub fn bogus_comment(&mut self, class: PageClass, next: usize) -> Result<(), Memory>
        ensures { OnOk result (self.new ≡ spec.bogus_comment class next self.old) }
    {
        if let PageClass::GreaterThan = class {
            return self.end_markup(next, What::Comment);
        }
        self.at = Where::BogusComment;
        Ok(())
    }

    /// In a doctype.
    pub fn doctype(&mut self, class: PageClass, next: usize) -> Result<(), Memory>
        ensures { OnOk result (self.new ≡ spec.doctype class next self.old) }
    {
        if let PageClass::GreaterThan = class {
            return self.end_markup(next, What::Doctype);
        }
        Ok(())
    }
}

// Whether a `>` ends the comment.
fn ends_comment(state: CommentState) -> bool
    ensures { result ≡ spec.ends_comment state }
{
    !matches!(state, CommentState::Inside | CommentState::Dash)
}
