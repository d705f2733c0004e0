use case_table::CaseStop;

/// The pieces of a text between marks, as its words or the members of a set.
#[derive(Drop)]
pub struct Splitter<'t> {
    mark: char,
    rest: Option<&'t str>,
}

impl<'t> Splitter<'t> {
    /// All pieces of a text.
    pub fn new(text: &'t str, mark: char) -> Splitter<'t> {
        Splitter {
            mark,
            rest: Some(text),
        }
    }

    /// No pieces.
    pub fn none() -> Splitter<'t> {
        Splitter {
            mark: ' ',
            rest: None,
        }
    }

    /// The next piece, which stays.
    pub fn peek(&self) -> Option<&'t str> {
        let rest = self.rest?;
        match rest.split_once(self.mark) {
            Some((piece, _)) => Some(piece),
            None => Some(rest),
        }
    }

    /// The next piece.
    pub fn next(&mut self) -> Result<&'t str, CaseStop> {
        let Some(rest) = self.rest else {
            return Err(CaseStop::Form);
        };
        match rest.split_once(self.mark) {
            Some((piece, more)) => {
                self.rest = Some(more);
                Ok(piece)
            }
            None => {
                self.rest = None;
                Ok(rest)
            }
        }
    }

    /// Takes a piece where it comes next, and says whether it does.
    pub fn takes(&mut self, piece: &str) -> bool {
        match self.peek() {
            Some(next) if next == piece => self.next().is_ok(),
            _ => false,
        }
    }

    /// That no piece is left.
    pub fn finish(&self) -> Result<(), CaseStop> {
        match self.rest {
            Some(_) => Err(CaseStop::Form),
            None => Ok(()),
        }
    }
}
