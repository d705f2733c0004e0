use crate::back::Back;
use page_datum::Pages;
use page_io::Folder;
use set_publisher::{Named, Notice};
use std::sync::{Mutex, Wait};

/// One lock round a back office. It is ended by `close`.
pub struct Office<F: Folder, P: Pages + Drop, S: Notice<P>, J: Named> {
    pub(crate) back: Mutex<Back<F, P, S, J>>,
}

impl<F: Folder, P: Pages + Drop, S: Notice<P>, J: Named> Office<F, P, S, J> {
    /// The lock round this back office.
    pub fn new(back: Back<F, P, S, J>) -> Office<F, P, S, J> {
        Office {
            back: Mutex::new(back),
        }
    }

    /// Ends the desk, and gives the folder back, of which nothing is known after the lock. It may
    /// wait for viewers that are just looking.
    pub fn close<R: Wait>(self, rt: &R) -> F {
        let Office { back } = self;
        back.into_inner().close(rt)
    }
}
