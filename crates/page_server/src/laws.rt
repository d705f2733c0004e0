ghost use Rattle.page_server.specs.Laws.{PagesAreAnswered, RepliesAreInOrder};

use page_datum::Pages;

/// On a link the numbers of the replies never fall, and begin at no less than its viewer had seen;
/// nothing is sent after a reply that closes the connection; and no more than `MAX_REQUESTS`
/// requests are answered. A theorem; the call does nothing at run time.
pub fn replies_are_in_order<P: Pages + Drop>()
    ensures { RepliesAreInOrder P.execution P.made_of P.is_execution P.is_sound }
{}

/// A request for a page whose execution is done, which nothing refuses, is answered 200 with the
/// page, or 503. A theorem; the call does nothing at run time.
pub fn pages_are_answered<P: Pages + Drop>()
    ensures { PagesAreAnswered P.execution P.made_of P.is_execution P.is_sound }
{}
