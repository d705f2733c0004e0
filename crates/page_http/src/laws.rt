ghost use Rattle.page_http.specs.Answers.{RequestsHaveOneReply};
ghost use Rattle.page_http.specs.Laws.{AnswersExclude, AnswersStay};
ghost use Rattle.page_http.specs.Responses.{RepliesAreResponses};

/// No bytes begin with two requests, or with a request and a part of one, or with a request and a
/// refusal. They are not a part and refused at once, nor refused with two statuses, but where
/// `httparse` has a choice: no head stands there yet, and either more than `MAX_FIELDS` field lines
/// do, or the target goes on and is already no text. A theorem; the call does nothing at run time.
pub fn answers_exclude()
    ensures { AnswersExclude }
{}

/// Whatever bytes follow, the request that the bytes begin with stays the first, and a status that
/// refuses them refuses them still. A theorem; the call does nothing at run time.
pub fn answers_stay()
    ensures { AnswersStay }
{}

/// A request has one reply for a set's pages and number: a page, the number, or a refusal with one
/// cause; and none where it asks for a reload. A theorem; the call does nothing at run time.
pub fn requests_have_one_reply()
    ensures { RequestsHaveOneReply }
{}

/// The bytes of a reply that can be sent are a response of the grammar of RFC 9112, as `httparse`
/// has it: the head with the status, the phrase and the fields, and then the body. A theorem; the
/// call does nothing at run time.
pub fn replies_are_responses()
    ensures { RepliesAreResponses }
{}
