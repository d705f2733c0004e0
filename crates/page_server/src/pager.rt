ghost use Rattle.page_http.specs.Answers.{AnswersSoundly, IsAnswerSendable};
ghost use Rattle.page_server.specs.Answering.{StandsFor, StandsOn};

use page_datum::Pages;
use page_http::{Answer, Request, Routes, reply_to};
use page_io::Memory;
use std::alloc::Global;

/// Who finds what a request is answered by a set. A pager may keep what it finds: whatever it
/// keeps, a reply is one that the set gives.
pub(crate) trait Pager<P: Pages> {
    ghost use Rattle.std.specs.Prelude.{ℕ, List, Result};
    ghost use mathlib.Core.List.{IsPrefix};
    ghost use Rattle.page_http.specs.declared.answer.Answer.{Answer};
    ghost use Rattle.page_http.specs.declared.request.Request.{Request};
    ghost use Rattle.page_io.specs.declared.stop.Memory.{Memory};

    // What it keeps, as contracts see it.
    ghost State: { Type 0 };

    ghost state: { Self → Self.State };

    // What is kept may stand where these sets were published.
    ghost stands: { Self.State → List P → Type 0 };

    // What is kept before and after a request is answered by the set of this number, and the answer.
    ghost pages: { Self.State → Self.State → P → Request → ℕ → Result Answer Memory → Type 0 };

    /// What a request is answered by the set, which is the last one and has this number. Fails only
    /// if memory runs out.
    fn answer(
        &mut self,
        alloc: Global,
        routes: &Routes,
        set: &P,
        request: &Request,
        number: u64,
    ) -> Result<Answer, Memory>
        requires { StandsFor stands (state self.old) set.now number }
        ensures sound { AnswersSoundly (P.execution set.now)
            (P.is_execution (P.made_of set.now)) (P.is_sound (P.made_of set.now))
            request.now number result }
        ensures sendable { IsAnswerSendable result }
        ensures pages { pages (state self.old) (state self.new) set.now request.now number result }
        ensures stands { StandsOn stands (state self.old) (state self.new) set.now number };

    // What stands goes on to stand where more sets are published.
    ghost stays: { (kept : Self.State) (old now : List P) → IsPrefix old now
        → stands kept old → stands kept now };
}

/// The pager that keeps nothing: a request is answered by the set alone.
#[derive(Clone, Copy)]
pub(crate) struct PlainPager;

impl<P: Pages> Pager<P> for PlainPager {
    ghost use Rattle.std.specs.Prelude.{⊤};
    ghost use Rattle.page_server.specs.Answering.{no_paging};

    ghost State = { ⊤ };

    ghost state = { λ _. tt };

    ghost stands = { λ _ _. ⊤ };

    ghost pages = { no_paging };

    ghost stays = { λ _ _ _ _ _. tt };

    fn answer(
        &mut self,
        alloc: Global,
        routes: &Routes,
        set: &P,
        request: &Request,
        number: u64,
    ) -> Result<Answer, Memory> {
        reply_to(alloc, routes, set, request, number)
    }
}
