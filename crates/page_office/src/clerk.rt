ghost use Rattle.std.specs.Prelude.{◌≡◌, IfOk};
ghost use mathlib.Core.List.{IsPrefix};
ghost use Rattle.page_http.specs.Replies.{IsSendable};
ghost use Rattle.page_office.specs.Clerks.{GivesReply, IsReloadReply};

use crate::back::Verdict;
use page_io::Memory;
use set_publisher::{Named, Notice, Viewer};
use std::alloc::Global;
use std::sync::Wait;

/// Who answers reloads for the viewers of the desk that `J` names. Since `Back::answer` alone makes
/// a `Verdict`, a clerk answers what a back office of that desk answered, or that memory ran out.
pub trait Clerk<V: Drop, S: Notice<V>, J: Named> {
    ghost use Rattle.std.specs.Prelude.{List, Option};
    ghost use Rattle.page_http.specs.declared.reply.Reply.{Reply};

    // The replies that the clerk gave, where it tells them.
    ghost given: { Self → Option (List Reply) };

    /// Answers a reload that a client of this viewer asked for. It may wait.
    ///
    /// The reply is 200 with the number of the last set that the viewer has seen then; or, with the
    /// number that was handed in, 422 with the lines of a refusal, or 500 where the folder failed,
    /// and then the viewer has seen what it had. The error is out of memory, which may come after a
    /// publish.
    fn answer<R: Wait>(
        &mut self,
        alloc: Global,
        rt: &R,
        viewer: &mut Viewer<V, S>,
        number: u64,
    ) -> Result<Verdict<J>, Memory>
        requires { viewer.old.book ≡ J.desk }
        ensures desk { viewer.new.book ≡ viewer.old.book }
        ensures grows { IsPrefix viewer.old.sets viewer.new.sets }
        ensures looks { viewer.new.looks ≡ viewer.old.looks }
        ensures misses { viewer.new.misses ≡ viewer.old.misses }
        ensures reply { IfOk result (IsReloadReply viewer.old viewer.new number) }
        ensures sendable { IfOk result IsSendable }
        ensures given { GivesReply (given self.old) (given self.new) result };
}
