ghost use Rattle.std.specs.Prelude.{◌≡◌, IfOk, None};
ghost use mathlib.Core.List.{IsPrefix};
ghost use Rattle.page_http.specs.Replies.{IsSendable};
ghost use Rattle.page_office.specs.Clerks.{GivesReply, IsReloadReply};

use crate::back::Verdict;
use crate::clerk::Clerk;
use crate::office::Office;
use page_datum::Pages;
use page_io::{Folder, Memory};
use set_publisher::{Named, Notice, Viewer};
use std::alloc::Global;
use std::sync::{MutexGuard, Wait};

/// The clerk that takes the lock of an office, and has its back office answer. It tells no replies.
#[derive(Drop)]
pub struct OfficeClerk<'o, F: Folder, P: Pages + Drop, S: Notice<P>, J: Named> {
    office: &'o Office<F, P, S, J>,
}

impl<'o, F: Folder, P: Pages + Drop, S: Notice<P>, J: Named> OfficeClerk<'o, F, P, S, J> {
    /// A clerk of this office.
    pub fn new(office: &'o Office<F, P, S, J>) -> OfficeClerk<'o, F, P, S, J> {
        OfficeClerk { office }
    }
}

impl<'o, F: Folder, P: Pages + Drop, S: Notice<P>, J: Named> Clerk<P, S, J>
    for OfficeClerk<'o, F, P, S, J> {
    ghost use Rattle.std.specs.Prelude.{None};

    ghost given = { λ _. None };

    fn answer<R: Wait>(
        &mut self,
        alloc: Global,
        rt: &R,
        viewer: &mut Viewer<P, S>,
        number: u64,
    ) -> Result<Verdict<J>, Memory>
        requires { viewer.old.book ≡ J.desk }
        ensures desk { viewer.new.book ≡ viewer.old.book }
        ensures grows { IsPrefix viewer.old.sets viewer.new.sets }
        ensures looks { viewer.new.looks ≡ viewer.old.looks }
        ensures misses { viewer.new.misses ≡ viewer.old.misses }
        ensures reply { IfOk result (IsReloadReply viewer.old viewer.new number) }
        ensures sendable { IfOk result IsSendable }
        ensures given { GivesReply None None result }
    {
        let mut guard = self.office.back.lock(rt);
        let back = &mut *guard;
        let verdict = back.answer(alloc, rt, viewer, number);
        let _lock = MutexGuard::unlock(guard);
        verdict
    }
}
