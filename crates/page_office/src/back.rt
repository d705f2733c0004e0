ghost use Rattle.std.specs.Prelude.{◌≡◌, ◌≤◌, IfOk, IsErrOf};
ghost use mathlib.Core.List.{IsPrefix};
ghost use Rattle.page_io.specs.Causes.{Rose};
ghost use Rattle.page_http.specs.Replies.{IsSendable};
ghost use Rattle.page_office.specs.Clerks.{IsReloadReply};
ghost use Rattle.page_office.specs.Learning.{LearnsTold};
ghost use Rattle.page_office.specs.Reloads.{KeepsFolder, MakeSetAnswers, ReloadAnswers, told_files};
ghost use Rattle.page_office.specs.Replies.{AnswersReload, RepliesToReload};
ghost use Rattle.page_office.specs.declared.reload_stop.ReloadStop.TheVariants.{FolderFault};

use crate::reload_stop::ReloadStop;
use crate::replies::{read_fault_reply, refused_reply};
use page_datum::{Pages, Shown, load};
use page_http::{Reply, number_reply};
use page_io::{Folder, IoStop, Memory, Text};
use set_publisher::{Desk, Named, Notice, Told, Viewer};
use std::alloc::Global;
use std::marker::{Model, PhantomData};
use std::sync::Wait;

/// The back office: the desk that `J` names, and the directory whose template files its sets are
/// made of. It is ended by `close`. Contracts see the list of the desk, the folder and the
/// directory (`BackOffice` of `specs/BackOffice.antt`).
pub struct Back<F: Folder, P: Pages + Drop, S: Notice<P>, J: Named> {
    desk: Desk<P, S>,
    folder: F,
    dir: Text,
    of: PhantomData<J>,
}

impl<F: Folder, P: Pages + Drop, S: Notice<P>, J: Named> Model for Back<F, P, S, J> {
    ghost use Rattle.std.specs.Prelude.{◌≡◌};
    ghost use Rattle.page_office.specs.BackOffice.{BackOffice, back_office_code};

    ghost Value = { BackOffice P F };

    ghost coded = { back_office_code P.code F.code };

    ghost view = { λ b. record { desk = b.desk; folder = b.folder; dir = b.dir } };

    ghost invariant = { λ b. b.desk.book ≡ J.desk };
}

/// What a back office of the desk that `J` names answered a reload. Nobody else makes one, and it
/// cannot be copied. Contracts see the reply.
#[derive(Drop)]
pub struct Verdict<J: Named> {
    reply: Reply,
    of: PhantomData<J>,
}

impl<J: Named> Model for Verdict<J> {
    ghost use Rattle.page_http.specs.declared.reply.Reply.{Reply};

    ghost Value = { Reply };

    ghost view = { λ v. v.reply };
}

impl<J: Named> Verdict<J> {
    /// The reply. It does not allocate.
    pub fn reply(self) -> Reply
        ensures { result ≡ self }
    {
        self.reply
    }
}

// Makes a set of the template files of a directory as they are now.
fn make_set<F: Folder, P: Pages>(
    alloc: Global,
    folder: &mut F,
    dir: &str,
) -> Result<P, ReloadStop<P::Refused>>
    ensures answers { MakeSetAnswers P.made_of P.refuses P.Refused.is_memory
        (told_files (F.held folder.old) dir.now) result }
    ensures kept { F.held folder.new ≡ F.held folder.old }
    ensures later { F.faults folder.old ≤ F.faults folder.new }
    ensures cause { IsErrOf result FolderFault → Rose (F.faults folder.old) (F.faults folder.new) }
{
    let files = match load(alloc, folder, dir) {
        Ok(files) => files,
        Err(IoStop::Failed) => return Err(ReloadStop::FolderFault),
        Err(IoStop::Memory) => return Err(ReloadStop::Memory),
    };
    match P::make(alloc, files) {
        Ok(set) => Ok(set),
        Err(why) if why.memory() => Err(ReloadStop::Memory),
        Err(why) => Err(ReloadStop::Refused(why)),
    }
}

// The viewer learns what was told.
fn learn<V: Drop, S: Notice<V>>(viewer: &mut Viewer<V, S>, told: Told<V>)
    requires { told.known.seen.book ≡ viewer.old.book }
    ensures learns { LearnsTold told.known viewer.old viewer.new }
{
    viewer.learn(told);
}

impl<F: Folder, P: Pages + Drop, S: Notice<P>, J: Named> Back<F, P, S, J> {
    /// The back office of a desk, for the template files of this directory.
    pub fn new(desk: Desk<P, S>, folder: F, dir: Text) -> Back<F, P, S, J>
        requires { desk.book ≡ J.desk }
        ensures { result ≡ record { desk = desk; folder = folder; dir = dir } }
    {
        Back {
            desk,
            folder,
            dir,
            of: PhantomData,
        }
    }

    /// Makes a set of the template files as they are now, and publishes it. After an error the list
    /// of sets is as before. It may wait for viewers that are just looking.
    pub fn reload<R: Wait>(
        &mut self,
        alloc: Global,
        rt: &R,
    ) -> Result<Told<P>, ReloadStop<P::Refused>>
        ensures answers { ReloadAnswers P.made_of P.refuses P.Refused.is_memory F.held F.faults
            self.old self.new result }
        ensures desk { self.new.desk.book ≡ J.desk }
        ensures folder { KeepsFolder F.held F.faults self.old self.new }
    {
        let set = match make_set(alloc, &mut self.folder, self.dir.as_str()) {
            Ok(set) => set,
            Err(stop) => return Err(stop),
        };
        match self.desk.publish(alloc, rt, set) {
            Ok(told) => Ok(told),
            Err(Memory) => Err(ReloadStop::Memory),
        }
    }

    /// Answers a reload that a client of this viewer asked for: reloads, and has the viewer learn
    /// of the set that was published. It may wait for viewers that are just looking.
    ///
    /// The reply is 200 with the number of the last set that the viewer has seen then; or, with the
    /// number that was handed in, 422 with the lines of a refusal, or 500 where the folder failed.
    /// The error is out of memory: the list of sets is then as before, or has one more set, of
    /// which the viewer has learnt.
    pub fn answer<R: Wait>(
        &mut self,
        alloc: Global,
        rt: &R,
        viewer: &mut Viewer<P, S>,
        number: u64,
    ) -> Result<Verdict<J>, Memory>
        requires { viewer.old.book ≡ J.desk }
        ensures answers { AnswersReload P.made_of P.refuses P.Refused.is_memory P.Refused.text
            F.held F.faults self.old self.new viewer.old viewer.new number result }
        ensures folder { KeepsFolder F.held F.faults self.old self.new }
        ensures desk { viewer.new.book ≡ viewer.old.book }
        ensures grows { IsPrefix viewer.old.sets viewer.new.sets }
        ensures looks { viewer.new.looks ≡ viewer.old.looks }
        ensures misses { viewer.new.misses ≡ viewer.old.misses }
        ensures reply { IfOk result (IsReloadReply viewer.old viewer.new number) }
        ensures sendable { IfOk result IsSendable }
    {
        let done = self.reload(alloc, rt);
        match reply_to_reload(alloc, done, viewer, number) {
            Ok(reply) => Ok(Verdict {
                reply,
                of: PhantomData,
            }),
            Err(Memory) => Err(Memory),
        }
    }

    /// Ends the desk, and gives the folder back. It may wait for viewers that are just looking.
    pub fn close<R: Wait>(self, rt: &R) -> F
        ensures { result ≡ self.folder }
    {
        let Back {
            desk,
            folder,
            dir: _,
            of: _,
        } = self;
        desk.close(rt);
        folder
    }
}

// The reply to a reload's answer. The viewer learns first, so that it has seen what was published
// also where memory runs out.
fn reply_to_reload<V: Drop, S: Notice<V>, W: Shown + Drop>(
    alloc: Global,
    done: Result<Told<V>, ReloadStop<W>>,
    viewer: &mut Viewer<V, S>,
    number: u64,
) -> Result<Reply, Memory>
    requires { IfOk done (λ told. told.known.seen.book ≡ viewer.old.book) }
    ensures reply { RepliesToReload W.text done viewer.old viewer.new number result }
    ensures sendable { IfOk result IsSendable }
{
    match done {
        Ok(told) => {
            learn(viewer, told);
            number_reply(alloc, viewer.number())
        }
        Err(ReloadStop::Refused(why)) => refused_reply(alloc, &why, number),
        Err(ReloadStop::FolderFault) => read_fault_reply(alloc, number),
        Err(ReloadStop::Memory) => Err(Memory),
    }
}
