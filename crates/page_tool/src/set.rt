// The set of a directory, and a text of it.
ghost use Rattle.std.specs.Prelude.{◌≡◌, ◌≤◌, IsErrOf};
ghost use Rattle.page_io.specs.Causes.{Rose};
ghost use Rattle.page_tool.specs.LoadedSets.{LoadSetAnswers};
ghost use Rattle.page_tool.specs.SetTexts.{WriteTextAnswers};

use crate::stop::CommandStop;
use page_check::{Checked, MakeRefused, check_files};
use page_datum::load;
use page_io::{Failed, Folder, IoStop, Sink, Text, write_all};
use std::alloc::Global;

/// The set that the template files of a directory are.
pub fn load_set<F: Folder>(alloc: Global, folder: &mut F, dir: &str) -> Result<Checked, CommandStop>
    ensures set { LoadSetAnswers (F.held folder.old) dir.now result }
    ensures kept { F.held folder.new ≡ F.held folder.old }
    ensures later { F.faults folder.old ≤ F.faults folder.new }
    ensures read { IsErrOf result CommandStop.Read
        → Rose (F.faults folder.old) (F.faults folder.new) }
{
    let files = match load(alloc, folder, dir) {
        Ok(files) => files,
        Err(IoStop::Failed) => return Err(CommandStop::Read),
        Err(IoStop::Memory) => return Err(CommandStop::Memory),
    };
    match check_files(alloc, files) {
        Ok(set) => Ok(set),
        Err(MakeRefused::Memory) => Err(CommandStop::Memory),
        Err(why) => Err(CommandStop::Set(why)),
    }
}

/// Writes all of a text.
pub fn write_text<O: Sink>(out: &mut O, text: &Text) -> Result<(), CommandStop>
    ensures written { WriteTextAnswers text.now (O.taken out.old) (O.taken out.new) result }
    ensures later { O.faults out.old ≤ O.faults out.new }
    ensures write { IsErrOf result CommandStop.Write → Rose (O.faults out.old) (O.faults out.new) }
{
    match write_all(out, text.as_str().as_bytes()) {
        Ok(()) => Ok(()),
        Err(Failed) => Err(CommandStop::Write),
    }
}
