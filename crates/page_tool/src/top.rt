ghost use Rattle.std.specs.Prelude.{◌≡◌, ◌≤◌, ◌⊎◌, ◌↔◌, false, IfSome, IsTrue, None};
ghost use Rattle.std.specs.Io.KnownBytes.{Appends};
ghost use Rattle.page_io.specs.Causes.{Rose};
ghost use Rattle.page_tool.specs.Asking.{command_asked};
ghost use Rattle.page_tool.specs.Command.{CommandHasNoError, CommandNeedsCause};
ghost use Rattle.page_tool.specs.Command.{WritesSoundly, is_accepted};
ghost use Rattle.page_tool.specs.Devices.{devices};
ghost use Rattle.page_tool.specs.Lines.{usage_text};
ghost use Rattle.page_tool.specs.ServeDevices.{serve_devices};
ghost use Rattle.page_tool.specs.ServeWords.{begins_serve, service_of};
ghost use Rattle.page_tool.specs.Serving.{RunsServe};
ghost use Rattle.page_tool.specs.Runs.{Runs};
ghost use Rattle.page_tool.specs.Words.{texts, command_of, no_command};

use crate::asked::{Asked, WordsRefused, read_words};
use crate::check::check;
use crate::explain::explain;
use crate::make::make;
use crate::render::render;
use crate::report::say;
use crate::serve::serve;
use crate::serve_words::{begins_serve, read_service};
use crate::status::Status;
use crate::tokens::tokens;
use page_io::{Folder, Sink, Source};
use page_net::{Door, Net};
use page_spawn::Spawner;
use set_publisher::Seats;
use std::alloc::Global;
use std::sync::Wait;

/// Does the command that the words are, over these devices, and gives back how it ended, and the
/// folder. `serve` may wait, for clients and for its workers; what is done for all other words is
/// `run_files`.
pub fn run<
    F: Folder + Send,
    I: Source,
    O: Sink,
    E: Sink,
    N: Net,
    T: Spawner,
    S: Seats,
    R: Wait + Sync,
>(
    alloc: Global,
    rt: &R,
    words: &[String],
    folder: F,
    input: &mut I,
    out: &mut O,
    err: &mut E,
    net: &mut N,
    spawner: &mut T,
    seats: &mut S,
) -> (Status, F)
where
    N::Door: Send + Drop,
    <N::Door as Door>::Link: Send,
    // At status 0 of `render DIR NAME` a whole page was written. It has the shape of the path that
    // the execution took through its templates, whatever the values, and each value is plain where
    // its hole stands, and reads back there. Over real files and streams the clause says nothing by
    // itself: their devices reveal no bytes to the contract (held, left and taken are None), so that
    // WritesSound holds of them trivially. It holds for users because the same generic code runs
    // over devices in memory, which reveal theirs. That two data with the same choices give pages of
    // one shape is the law pages_of_one_path_have_one_shape of page_path.
    ensures sound { result.0 ≡ Status.Ok → WritesSoundly (command_of (texts words.now))
        (devices (F.held folder) (F.faults folder) (I.left input.old) (I.faults input.old)
        (O.taken out.old) (O.faults out.old) (E.taken err.old) (E.faults err.old))
        (O.taken out.new) }

    // What is written, why each status comes and that it comes exactly then, the lines for people,
    // and what stays, where the words are not those of `serve`.
    ensures runs { service_of (texts words.now) ≡ None → Runs (command_of (texts words.now))
        (devices (F.held folder) (F.faults folder) (I.left input.old) (I.faults input.old)
        (O.taken out.old) (O.faults out.old) (E.taken err.old) (E.faults err.old))
        (devices (F.held result.1) (F.faults result.1) (I.left input.new) (I.faults input.new)
        (O.taken out.new) (O.faults out.new) (E.taken err.new) (E.faults err.new))
        result.0 }

    // Files that have templates and a root within the limits, and no error on a path of a root, or
    // on two, are not refused; and where files were accepted, they are such files. As above, this
    // says nothing by itself over real folders.
    ensures error_free { IsTrue (is_accepted result.0)
        → CommandHasNoError (command_of (texts words.now)) (F.held folder) }
    ensures complete { result.0 ≡ Status.SetRefused
        → CommandNeedsCause (command_of (texts words.now)) (F.held folder) }

    // The same for `serve`, over all devices: what the workers did, to which the doors are back, and
    // the lines of their ends; why each status comes, and that it comes exactly then; and that no
    // count of faults falls.
    ensures serves { IfSome (service_of (texts words.now)) (λ service.
        RunsServe N.Door.told N.Door.faults
        N.Door.Link.left N.Door.Link.taken N.Door.Link.faults service
        (devices (F.held folder) (F.faults folder) (I.left input.old) (I.faults input.old)
        (O.taken out.old) (O.faults out.old) (E.taken err.old) (E.faults err.old))
        (devices (F.held result.1) (F.faults result.1) (I.left input.new) (I.faults input.new)
        (O.taken out.new) (O.faults out.new) (E.taken err.new) (E.faults err.new))
        (serve_devices (N.told net.old) (N.faults net.old) (T.faults spawner.old)
        (S.faults seats.old))
        (serve_devices (N.told net.new) (N.faults net.new) (T.faults spawner.new)
        (S.faults seats.new)) result.0) }

    // Only `serve` asks the net, the spawner or the seats for anything.
    ensures unasked { service_of (texts words.now) ≡ None
        → (net.new ≡ net.old) × (spawner.new ≡ spawner.old) × (seats.new ≡ seats.old) }

    // The words are those of no command exactly at status 2.
    ensures usage { (result.0 ≡ Status.Usage)
        ↔ ((command_of (texts words.now) ≡ no_command) × (service_of (texts words.now) ≡ None)) }
{
    if !begins_serve(words) {
        return run_files(alloc, words, folder, input, out, err);
    }
    match read_service(words) {
        Some(service) => serve(alloc, rt, service, folder, out, err, net, spawner, seats),
        None => {
            say_usage(err);
            (Status::Usage, folder)
        }
    }
}

/// Does the command that the words are, whose first word is not `serve`, over these devices, and
/// gives back how it ended, and the folder. Templates may have all that their language has, and data
/// is any JSON text within its limits. What a command makes goes to `out`, and the lines for people
/// to `err`, whose faults change nothing. It waits for nobody.
pub fn run_files<F: Folder, I: Source, O: Sink, E: Sink>(
    alloc: Global,
    words: &[String],
    folder: F,
    input: &mut I,
    out: &mut O,
    err: &mut E,
) -> (Status, F)
    requires { begins_serve (texts words.now) ≡ false }
    // At status 0 of `render DIR NAME` a whole page was written. It has the shape of the path that
    // the execution took through its templates, whatever the values, and each value is plain where
    // its hole stands, and reads back there. Over real files and streams the clause says nothing by
    // itself: their devices reveal no bytes to the contract (held, left and taken are None), so that
    // WritesSound holds of them trivially. It holds for users because the same generic code runs
    // over devices in memory, which reveal theirs. That two data with the same choices give pages of
    // one shape is the law pages_of_one_path_have_one_shape of page_path.
    ensures sound { result.0 ≡ Status.Ok → WritesSoundly (command_of (texts words.now))
        (devices (F.held folder) (F.faults folder) (I.left input.old) (I.faults input.old)
        (O.taken out.old) (O.faults out.old) (E.taken err.old) (E.faults err.old))
        (O.taken out.new) }

    // What is written, why each status comes and that it comes exactly then, the lines for people,
    // and what stays.
    ensures runs { Runs (command_of (texts words.now))
        (devices (F.held folder) (F.faults folder) (I.left input.old) (I.faults input.old)
        (O.taken out.old) (O.faults out.old) (E.taken err.old) (E.faults err.old))
        (devices (F.held result.1) (F.faults result.1) (I.left input.new) (I.faults input.new)
        (O.taken out.new) (O.faults out.new) (E.taken err.new) (E.faults err.new))
        result.0 }

    // Files that have templates and a root within the limits, and no error on a path of a root, or
    // on two, are not refused; and where files were accepted, they are such files. As above, this
    // says nothing by itself over real folders.
    ensures error_free { IsTrue (is_accepted result.0)
        → CommandHasNoError (command_of (texts words.now)) (F.held folder) }
    ensures complete { result.0 ≡ Status.SetRefused
        → CommandNeedsCause (command_of (texts words.now)) (F.held folder) }

    // The words are those of no command exactly at status 2.
    ensures usage { (result.0 ≡ Status.Usage) ↔ (command_of (texts words.now) ≡ no_command) }
{
    let mut folder = folder;
    let asked = match read_words(alloc, words) {
        Ok(asked) => asked,
        Err(WordsRefused::Usage) => {
            say_usage(err);
            return (Status::Usage, folder);
        }
        Err(WordsRefused::Memory) => {
            say(err, "memory\n");
            return (Status::Memory, folder);
        }
    };
    let status = run_asked(alloc, asked, &mut folder, input, out, err);
    (status, folder)
}

// Writes the line for words that are no command.
fn say_usage<E: Sink>(err: &mut E)
    ensures said { Rose (E.faults err.old) (E.faults err.new)
        ⊎ Appends (E.taken err.old) (E.taken err.new) usage_text }
    ensures later { E.faults err.old ≤ E.faults err.new }
{
    say(
        err,
        "usage: check DIR | render DIR NAME | explain DIR NAME \
        | serve DIR ADDR --workers N [--links K] | tokens | make N\n",
    );
}

// Does a command over these devices.
fn run_asked<F: Folder, I: Source, O: Sink, E: Sink>(
    alloc: Global,
    asked: Asked,
    folder: &mut F,
    input: &mut I,
    out: &mut O,
    err: &mut E,
) -> Status
    ensures sound { result ≡ Status.Ok → WritesSoundly (command_asked asked.entry)
        (devices (F.held folder.old) (F.faults folder.old) (I.left input.old) (I.faults input.old)
        (O.taken out.old) (O.faults out.old) (E.taken err.old) (E.faults err.old))
        (O.taken out.new) }
    ensures runs { Runs (command_asked asked.entry)
        (devices (F.held folder.old) (F.faults folder.old) (I.left input.old) (I.faults input.old)
        (O.taken out.old) (O.faults out.old) (E.taken err.old) (E.faults err.old))
        (devices (F.held folder.new) (F.faults folder.new) (I.left input.new) (I.faults input.new)
        (O.taken out.new) (O.faults out.new) (E.taken err.new) (E.faults err.new)) result }
{
    match asked {
        Asked::Check { dir } => check(alloc, folder, out, err, dir),
        Asked::Render { dir, root } => render(alloc, folder, input, out, err, dir, root),
        Asked::Explain { dir, root } => explain(alloc, folder, out, err, dir, root),
        Asked::Tokens => tokens(alloc, input, out, err),
        Asked::Make { sections } => make(alloc, out, err, sections),
    }
}
