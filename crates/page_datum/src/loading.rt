ghost use Rattle.std.specs.Prelude.{◌≡◌, ◌++◌, ◌∷◌, [], IfOk, IfSome, OnOk};
ghost use Rattle.page_io.specs.Causes.{HasStop};
ghost use Rattle.page_datum.specs.TemplateFiles.{files_in, files_of};
ghost use Rattle.page_datum.specs.TemplateFiles as spec;

use crate::files::{Files, MAX_FILE, NamedFile};
use page_io::{Folder, IoStop, List, Text};
use std::alloc::Global;

/// The template files of a directory, in the order of their names: those whose names end in `.html`,
/// each with no more bytes than tell that it is too large.
pub fn load<F: Folder>(alloc: Global, folder: &mut F, dir: &str) -> Result<Files, IoStop>
    ensures files { IfOk result (λ files.
        IfSome (F.held folder.old) (λ held. files ≡ files_of held dir.now)) }
    ensures kept { F.held folder.new ≡ F.held folder.old }
    ensures cause { HasStop (F.faults folder.old) (F.faults folder.new) result }
{
    let names = folder.list(alloc, dir)?;
    let list = match files_with(alloc, folder, dir, names.as_slice()) {
        Ok(list) => list,
        Err(stop) => return Err(stop),
    };
    Ok(Files {
        dir: Text::copy_of(alloc, dir)?,
        list,
    })
}

// The template files of a directory with these names.
fn files_with<F: Folder>(
    alloc: Global,
    folder: &mut F,
    dir: &str,
    names: &[Text],
) -> Result<List<NamedFile>, IoStop>
    ensures files { IfOk result (λ list. IfSome (F.held folder.old)
        (λ held. list ≡ files_in held dir.now names.now)) }
    ensures kept { F.held folder.new ≡ F.held folder.old }
    ensures cause { HasStop (F.faults folder.old) (F.faults folder.new) result }
{
    let mut list = List::new(alloc);
    for name in names {
        match push_file(alloc, folder, dir, name, &mut list) {
            Ok(()) => {}
            Err(stop) => return Err(stop),
        }
    }
    Ok(list)
}

// Appends a file of a directory, where it is a template file.
fn push_file<F: Folder>(
    alloc: Global,
    folder: &mut F,
    dir: &str,
    name: &Text,
    list: &mut List<NamedFile>,
) -> Result<(), IoStop>
    ensures files { OnOk result (IfSome (F.held folder.old)
        (λ held. list.new ≡ list.old ++ files_in held dir.now (name.now ∷ []))) }
    ensures kept { F.held folder.new ≡ F.held folder.old }
    ensures cause { HasStop (F.faults folder.old) (F.faults folder.new) result }
{
    if !is_template(name.as_str()) {
        return Ok(());
    }
    let bytes = folder.read(alloc, dir, name.as_str(), MAX_FILE as u64)?;
    let name = Text::copy_of(alloc, name.as_str())?;
    list.push(NamedFile { name, bytes })?;
    Ok(())
}

// Whether a name ends in `.html`.
fn is_template(name: &str) -> bool
    ensures { result ≡ spec.is_template name.now }
{
    name.as_bytes().ends_with(b".html")
}
