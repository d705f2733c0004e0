ghost use Rattle.tpl_print.specs.Parsed.{DefinitionsAreParsed, FilesAreParsed};

/// A law, which takes no time: the body of a file is a tree that parsing gives, and so is the body of each `define` and
/// `block` in it. So what is printed of them reads as the same tree.
pub fn parsed_bodies()
    ensures file { FilesAreParsed }
    ensures bodies { DefinitionsAreParsed }
{}
