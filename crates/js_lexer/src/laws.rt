ghost use Rattle.js_lexer.specs.BackLaws.{DataArePlain, TextsReadBack};
ghost use Rattle.js_lexer.specs.Laws.{ScriptLaws};
ghost use Rattle.js_lexer.specs.WrittenLaws.{ScriptWrittenLaws};

/// A page and a path of which the states of a script are alike read the texts of the path alike: they tell the same of each byte that the
/// path does not refuse, of the end of the script and before a hole, and stay alike; so they do over a hole with bytes that are plain,
/// which has a mark in both or in neither. A theorem; the call does nothing at run time.
pub fn scripts_read_alike()
    ensures { ScriptLaws }
{}

/// In a script element, what is written in the place of a `<` of a token, of a block comment and of a line comment leads a page to where
/// the text leads the path, and tells the same. So a page to which is written what is to be of each byte, word and end of a node stands for
/// the path. A theorem; the call does nothing at run time.
pub fn what_is_written_reads_alike()
    ensures { ScriptWrittenLaws }
{}

/// What is written of a text in a string, or in a regular expression outside `[ ]` and right behind its slash, is plain there and reads
/// back as the text, whatever it is, where no escape is open before it. A theorem; the call does nothing at run time.
pub fn texts_read_back()
    ensures { TextsReadBack }
{}

/// What is written of a datum in code is plain there, whatever the datum, and is read as the tokens of its literal: behind a token or at
/// the beginning, behind a word, a number or a run that is open, and behind a slash that is held back and divides, in no template literal.
/// A theorem; the call does nothing at run time.
pub fn data_are_plain()
    ensures { DataArePlain }
{}
