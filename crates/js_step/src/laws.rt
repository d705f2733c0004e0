ghost use Rattle.js_step.specs.KeptWordLaws.{KeptWordsSuffice};
ghost use Rattle.js_step.specs.ScriptCharacterLaws.{IsExactOnOneScriptText, ScriptTextsStayValid};
ghost use Rattle.js_step.specs.ScriptPaths.{ScriptPathsAreScanned};
ghost use Rattle.js_step.specs.ScriptScanLaws.{IsExactOnOneScript, ScriptsBeginAsOne};
ghost use Rattle.js_step.specs.ScriptSetLaws.{EmptyTextsKeepScripts, ScriptSensesShare};
ghost use Rattle.js_step.specs.ScriptSetLaws.{ScriptSensesUnite, ScriptTailsGrow};
ghost use Rattle.js_step.specs.ScriptValidity.{ScriptsStayValid};

/// Within a text, from the place of one path, what a byte of text, the end of a node and a hole make of it and what is refused is the
/// path's own. A theorem; the call does nothing at run time.
pub fn is_exact_on_one_script()
    ensures { IsExactOnOneScript }
{}

/// A text of no bytes keeps the place, and its end is not refused. A theorem; the call does nothing at run time.
pub fn empty_texts_keep_scripts()
    ensures { EmptyTextsKeepScripts }
{}

/// A place has at least one sense of a slash behind each byte, at the end of a node and behind a hole. A theorem; the call does nothing
/// at run time.
pub fn scripts_stay_valid()
    ensures { ScriptsStayValid }
{}

/// So it is at the first character of a text, where a node ended before it that leaves no bytes of HTML but `<`, `#` and `-`. A theorem;
/// the call does nothing at run time.
pub fn scripts_begin_as_one()
    ensures { ScriptsBeginAsOne }
{}

/// What a place accepts is accepted where paths have ended in less before the text, and so by each path there. A theorem; the call does
/// nothing at run time.
pub fn script_tails_grow()
    ensures { ScriptTailsGrow }
{}

/// Paths that differ in what a slash would be share their state in code and in comments but for that, behind each byte. A theorem; the
/// call does nothing at run time.
pub fn script_senses_share()
    ensures { ScriptSensesShare }
{}

/// In code and in comments, each path is refused what the place refuses, whatever a slash would be there, and what it would be behind a
/// byte is among the senses of the place behind it. A theorem; the call does nothing at run time.
pub fn script_senses_unite()
    ensures { ScriptSensesUnite }
{}

/// Where a path has a place in a script it has a scan state, which is stepped as the path, refuses what the path refuses and shows what the
/// path shows; and where the end of a node is not refused, the path has a place behind it, and so it has behind a hole. A theorem; the
/// call does nothing at run time.
pub fn script_paths_are_scanned()
    ensures { ScriptPathsAreScanned }
{}

/// No answer depends on more of a word than the code keeps of it: what is refused at a byte and at the ends, the places, and what is kept
/// behind a byte. A theorem; the call does nothing at run time.
pub fn kept_words_suffice()
    ensures { KeptWordsSuffice }
{}

/// From the place of one path, where a text begins as on the path, what characters come to is the path's own place, and so is what is
/// refused of them, where, and the place that is shown. A theorem; the call does nothing at run time.
pub fn is_exact_on_one_script_text()
    ensures { IsExactOnOneScriptText }
{}

/// The characters of a text bring a place with at least one sense of a slash to such places, and so is the place that is shown with a
/// refusal. A theorem; the call does nothing at run time.
pub fn script_texts_stay_valid()
    ensures { ScriptTextsStayValid }
{}
