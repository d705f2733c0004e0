ghost use Rattle.js_step.specs.ScriptOrigins.{ScriptsComeFrom};
ghost use Rattle.js_step.specs.ScriptScanOrder.{ScriptsGrow};

/// What a place accepts, each place below it accepts, and the places behind are one below the other: below in what a slash would be and in
/// what paths have ended in before the text. A theorem; the call does nothing at run time.
pub fn scripts_grow()
    ensures { ScriptsGrow }
{}

/// Each member behind a byte and at the end of a node comes from itself before, on whatever path bears it, or is there on each path. A
/// theorem; the call does nothing at run time.
pub fn scripts_come_from()
    ensures { ScriptsComeFrom }
{}
