// A theorem about the scan states.
ghost use Rattle.html_scan.specs.ScriptPlaces.{ScriptsReadOn};

/// What is kept of the bytes that a script is fed goes with the scan state, byte by byte: the places are those of the text from the byte
/// at which the value begins in it, and the reference is the one that is open there. A theorem; the call does nothing at run time.
pub fn scripts_read_on()
    ensures { ScriptsReadOn }
{}
