ghost use Rattle.html_words.specs.Laws.{CutIsOneByOne, UndoneIsOneByOne};

/// The machine of the standard, which undoes references byte by byte, and the calls of `next_char` one after another give the same
/// characters, in text and in the values of attributes. (HTML Standard, sections 13.2.5.72 to 13.2.5.80; Encoding Standard, section
/// 8.1.1.) A theorem; the call does nothing at run time.
pub fn undone_is_one_by_one()
    ensures { UndoneIsOneByOne }
{}

/// The same where a text or a value is cut at its end: a reference that is open there is read as it stands, and `RefChars` gives
/// the same characters. A theorem; the call does nothing at run time.
pub fn cut_is_one_by_one()
    ensures { CutIsOneByOne }
{}
