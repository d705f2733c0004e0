ghost use Rattle.tpl_format.specs.Laws.{FormatsArePieces};

/// A law, which takes no time: the text that a format makes of operands, computed byte by byte, is the one that its pieces make,
/// which the grammar of formats gives. So pieces that a format is in two ways make the same text.
pub fn formats_are_pieces()
    ensures { FormatsArePieces }
{}
