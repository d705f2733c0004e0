ghost use Rattle.std.specs.Prelude.{ℕ, List};
ghost use Rattle.tpl_parse.specs.Laws.{ActionsEnd, ArePrefixes, HasParseAnswer, HaveNotBoth};
ghost use Rattle.tpl_parse.specs.Laws.{HaveOneList, HaveOneRefusal, HaveOneTree, NoneGoesOn};
ghost use Rattle.tpl_parse.specs.Laws.{RefusedHasItsLine, RefusedIsFirst, UnclosedAreOpen};

/// A law, which takes no time: every file has exactly one answer, its definitions or a refusal; its symbols have at most one
/// tree; the symbol that is refused is the first with which no body goes on, definitions of one name left aside; and a file
/// ends outside actions, so that where it is refused for its end a block is open.
pub fn one_file()
    ensures some { (name text : List ℕ) → HasParseAnswer name text }
    ensures file { HaveOneList }
    ensures refusal { HaveOneRefusal }
    ensures not_both { HaveNotBoth }
    ensures tree { HaveOneTree }
    ensures none { NoneGoesOn }
    ensures prefixes { ArePrefixes }
    ensures first { RefusedIsFirst }
    ensures lines { RefusedHasItsLine }
    ensures ends { ActionsEnd }
    ensures unclosed { UnclosedAreOpen }
{}
