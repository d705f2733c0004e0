ghost use Rattle.std.specs.Prelude.{ℕ, List};
ghost use Rattle.tpl_token.specs.Answers.{AtMostOne, Exclude, HasTokenAnswer};
ghost use Rattle.tpl_token.specs.Grammar.{AreTokens};
ghost use Rattle.tpl_token.specs.Refusals.{IsTokenRefused};

/// A law, which takes no time: every text has exactly one answer. It has a list of tokens or a refusal, not both, and
/// no second one.
pub fn one_answer()
    ensures some { (text : List ℕ) → HasTokenAnswer text }
    ensures tokens { (text : List ℕ) → AtMostOne (AreTokens text) }
    ensures refusal { (text : List ℕ) → AtMostOne (IsTokenRefused text) }
    ensures not_both { (text : List ℕ) → Exclude (AreTokens text) (IsTokenRefused text) }
{}
