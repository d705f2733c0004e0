ghost use Rattle.std.specs.Prelude.{◌≡◌, ◌++◌, ◌∷◌, []};
ghost use Rattle.js_lexer.specs.Words as words;
ghost use Rattle.js_step.specs.KeptWords.{kept_word};
ghost use Rattle.js_step.specs.ScriptScanViews.{script_word_at};

use crate::scan::ScriptWord;
use js_lexer::{Sense, sense_after};

// A word with its first byte.
pub fn begun(byte: u8) -> ScriptWord
    ensures { script_word_at result ≡ byte ∷ [] }
{
    ScriptWord {
        bytes: [byte, 0, 0, 0, 0, 0, 0, 0, 0, 0, 0],
        count: 1,
    }
}

// A byte more.
pub fn grown(word: ScriptWord, byte: u8) -> ScriptWord
    ensures { script_word_at result ≡ kept_word (script_word_at word ++ byte ∷ []) }
{
    if word.count >= 11 {
        return word;
    }
    let mut bytes = word.bytes;
    bytes[word.count] = byte;
    ScriptWord {
        bytes,
        count: word.count + 1,
    }
}

// What a slash would be after a word.
pub fn sense_behind(word: ScriptWord) -> Sense
    ensures { result ≡ words.sense_after (script_word_at word) }
{
    if word.count >= 11 {
        return sense_after(&word.bytes);
    }
    sense_after(&word.bytes[..word.count])
}
