ghost use Rattle.std.specs.Prelude.{◌<◌, IfSome, length};
ghost use Rattle.tpl_format.specs.Making.{SplitsAtVerb, ReadsVerb};

use crate::verb::{Conversion, Verb, VerbState, bare, read};

/// A whole verb: `%%`, or one that takes an operand.
#[derive(Clone, Copy, Debug, PartialEq, Eq)]
pub(crate) enum Directive {
    Sign,
    Operand(Verb, Conversion),
}

/// The prefix of a format up to its first `%`, and what stands after that.
pub(crate) fn split_at_verb(format: &str) -> Option<(&str, &str)>
    ensures parts { SplitsAtVerb format.now result }
    ensures shorter { IfSome result (λ parts. length parts.1.now < length format.now) }
{
    format.split_once('%')
}

/// The verb after a `%`, and what stands after the verb.
pub(crate) fn read_verb(text: &str) -> Option<(Directive, &str)>
    ensures found { ReadsVerb text.now result }
    ensures shorter { IfSome result (λ found. length found.1.now < length text.now) }
{
    let bytes = text.as_bytes();
    let mut verb = bare();
    for at in 0..bytes.len() {
        match read(verb, bytes[at]) {
            VerbState::More(longer) => verb = longer,
            VerbState::Percent => {
                let (_, behind) = text.split_at(at + 1);
                return Some((Directive::Sign, behind));
            }
            VerbState::Takes(conversion) => {
                let (_, behind) = text.split_at(at + 1);
                return Some((Directive::Operand(verb, conversion), behind));
            }
            VerbState::Bad => return None,
        }
    }
    None
}
