ghost use Rattle.std.specs.Prelude.{◌≡◌, nat_lt};
ghost use Rattle.tpl_format.specs.Verbs as spec;

/// The flags and the width of a verb. A width of 0 stands for none.
#[derive(Clone, Copy, Debug, PartialEq, Eq)]
pub(crate) struct Verb {
    pub(crate) left: bool,
    pub(crate) zeros: bool,
    pub(crate) plus: bool,
    pub(crate) width: u16,
}

/// How a verb prints its operand, by its letter.
#[derive(Clone, Copy, Debug, PartialEq, Eq)]
pub(crate) enum Conversion {
    /// `d`
    Decimal,
    /// `x`
    Hex,
    /// `s`
    Itself,
    /// `t`
    Truth,
    /// `v`
    Any,
}

/// What a byte is to a verb that was read so far.
#[derive(Clone, Copy, Debug, PartialEq, Eq)]
pub(crate) enum VerbState {
    /// One more flag or digit.
    More(Verb),
    /// The second `%` of `%%`.
    Percent,
    /// The letter, which ends a verb that takes an operand.
    Takes(Conversion),
    /// No verb goes on so.
    Bad,
}

/// What stands after `%`: no flags and no width.
pub(crate) fn bare() -> Verb
    ensures { result ≡ spec.bare }
{
    Verb {
        left: false,
        zeros: false,
        plus: false,
        width: 0,
    }
}

/// Reads one more byte of a verb.
pub(crate) fn read(verb: Verb, byte: u8) -> VerbState
    ensures { result ≡ spec.read_flag verb byte }
{
    let has_width = verb.width > 0;
    if byte == b'-' {
        return with_flag(verb.left || has_width, Verb { left: true, ..verb });
    }
    if byte == b'+' {
        return with_flag(verb.plus || has_width, Verb { plus: true, ..verb });
    }
    if byte == b'0' && !has_width {
        return with_flag(
            verb.zeros,
            Verb {
                zeros: true,
                ..verb
            },
        );
    }
    if b'0' <= byte && byte <= b'9' {
        return with_digit(verb, byte - b'0');
    }
    if byte == b'%' {
        return if is_bare(verb) {
            VerbState::Percent
        } else {
            VerbState::Bad
        };
    }
    letter(byte)
}

// A verb with one more flag, unless none may stand here.
fn with_flag(refused: bool, verb: Verb) -> VerbState
    ensures { result ≡ spec.with_flag refused verb }
{
    if refused {
        return VerbState::Bad;
    }
    VerbState::More(verb)
}

// A verb with one more digit of its width.
fn with_digit(verb: Verb, digit: u8) -> VerbState
    ensures { result ≡ spec.with_digit verb digit }
{
    let width = u32::from(verb.width) * 10 + u32::from(digit);
    if width > 1000 {
        return VerbState::Bad;
    }
    VerbState::More(Verb {
        width: width as u16,
        ..verb
    })
}

// Whether a verb has no flags and no width.
fn is_bare(verb: Verb) -> bool
    ensures { result ≡ spec.is_bare verb }
{
    !verb.left && !verb.zeros && !verb.plus && verb.width == 0
}

fn letter(byte: u8) -> VerbState
    ensures { result ≡ spec.letter byte }
{
    if byte == b'd' {
        return VerbState::Takes(Conversion::Decimal);
    }
    if byte == b'x' {
        return VerbState::Takes(Conversion::Hex);
    }
    if byte == b's' {
        return VerbState::Takes(Conversion::Itself);
    }
    if byte == b't' {
        return VerbState::Takes(Conversion::Truth);
    }
    if byte == b'v' {
        return VerbState::Takes(Conversion::Any);
    }
    VerbState::Bad
}
