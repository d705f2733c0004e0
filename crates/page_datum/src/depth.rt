ghost use Rattle.std.specs.Prelude.{◌≡◌, ◌<◌};
ghost use Rattle.page_datum.specs.Depth as spec;

/// The most brackets and braces that may be open at once in data.
pub const MAX_DEPTH: usize = 100;

/// Where a byte of a text stands.
#[derive(Clone, Copy, Debug, PartialEq, Eq, Drop)]
pub(crate) enum StringState {
    /// Outside of strings.
    Outside,
    /// In a string.
    Inside,
    /// In a string, after a backslash that takes it.
    Escaped,
}

// Whether more than `MAX_DEPTH` brackets and braces are open at once somewhere, outside of strings.
pub(crate) fn is_too_deep(bytes: &[u8]) -> bool
    ensures { result ≡ spec.is_too_deep bytes.now }
{
    let mut place = StringState::Outside;
    let mut opened = 0;
    for byte in bytes {
        opened = open_after(place, opened, *byte);
        if opened > MAX_DEPTH {
            return true;
        }
        place = state_after(place, *byte);
    }
    false
}

fn state_after(place: StringState, byte: u8) -> StringState
    ensures { result ≡ spec.state_after place byte }
{
    match place {
        StringState::Outside => if byte == b'"' {
            StringState::Inside
        } else {
            StringState::Outside
        },
        StringState::Inside => if byte == b'"' {
            StringState::Outside
        } else if byte == b'\\' {
            StringState::Escaped
        } else {
            StringState::Inside
        },
        StringState::Escaped => StringState::Inside,
    }
}

fn open_after(place: StringState, opened: usize, byte: u8) -> usize
    requires { opened < 101 }
    ensures { result ≡ spec.open_after place opened byte }
{
    match place {
        StringState::Outside => if opens(byte) {
            opened + 1
        } else if closes(byte) {
            opened.saturating_sub(1)
        } else {
            opened
        },
        StringState::Inside | StringState::Escaped => opened,
    }
}

fn opens(byte: u8) -> bool
    ensures { result ≡ spec.opens byte }
{
    byte == b'[' || byte == b'{'
}

fn closes(byte: u8) -> bool
    ensures { result ≡ spec.closes byte }
{
    byte == b']' || byte == b'}'
}
