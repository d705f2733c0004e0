ghost use Rattle.std.specs.Prelude.{◌≡◌, ◌≤◌, []};
ghost use Rattle.page_tool.specs.Words.{texts, command_alone, command_at, command_by, command_of, is_command, number_up_to, sections_in, takes_digit};
ghost use Rattle.page_tool.specs.Words as spec;

/// The most sections that are made.
const MAX_SECTIONS: u32 = 10_000;

/// Whether words are a command: its name, and no words, its directory, a root of one or a number of
/// sections, none of which begins with `-`.
pub fn are_command(words: &[String]) -> bool
    ensures { result ≡ is_command (command_of (texts words.now)) }
{
    match words {
        [name] => is_alone(name.as_str()),
        [name, word] => !is_option(word.as_str()) && takes_word(name.as_str(), word.as_str()),
        [name, dir, root] => {
            !is_option(dir.as_str()) && !is_option(root.as_str()) && takes_root(name.as_str())
        }
        _ => false,
    }
}

fn is_alone(name: &str) -> bool
    ensures { result ≡ is_command (command_alone name.now) }
{
    name == "tokens"
}

fn takes_word(name: &str, word: &str) -> bool
    ensures { result ≡ is_command (command_by name.now word.now) }
{
    name == "check" || (name == "make" && sections_in(word).is_some())
}

fn takes_root(name: &str) -> bool
    ensures { result ≡ is_command (command_at name.now [] []) }
{
    name == "render" || name == "explain"
}

/// Whether a word begins with `-`.
pub fn is_option(word: &str) -> bool
    ensures { result ≡ spec.is_option word.now }
{
    match word.as_bytes().first() {
        Some(byte) => *byte == b'-',
        None => false,
    }
}

/// The number of sections that a word is: from 1 to the most, in decimal digits alone.
pub fn sections_in(word: &str) -> Option<u32>
    ensures { result ≡ sections_in word.now }
{
    number_in(MAX_SECTIONS, word.as_bytes())
}

/// The number that bytes are: from 1 up to `most`, in decimal digits alone.
pub fn number_in(most: u32, bytes: &[u8]) -> Option<u32>
    requires { most ≤ 1000000 }
    ensures { result ≡ number_up_to most bytes.now }
{
    let mut number = 0;
    for byte in bytes {
        if !takes_digit(most, number, *byte) {
            return None;
        }
        number = number * 10 + (*byte - b'0') as u32;
    }
    if 0 < number { Some(number) } else { None }
}

// Whether a byte is a digit, with which the number is no greater than `most`.
fn takes_digit(most: u32, number: u32, byte: u8) -> bool
    requires { number ≤ 1000000 }
    ensures { result ≡ takes_digit most number byte }
{
    b'0' <= byte && byte <= b'9' && number * 10 + (byte - b'0') as u32 <= most
}
