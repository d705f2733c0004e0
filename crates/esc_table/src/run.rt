// The run of bytes at the beginning of a text that stands for itself, whatever a table has.
ghost use Rattle.std.specs.Prelude.{◌≡◌, ◌≤◌, false, true, length, replicate, set};
ghost use Rattle.std.specs.List.{list_all, prefix_len};
ghost use Rattle.esc_table.specs.Kept.{first_byte, is_kept_byte, kept_of};

/// The bytes with which none of some characters begins.
pub(crate) fn bytes_kept(characters: &[char]) -> [bool; 256]
    ensures { result ≡ kept_of (replicate 256 true) characters.now }
{
    let mut kept = [true; 256];
    for character in characters {
        clear(&mut kept, *character);
    }
    kept
}

// Takes out the byte with which a character begins.
fn clear(kept: &mut [bool; 256], character: char)
    ensures { kept.new ≡ set kept.old (first_byte character) false }
{
    kept[byte_of(character) as usize] = false;
}

// The byte with which a character begins. Where the characters are constants of ASCII, so is what the loop over them makes: it is
// small enough to be done when the program is built.
#[inline(always)]
fn byte_of(character: char) -> u8
    ensures { result ≡ first_byte character }
{
    if character.is_ascii() {
        return character as u8;
    }
    lead_byte(character)
}

// The byte with which any character begins.
#[inline(never)]
fn lead_byte(character: char) -> u8
    ensures { result ≡ first_byte character }
{
    let mut buffer = [0; 4];
    character.encode_utf8(&mut buffer).as_bytes()[0]
}

/// How many bytes at the beginning are kept, by a truth for each byte. They are looked at eight at a time. Does not allocate.
pub fn run_len(kept: &[bool; 256], bytes: &[u8]) -> usize
    ensures len { result ≡ prefix_len (is_kept_byte kept.now) bytes.now }
    ensures bound { result ≤ length bytes.now }
{
    let mut at = 0;
    let mut rest = bytes;
    while let Some((eight, behind)) = rest.split_first_chunk::<8>() {
        if !all_kept(kept, eight) {
            break;
        }
        at += 8;
        rest = behind;
    }
    at + run_by_one(kept, rest)
}

fn run_by_one(kept: &[bool; 256], bytes: &[u8]) -> usize
    ensures len { result ≡ prefix_len (is_kept_byte kept.now) bytes.now }
    ensures bound { result ≤ length bytes.now }
{
    bytes
        .iter()
        .take_while(|byte| kept[**byte as usize])
        .count()
}

fn all_kept(kept: &[bool; 256], bytes: &[u8; 8]) -> bool
    ensures { result ≡ list_all (is_kept_byte kept.now) bytes.now }
{
    let mut all = true;
    for byte in bytes {
        all &= kept[*byte as usize];
    }
    all
}
