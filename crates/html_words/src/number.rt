// The characters of numbers (HTML Standard, section 13.2.5.80).
ghost use Rattle.std.specs.Prelude.{◌≡◌, ◌≤◌, length, map, min};
ghost use Rattle.place_core.specs.page.References.{numbers, reference_row};
ghost use Rattle.place_core.specs.page.References as spec;

/// U+FFFD, the character for what stands for none.
pub const REPLACEMENT: u32 = 0xFFFD;

// Past the last code point.
const PAST: u32 = 0x11_0000;

/// The character of the number that digits in a base write.
pub fn numbered_in(base: u32, digits: &[u8]) -> u32
    requires base { 1 ≤ base }
    requires most { base ≤ 16 }
    ensures { result ≡ spec.numbered_reference (spec.number_in_reference base 0 digits.now) }
{
    numbered(number_in(base, digits))
}

// The character of a number.
fn numbered(number: u32) -> u32
    ensures { result ≡ spec.numbered_reference number }
{
    if number == 0 || number >= PAST || (0xD800 <= number && number <= 0xDFFF) {
        return REPLACEMENT;
    }
    in_windows_1252(number)
}

// The number of digits in a base, or where that is past the last code point, the first number past it.
fn number_in(base: u32, digits: &[u8]) -> u32
    requires base { 1 ≤ base }
    requires most { base ≤ 16 }
    ensures { result ≡ min (spec.number_in_reference base 0 digits.now) 0x110000 }
{
    let mut number = 0;
    for digit in digits {
        number = (number * base + digit_of(*digit)).min(PAST);
    }
    number
}

fn digit_of(byte: u8) -> u32
    ensures value { result ≡ spec.digit_of byte }
    ensures bound { result ≤ 255 }
{
    if byte <= b'9' {
        return u32::from(byte.saturating_sub(b'0'));
    }
    if byte <= b'F' {
        return u32::from(byte) - 55;
    }
    u32::from(byte.saturating_sub(87))
}

// The numbers that stand for another character than their own: those of windows-1252.
fn in_windows_1252(number: u32) -> u32
    ensures { result ≡ spec.number_at numbers number }
{
    number_at(
        number,
        &[
            (128, 8364),
            (130, 8218),
            (131, 402),
            (132, 8222),
            (133, 8230),
            (134, 8224),
            (135, 8225),
            (136, 710),
            (137, 8240),
            (138, 352),
            (139, 8249),
            (140, 338),
            (142, 381),
            (145, 8216),
            (146, 8217),
            (147, 8220),
            (148, 8221),
            (149, 8226),
            (150, 8211),
            (151, 8212),
            (152, 732),
            (153, 8482),
            (154, 353),
            (155, 8250),
            (156, 339),
            (158, 382),
            (159, 376),
        ],
    )
}

fn number_at(number: u32, rows: &[(u32, u32)]) -> u32
    ensures { result ≡ spec.number_at (map (λ r. reference_row r.0 r.1) rows.now) number }
{
    for row in rows {
        if row.0 == number {
            return row.1;
        }
    }
    number
}
