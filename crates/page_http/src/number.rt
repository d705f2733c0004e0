ghost use Rattle.std.specs.Prelude.{◌≡◌};
ghost use Rattle.page_http.specs.Numbers.{number_said};

/// What a text says where a number is due.
#[derive(Clone, Copy)]
pub enum Number {
    /// The number that its digits write.
    Value(u64),
    /// It has digits alone, which write a greater number than is taken.
    TooGreat,
    /// It is empty, or has another byte than digits.
    NotDigits,
}

/// The number that a text writes in decimal digits, of which there may be any number, if it is at
/// most `most`.
pub fn read_number(text: &[u8], most: u64) -> Number
    ensures { result ≡ number_said most text.now }
{
    if text.is_empty() {
        return Number::NotDigits;
    }
    let most = u128::from(most);
    let mut value = 0u128;
    for byte in text {
        if !byte.is_ascii_digit() {
            return Number::NotDigits;
        }
        value = (value * 10 + u128::from(*byte - b'0')).min(most + 1);
    }
    if value <= most {
        Number::Value(value as u64)
    } else {
        Number::TooGreat
    }
}
