use crate::case_stop::CaseStop;
use page_datum::{Datum, read_datum};
use page_io::{Bytes, List, Text};
use std::alloc::Global;

/// What a row gives to a call, with its forms made out.
#[derive(Drop)]
pub struct CaseRow {
    parts: Vec<Datum>,
}

impl CaseRow {
    /// A row of these parts.
    pub fn new(parts: Vec<Datum>) -> CaseRow {
        CaseRow { parts }
    }

    /// All parts.
    pub fn as_slice(&self) -> &[Datum] {
        self.parts.as_slice()
    }

    /// The part with a number, from 0.
    pub fn part(&self, number: usize) -> Result<&Datum, CaseStop> {
        match self.parts.as_slice().get(number) {
            Some(part) => Ok(part),
            None => Err(CaseStop::Form),
        }
    }

    /// A part that is a text.
    pub fn text(&self, number: usize) -> Result<&str, CaseStop> {
        text_of(self.part(number)?)
    }

    /// A part that is one of two words: whether it is the second.
    pub fn word(&self, number: usize, no: &str, yes: &str) -> Result<bool, CaseStop> {
        word_of(self.part(number)?, no, yes)
    }

    /// A part that is a number.
    pub fn number(&self, number: usize) -> Result<i64, CaseStop> {
        match self.part(number)? {
            Datum::Int(number) => Ok(*number),
            _ => Err(CaseStop::Form),
        }
    }

    /// A part that is a number of at least 0.
    pub fn count(&self, number: usize) -> Result<u64, CaseStop> {
        count_of(self.part(number)?)
    }

    /// A part that is a number from 0 to 2^32 - 1.
    pub fn place(&self, number: usize) -> Result<u32, CaseStop> {
        match u32::try_from(self.number(number)?) {
            Ok(place) => Ok(place),
            Err(_) => Err(CaseStop::Form),
        }
    }

    /// A part that is a list.
    pub fn list(&self, number: usize) -> Result<&[Datum], CaseStop> {
        list_of(self.part(number)?)
    }

    /// A part that is bytes: those of a text, or `{"hex": ..}`.
    pub fn bytes(&self, alloc: Global, number: usize) -> Result<Bytes, CaseStop> {
        bytes_of(alloc, self.part(number)?)
    }

    /// The datum that a part which is a text of JSON stands for.
    pub fn datum(&self, alloc: Global, number: usize) -> Result<Datum, CaseStop> {
        datum_of(alloc, self.part(number)?)
    }
}

/// A text.
pub fn text_of(part: &Datum) -> Result<&str, CaseStop> {
    match part {
        Datum::Text(text) => Ok(text.as_str()),
        _ => Err(CaseStop::Form),
    }
}

/// One of two words: whether it is the second.
pub fn word_of(part: &Datum, no: &str, yes: &str) -> Result<bool, CaseStop> {
    let word = text_of(part)?;
    if word == yes {
        return Ok(true);
    }
    if word == no {
        Ok(false)
    } else {
        Err(CaseStop::Form)
    }
}

/// A number of at least 0.
pub fn count_of(part: &Datum) -> Result<u64, CaseStop> {
    match part {
        Datum::Int(number) if *number >= 0 => Ok(*number as u64),
        _ => Err(CaseStop::Form),
    }
}

/// Numbers of at least 0.
pub fn counts_of(alloc: Global, parts: &[Datum]) -> Result<List<u64>, CaseStop> {
    let mut all = List::new(alloc);
    for part in parts {
        all.push(count_of(part)?)?;
    }
    Ok(all)
}

/// A list.
pub fn list_of(part: &Datum) -> Result<&[Datum], CaseStop> {
    match part {
        Datum::List(items) => Ok(items.as_slice()),
        _ => Err(CaseStop::Form),
    }
}

/// A list of two.
pub fn pair_of(part: &Datum) -> Result<(&Datum, &Datum), CaseStop> {
    match list_of(part)? {
        [first, second] => Ok((first, second)),
        _ => Err(CaseStop::Form),
    }
}

/// The datum that a text of JSON stands for.
pub fn datum_of(alloc: Global, part: &Datum) -> Result<Datum, CaseStop> {
    match read_datum(alloc, text_of(part)?.as_bytes()) {
        Ok(datum) => Ok(datum),
        Err(_) => Err(CaseStop::Form),
    }
}

/// Bytes: those of a text, or the pairs of digits of `{"hex": "C2 80"}`.
pub fn bytes_of(alloc: Global, part: &Datum) -> Result<Bytes, CaseStop> {
    match part {
        Datum::Dict(form) => match form.get("hex") {
            Some(digits) => bytes_of_hex(alloc, text_of(digits)?),
            None => Err(CaseStop::Form),
        },
        part => Ok(Bytes::copy_of(alloc, text_of(part)?.as_bytes())?),
    }
}

fn bytes_of_hex(alloc: Global, digits: &str) -> Result<Bytes, CaseStop> {
    let mut bytes = Bytes::new(alloc);
    for pair in digits.split_whitespace() {
        match u8::from_str_radix(pair, 16) {
            Ok(byte) => bytes.push_slice(&[byte])?,
            Err(_) => return Err(CaseStop::Form),
        }
    }
    Ok(bytes)
}
