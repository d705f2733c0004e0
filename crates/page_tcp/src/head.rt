/// Whether these bytes hold the whole head of a request: an empty line behind one that is not empty.
pub fn holds_head(bytes: &[u8]) -> bool {
    if ends_in_head(bytes) {
        return true;
    }
    let mut is_begun = false;
    let mut is_empty = true;
    for byte in bytes {
        match *byte {
            b'\n' => {
                if is_begun && is_empty {
                    return true;
                }
                is_empty = true;
            }
            b'\r' => {}
            _ => {
                is_begun = true;
                is_empty = false;
            }
        }
    }
    false
}

// What most requests look like: no empty line comes first, and one comes last.
fn ends_in_head(bytes: &[u8]) -> bool {
    match bytes.first() {
        Some(b'\r') => false,
        Some(b'\n') => false,
        _ => bytes.ends_with(b"\r\n\r\n"),
    }
}
