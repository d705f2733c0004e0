ghost use Rattle.std.specs.Prelude.{◌≡◌, ◌<◌, length, IfSome};
ghost use Rattle.page_io.specs.Keys.{HaveAscendingKeys, key_number};

use crate::text::Text;

/// The number, from 0, of the entry with a key, among entries whose keys ascend, or none where no entry has it. It takes no
/// memory, and comparisons like the logarithm of the number of entries.
pub fn number_of_key<V>(entries: &[(Text, V)], key: &str) -> Option<usize>
    requires { HaveAscendingKeys entries.now }
    ensures number { result ≡ key_number key.now entries.now }
    ensures within { IfSome result (λ n. n < length entries.now) }
{
    match entries.binary_search_by(|entry| entry.0.as_str().cmp(key)) {
        Ok(at) => Some(at),
        Err(_) => None,
    }
}
