ghost use Rattle.std.specs.Prelude.{◌≡◌, length};
ghost use Rattle.set_publisher.specs.Looks.{IsReaderBegun};

use crate::counted::Counted;
use logbook::Seen;

/// What is known of a list of sets: its first sets, up to some number, and which list it is. It may be kept, copied and sent; the list
/// goes on from there and never changes what is known.
#[derive(Drop)]
pub struct Known<V> {
    /// How many sets are known.
    pub number: u64,
    /// These sets, for contracts alone.
    pub seen: Seen<V, (), Counted>,
    ghost counted: { number ≡ length seen.log },
}

impl<V> Known<V> {
    /// A copy, which does not allocate.
    pub fn again(&self) -> Known<V>
        ensures { result ≡ self.now }
    {
        Known {
            number: self.number,
            seen: self.seen.again(),
        }
    }

    /// Whether as much is known here as there, both of one list. What is less begins what is more.
    pub fn is_begun_by(&self, other: &Known<V>) -> bool
        requires { other.now.seen.book ≡ self.now.seen.book }
        ensures { IsReaderBegun self.now.seen.log other.now.seen.log result }
    {
        let mut both = self.seen.again();
        both.learn(&other.seen);
        if other.number <= self.number {
            true
        } else {
            false
        }
    }
}
