use crate::known::Known;
use crate::notice::Notice;
use atomic_table::{Join, Split};
use crossbeam_utils::rule::{Outcome, Protocol};

/// The rule over the two copies: what is shown begins with what each seat has seen, and is of the same list.
pub struct Continues;

impl<V: Drop, S: Notice<V>> Protocol<S, Option<Known<V>>> for Continues {
    ghost use Rattle.std.specs.Prelude.{None};
    ghost use Rattle.set_publisher.specs.Showing.{Keeps};

    ghost holds = { Keeps S.known_of };

    ghost first = { None };
}

/// A reader enters, or the writer publishes: what is then shown was seen.
pub struct Sees;

impl<V: Drop, S: Notice<V>> Outcome<S, Option<Known<V>>> for Sees {
    ghost use Rattle.set_publisher.specs.Showing.{Enters};

    ghost then = { Enters S.known_of };
}

/// The writer tells a new reader which list it is.
pub struct Tells;

impl<V> Split<Option<Known<V>>> for Tells {
    ghost left = { λ v. v };

    ghost right = { λ v. v };
}

impl<V> Join<Option<Known<V>>> for Tells {
    ghost use Rattle.std.specs.Prelude.{None};

    ghost both = { λ _ w. w };

    ghost spent = { None };
}
