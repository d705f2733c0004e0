use logbook::{Gain, Plain, Play, Rule};
use std::sync::Arc;

/// The rule of the list's book: its word is the length of the list.
pub struct Counted;

impl<V> Rule<V, ()> for Counted {
    ghost use Rattle.std.specs.Prelude.{[]};
    ghost use base.Fml.{ftrue};
    ghost use Rattle.set_publisher.specs.Histories.{IsCounted};

    ghost holds = { λ cells log. IsCounted cells log };

    ghost first = { [] };

    ghost hinted = { λ n log. Unit {0} };

    ghost shows = { λ log. [] };

    ghost keeps = { λ names log. ftrue };

    ghost moves = { λ ask before after answer. Unit {0} };
}

/// Callers trade nothing.
pub struct Nothing;

impl<V> Gain<V, ()> for Nothing {
    ghost use base.Fml.{ftrue};

    ghost after = { λ names about answer. ftrue };
}

/// The step that appends a set.
pub struct Append;

impl<V> Play<V, ()> for Append {
    ghost use Rattle.set_publisher.specs.Histories.{Appends};

    ghost then = { Appends };
}

/// What the step asks for: the set.
impl<V> Plain<Arc<V>, V, ()> for Append {
    ghost use Rattle.std.specs.Prelude.{None};
    ghost use Rattle.std.specs.Arc.{arc_value};

    ghost ask = { λ set. arc_value set };

    ghost state = { λ _. None };
}
