ghost use Rattle.set_publisher.specs.Calls.{CallsAreActs};

/// A publish, a new place, a look and what is learnt are acts on the one list, as `set_core` has them, with the sets themselves as keys. A theorem; the call does nothing at run time.
pub fn calls_are_acts<V>()
    ensures { CallsAreActs V }
{}
