ghost use Rattle.set_core.specs.Laws.{ActsKeep, KeyStays, LastMayEnter, LearntIsLeast, NumbersNeverFall};

/// Whatever acts come one after another, the keys so far stay the first ones, and no viewer has then seen less than before. A theorem; the call does nothing at run time.
pub fn acts_keep<K>()
    ensures { ActsKeep K }
{}

/// A viewer that has entered at a number enters at none below it, whatever acts come between. A theorem; the call does nothing at run time.
pub fn numbers_never_fall<K>()
    ensures { NumbersNeverFall K }
{}

/// A viewer that has learnt a number enters at none below it, whatever acts come between. A theorem; the call does nothing at run time.
pub fn learnt_is_least<K>()
    ensures { LearntIsLeast K }
{}

/// The number at which a viewer enters has a key, and has that key after whatever acts. A theorem; the call does nothing at run time.
pub fn key_stays<K>()
    ensures { KeyStays K }
{}

/// Each viewer may enter at the last number, and at the one that it has seen. A theorem; the call does nothing at run time.
pub fn last_may_enter<K>()
    ensures { LastMayEnter K }
{}
