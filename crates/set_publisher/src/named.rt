use std::marker::Brand;

/// The name of a desk. It has no call: a type parameter with this bound says which desk's list is meant where the desk itself is not at
/// hand, as after a lock.
pub trait Named {
    ghost use Rattle.logbook.specs.Pages.{Book};

    ghost desk: { Book };
}

/// A name that is picked where a generic call begins, as that of the desk that is at hand there.
impl Named for Brand {
    ghost desk = { record { number = 0; log_name = 0; cells_name = 0 } };
}
