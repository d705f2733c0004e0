ghost use Rattle.place_show.specs.NoErrors.{OnlyEndsAreShown, ShownErrorsStand};

/// An error that is shown stands on a path of its root, or on two that meet or met apart: of a root on whose paths no error stands, none is
/// shown. A theorem; the call does nothing at run time.
pub fn shown_errors_stand()
    ensures { ShownErrorsStand }
{}

/// What is shown of a root on whose paths no error but that of an end stands is `EndContext`. A theorem; the call does nothing at run time.
pub fn only_ends_are_shown()
    ensures { OnlyEndsAreShown }
{}
