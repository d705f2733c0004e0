ghost use Rattle.place_laws.specs.Exactness.{ChartedSetsAreNotRefused, ChartedSetsHaveNoError};
ghost use Rattle.place_laws.specs.Exactness.{ConflictFreeSetsHaveNoOtherError, EndsAreRefusedAlone, ErrorFreeLogsHaveNoConflict};

/// Where the least chart of a set is in conflict nowhere, no error but that of an end stands on any path of its roots, and on no two that
/// meet, wherever the roots end. A theorem; the call does nothing at run time.
pub fn conflict_free_sets_have_no_other_error()
    ensures { ConflictFreeSetsHaveNoOtherError }
{}

/// Where a set has a chart, no error stands on any path of its roots, and on no two that meet: no text, hole, call or escaper is
/// refused, no places in which paths meet fail to join, and each root ends in text. A theorem; the call does nothing at run time.
pub fn charted_sets_have_no_error()
    ensures { ChartedSetsHaveNoError }
{}

/// Where a set is refused with an error that is shown, that is the error of an end exactly where no other error stands on any path of the
/// roots. A theorem; the call does nothing at run time.
pub fn ends_are_refused_alone()
    ensures { EndsAreRefusedAlone }
{}

/// Where a set has a chart, inference refuses it for no cause but want of memory: its least chart is one, so it is in conflict nowhere, ends
/// no root elsewhere, and has no more pairs than it may. A theorem; the call does nothing at run time.
pub fn charted_sets_are_not_refused()
    ensures { ChartedSetsAreNotRefused }
{}

/// Where no error but that of an end stands on any path of the roots of a set, nothing that is derived from them is in conflict. A theorem;
/// the call does nothing at run time.
pub fn error_free_logs_have_no_conflict()
    ensures { ErrorFreeLogsHaveNoConflict }
{}
