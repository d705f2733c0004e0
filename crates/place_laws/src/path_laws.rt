ghost use Rattle.place_laws.specs.MeetingPoints.{EdgesMeetAtControls};
ghost use Rattle.place_laws.specs.Witness.{EveryMemberHasPath, EveryRootHasPath, EveryConflictHasError};

/// Where the roots are templates of the forest, each member of each place that a point of a pair was given comes along a path from a root,
/// on which no error stands before; all that was given to one pair comes from one root with the same calls open. A theorem; the call does nothing at run time.
pub fn every_member_has_a_path()
    ensures { EveryMemberHasPath }
{}

/// Where the roots are templates of the forest and something is in conflict, an error stands: on one path, or on two paths that meet before the
/// edge or after it. A theorem; the call does nothing at run time.
pub fn every_conflict_has_error()
    ensures { EveryConflictHasError }
{}

/// Where the roots are templates of the forest, what a point of a root was given, which is entered in text, comes along a path of that root
/// with no call open. A theorem; the call does nothing at run time.
pub fn every_root_has_a_path()
    ensures { EveryRootHasPath }
{}

/// Where each `break` and `continue` stands in a range, two edges of a template lead to one point only at a range, at its head and after the
/// parts of a control: only there can contexts of paths meet that came along different edges. A theorem; the call does nothing at run time.
pub fn edges_meet_at_controls()
    ensures { EdgesMeetAtControls }
{}
