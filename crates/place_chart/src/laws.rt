ghost use Rattle.place_chart.specs.Exact.{ConflictEverywhere, ConflictFreeCloses};
ghost use Rattle.place_chart.specs.Roots.{RootIsChart};
ghost use Rattle.place_chart.specs.Unique.{OneChart, OneCount};

/// Two least charts of the same roots have the same pairs, and the same at each point of them. A theorem; the call does nothing at run time.
pub fn one_chart()
    ensures { OneChart }
{}

/// Two least charts of the same roots have as many pairs. A theorem; the call does nothing at run time.
pub fn one_count()
    ensures { OneCount }
{}

/// Where the least chart is in conflict, each closed chart that enters the roots is in conflict: so there is no chart of places. A theorem; the call does nothing at run time.
pub fn conflict_everywhere()
    ensures { ConflictEverywhere }
{}

/// Closed summaries that are nowhere in conflict are a closed chart of places. A theorem; the call does nothing at run time.
pub fn conflict_free_closes()
    ensures { ConflictFreeCloses }
{}

/// Closed summaries that are nowhere in conflict and enter a template in a place are a chart of places of that template: so it covers the paths of the
/// template. A theorem; the call does nothing at run time.
pub fn root_is_chart()
    ensures { RootIsChart }
{}
