ghost use Rattle.place_explain.specs.Laws.{AreCallsByName, HaveOneText};

/// A pair has one explanation, and in the chart of a set a pair calls what the nodes of its template name, in the places before them. A
/// theorem; the call does nothing at run time.
pub fn one_text()
    ensures text { HaveOneText }
    ensures calls { AreCallsByName }
{}
