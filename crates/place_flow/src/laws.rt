ghost use Rattle.place_flow.specs.Laws.{EachStepCovers, StepKeepsOrder, StepKeepsValid};

/// From a place below another one an edge leads to one below, and it is refused only where it is refused from the other. A theorem; the call does nothing at run time.
pub fn step_keeps_order()
    ensures { StepKeepsOrder }
{}

/// From a valid place an edge leads to a valid one. A theorem; the call does nothing at run time.
pub fn step_keeps_valid()
    ensures { StepKeepsValid }
{}

/// Each member of the place to which an edge leads comes from one of the place before, on whatever path bears that one, and the place
/// stands for that path after the edge. A theorem; the call does nothing at run time.
pub fn step_covers()
    ensures { EachStepCovers }
{}
