ghost use Rattle.place_flow.specs.HtmlCovering.{HtmlChartCovers};

/// A closed chart covers every path of its root, at each of its points: the chart's place there, in the pair to which the calls of the path
/// lead, stands for the state to which its texts and holes lead. A theorem; the call does nothing at run time.
pub fn chart_covers()
    ensures { HtmlChartCovers }
{}
