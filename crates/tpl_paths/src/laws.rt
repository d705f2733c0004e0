ghost use Rattle.tpl_paths.specs.Laws.{ChoicesDetermine, EdgesHaveNodes, PrefixIsPath};

/// The beginning of a path is a path, and what follows is one from where it leads. A theorem; the call does nothing at run time.
pub fn prefix_is_path()
    ensures { PrefixIsPath }
{}

/// Of two paths from one point with the same choices, one is the beginning of the other. A theorem; the call does nothing at run time.
pub fn choices_determine()
    ensures { ChoicesDetermine }
{}

/// A text, a hole and a call at an edge are the nodes that the tree has by their numbers. A theorem; the call does nothing at run time.
pub fn edges_have_nodes()
    ensures { EdgesHaveNodes }
{}
