ghost use Rattle.page_set.specs.Laws.{ExecutionsAreOne};

/// What a root of files gives for a datum is one thing: bytes, steps and how it ends. A theorem; the call does nothing at run time.
pub fn executions_are_one()
    ensures { ExecutionsAreOne }
{}
