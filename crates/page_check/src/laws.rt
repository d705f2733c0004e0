ghost use Rattle.page_check.specs.WithoutErrors.{ErrorFreeFilesAreNotRefused};

/// Files that have templates, no more than there may be, and a root, on whose paths no error
/// stands, and whose least chart has no more pairs than it may, have no cause to be refused. A
/// theorem; the call does nothing at run time.
pub fn error_free_files_are_not_refused()
    ensures { ErrorFreeFilesAreNotRefused }
{}
