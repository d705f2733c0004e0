ghost use Rattle.page_path.specs.Taken.{MeaningTakesPath};

/// The execution of a template with any datum takes a path of the forest: its events without their values and its choices are those of the
/// path, which ends where the template does, or anywhere where the execution meets a fault. A theorem; the call does nothing at run time.
pub fn meaning_takes_path()
    ensures { MeaningTakesPath }
{}
