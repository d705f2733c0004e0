ghost use Rattle.std.specs.Prelude.{◌≡◌, ◌∷◌, [], OnOk};
ghost use Rattle.place_derive.specs.Logs.{empty_log, log_with, kept_list};

use crate::derivation::Derivation;
use page_io::Memory;
use std::alloc::Global;
use std::marker::Model;

/// The derivations in order, if they are kept. Only an error that is shown needs them, and they take more memory than all else
/// that is derived. Contracts see them as `Some` of the list, or as `None`.
#[derive(Debug, Drop)]
pub struct Log {
    derivations: Option<Vec<Derivation>>,
}

impl Model for Log {
    ghost use Rattle.std.specs.Prelude.{List, Option, option_map};
    ghost use Rattle.place_derive.specs.declared.derivation.Derivation.{Derivation};

    ghost Value = { Option (List Derivation) };

    ghost view = { λ l. option_map (λ v. v.items) l.derivations };
}

impl Log {
    /// The log of no derivations, which keeps them or does not. Does not allocate.
    pub fn new(alloc: Global, keeps: bool) -> Log
        ensures { result ≡ empty_log keeps }
    {
        if keeps {
            return Log {
                derivations: Some(Vec::new(alloc)),
            };
        }
        Log { derivations: None }
    }

    /// Adds a derivation, if derivations are kept. Fails only if allocation fails.
    pub fn push(&mut self, derivation: Derivation) -> Result<(), Memory>
        ensures { OnOk result (self.new ≡ log_with self.old (derivation ∷ [])) }
    {
        if let Some(derivations) = &mut self.derivations {
            derivations.push(derivation)?;
        }
        Ok(())
    }

    /// The derivations in order; none where they are not kept.
    pub fn as_slice(&self) -> &[Derivation]
        ensures { result.now ≡ kept_list self.now }
    {
        match &self.derivations {
            Some(derivations) => derivations.as_slice(),
            None => &[],
        }
    }
}
