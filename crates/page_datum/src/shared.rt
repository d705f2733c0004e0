use crate::datum::Datum;
use crate::files::Files;

/// A type whose values threads share.
pub trait Shared: Send + Sync {}

impl Shared for Datum {}

impl Shared for Files {}
