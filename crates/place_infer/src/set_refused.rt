use page_io::Memory;
use place_show::Showing;

/// Why a set of templates has no chart.
#[derive(Debug, Drop)]
pub enum SetRefused {
    /// An error stands on a path of a root, or on two that meet.
    Shows(Showing),
    /// The chart would have more than 8,192 pairs of a template and a place in which it is entered.
    TooManyDerived,
    /// There is not enough memory.
    Memory,
}

impl From<Memory> for SetRefused {
    ghost use Rattle.std.specs.Prelude.{◌≡◌};
    ghost use Rattle.place_infer.specs.declared.set_refused.SetRefused.TheVariants as refused;

    ghost from_gives = { λ _ e. e ≡ refused.Memory };

    fn from(_error: Memory) -> SetRefused {
        SetRefused::Memory
    }
}
