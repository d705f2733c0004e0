ghost use Rattle.std.specs.Prelude.{◌≡◌, refl};
ghost use Rattle.std.specs.Arc.{arc_value};
ghost use Rattle.set_publisher.specs.declared.known.Known.{Known};

use crate::known::Known;
use crate::told::Told;
use left_right::Absorb;
use page_io::Memory;
use std::alloc::AllocError;

/// What a desk shows, in two copies: it has a `Told`, and the next one replaces it. `Told` is the one type that is a notice; a type
/// parameter stands for it because a struct that is generic in `V` alone cannot hold the two copies.
pub trait Notice<V: Drop>: Absorb<Self, State = (Known<V>, V)> + Drop + Sized {
    ghost known_of: { Self → Known V };

    ghost set_of: { Self → V };

    /// The notice that has this.
    fn make(told: Told<V>) -> Self
        ensures known { known_of result ≡ told.known }
        ensures set { set_of result ≡ arc_value told.set };

    /// What it has.
    fn told(&self) -> &Told<V>
        ensures known { result.now.known ≡ known_of self.now }
        ensures set { arc_value result.now.set ≡ set_of self.now };

    ghost state_is: { (x : Self) → Self.state x ≡ (known_of x, set_of x) };

    ghost applied_is: { (s : Known V × V) (x : Self) → Self.applied s x ≡ (known_of x, set_of x) };
}

impl<V: Drop> Absorb<Told<V>> for Told<V> {
    type State = (Known<V>, V);

    ghost state = { λ x. (x.known, arc_value x.set) };

    ghost applied = { λ _ o. (o.known, arc_value o.set) };

    fn absorb_first(&mut self, operation: &Told<V>, _other: &Told<V>) -> Result<(), AllocError> {
        match operation.again() {
            Ok(told) => {
                *self = told;
                Ok(())
            }
            Err(Memory) => Err(AllocError),
        }
    }

    fn absorb_second(&mut self, operation: Told<V>, _other: &Told<V>) -> Result<(), Told<V>> {
        *self = operation;
        Ok(())
    }
}

impl<V: Drop> Notice<V> for Told<V> {
    ghost known_of = { λ x. x.known };

    ghost set_of = { λ x. arc_value x.set };

    ghost state_is = { λ _. refl };

    ghost applied_is = { λ _ _. refl };

    fn make(told: Told<V>) -> Told<V>
        ensures known { result.known ≡ told.known }
        ensures set { arc_value result.set ≡ arc_value told.set }
    {
        told
    }

    fn told(&self) -> &Told<V> {
        self
    }
}
