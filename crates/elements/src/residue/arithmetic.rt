// Sums and products modulo P. The casts to `u32` lose nothing, as the check proves; `try_from` would only add an `unwrap`.
ghost use Rattle.std.specs.Prelude.{◌≡◌, ◌-◌, ◌*◌, ◌%◌, ◌<◌, ◌≤◌};
ghost use Rattle.elements.specs.Modulo.{residues_of};

use crate::residue::Residue;

#[tactic(auto, unfolding(crate::specs::Modulo::residues))]
impl<const P: u32> Residue<P> {
    // A number read modulo P.
    pub(crate) fn reduced(number: u64) -> Residue<P>
        requires { 0 < P }
        ensures { result.value ≡ number % P }
    {
        Residue {
            value: (number % u64::from(P)) as u32,
        }
    }

    // A number that is below P already, and needs no remainder.
    pub(crate) fn below(number: u32) -> Residue<P>
        requires { number < P }
        ensures { result.value ≡ number }
    {
        Residue { value: number }
    }

    pub(crate) fn add(self, other: Residue<P>) -> Residue<P>
        ensures { result ≡ (residues_of self.entry).plus self.entry other.entry }
    {
        let sum = u64::from(self.value) + u64::from(other.value);
        if sum >= u64::from(P) {
            return Residue {
                value: (sum - u64::from(P)) as u32,
            };
        }
        Residue { value: sum as u32 }
    }

    pub(crate) fn sub(self, other: Residue<P>) -> Residue<P>
        ensures { result
            ≡ (residues_of self.entry).plus self.entry ((residues_of other.entry).minus other.entry) }
    {
        if self.value < other.value {
            return Residue {
                value: self.value + (P - other.value),
            };
        }
        Residue {
            value: self.value - other.value,
        }
    }

    pub(crate) fn neg(self) -> Residue<P>
        ensures { result ≡ (residues_of self.entry).minus self.entry }
    {
        if self.value == 0 {
            return self;
        }
        Residue {
            value: P - self.value,
        }
    }

    // The product, not reduced. Where P is below 2^31, four of them can be added in 64 bits.
    pub(crate) fn wide_product(self, other: Residue<P>) -> u64
        ensures value { result ≡ self.entry.value * other.entry.value }
        ensures most { result ≤ (P - 1) * (P - 1) }
    {
        u64::from(self.value) * u64::from(other.value)
    }

    pub(crate) fn mul(self, other: Residue<P>) -> Residue<P>
        ensures { result ≡ (residues_of self.entry).times self.entry other.entry }
    {
        Residue::reduced(self.wide_product(other))
    }
}
