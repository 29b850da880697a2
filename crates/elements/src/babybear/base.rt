// Inverses of base numbers of BabyBear.
ghost use Rattle.std.specs.Prelude.{◌≡◌};
ghost use Rattle.elements.specs.Bear.{of, base};
ghost use Rattle.elements.specs.Operations.{InverseIn};

use crate::babybear::{BaseNumber, P};

impl BaseNumber {
    // self - quotient·t
    fn minus_multiple(self, quotient: u64, t: BaseNumber) -> BaseNumber
        ensures { result ≡ base.plus self (base.minus (base.times (of quotient) t)) }
    {
        self.sub(BaseNumber::reduced(quotient).mul(t))
    }

    // By the extended Euclidean algorithm: absent where a number but 1 divides both self and p. No index is counted, and no iterator is plainer.
    pub(crate) fn try_inverse(self) -> Option<BaseNumber>
        ensures { InverseIn base self result }
    {
        // `as` makes a constant of it, where the proof would have to look through a call of `from`
        let mut a = P as u64;
        let mut b = u64::from(self.value);
        let mut s = BaseNumber::reduced(0);
        let mut t = BaseNumber::reduced(1);
        while b > 0 {
            let next = s.minus_multiple(a / b, t);
            let rest = a % b;
            a = b;
            b = rest;
            s = t;
            t = next;
        }
        if a != 1 {
            return None;
        }
        Some(s)
    }
}
