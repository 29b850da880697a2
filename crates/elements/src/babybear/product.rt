// Products of elements: x^4 is 11.
ghost use Rattle.std.specs.Prelude.{◌≡◌, ◌+◌, ◌*◌, ◌≤◌};
ghost use Rattle.elements.specs.Bear.{of, times};

use crate::babybear::{BabyBear, BaseNumber};

// low + 11·high, where low is at most three products of base numbers. 11·2^32 is 939524073 modulo p: so what stands for the
// upper half of high fits beside the rest, and one reduction is enough.
fn wrapped(low: u64, high: u64) -> BaseNumber
    requires { low ≤ 3 * (2013265920 * 2013265920) }
    ensures { result ≡ of (low + 11 * high) }
{
    let upper = high / 4294967296;
    let lower = high % 4294967296;
    BaseNumber::reduced(low + upper * 939524073 + lower * 11)
}

// The coefficients of a product. Products are added before they are reduced: 64 bits hold four of them. They stay four functions: each has
// its own number of products before and after x^4 (the last has none after), and a loop over pairs would have to ask at each pair.
fn coefficient0(a: BabyBear, b: BabyBear) -> BaseNumber
    ensures { result ≡ (times a b).c0 }
{
    let high = a.c1.wide_product(b.c3) + a.c2.wide_product(b.c2) + a.c3.wide_product(b.c1);
    wrapped(a.c0.wide_product(b.c0), high)
}

fn coefficient1(a: BabyBear, b: BabyBear) -> BaseNumber
    ensures { result ≡ (times a b).c1 }
{
    let low = a.c0.wide_product(b.c1) + a.c1.wide_product(b.c0);
    let high = a.c2.wide_product(b.c3) + a.c3.wide_product(b.c2);
    wrapped(low, high)
}

fn coefficient2(a: BabyBear, b: BabyBear) -> BaseNumber
    ensures { result ≡ (times a b).c2 }
{
    let low = a.c0.wide_product(b.c2) + a.c1.wide_product(b.c1) + a.c2.wide_product(b.c0);
    wrapped(low, a.c3.wide_product(b.c3))
}

fn coefficient3(a: BabyBear, b: BabyBear) -> BaseNumber
    ensures { result ≡ (times a b).c3 }
{
    let low = a.c0.wide_product(b.c3) + a.c1.wide_product(b.c2) + a.c2.wide_product(b.c1);
    BaseNumber::reduced(low + a.c3.wide_product(b.c0))
}

pub(crate) fn product(a: BabyBear, b: BabyBear) -> BabyBear
    ensures { result ≡ times a b }
{
    BabyBear {
        c0: coefficient0(a, b),
        c1: coefficient1(a, b),
        c2: coefficient2(a, b),
        c3: coefficient3(a, b),
    }
}
