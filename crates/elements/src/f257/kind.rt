// The kind F257, modulo 257.
ghost use Rattle.std.specs.Prelude.{◌≡◌};
ghost use Rattle.elements.specs.Mod257.{f257};
ghost use Rattle.elements.specs.Laws257.{f257_laws};

use crate::f257::F257;
use crate::field::Field;
use crate::residue::Residue;

// The inverse of each number. The 0 at 0 is never read; it keeps each inverse at its number's own place, which is plainer than a shift.
const INVERSES: [u16; 257] = [
    0, 1, 129, 86, 193, 103, 43, 147, 225, 200, 180, 187, 150, 178, 202, 120, 241, 121, 100, 230,
    90, 49, 222, 190, 75, 72, 89, 238, 101, 195, 60, 199, 249, 148, 189, 235, 50, 132, 115, 145,
    45, 163, 153, 6, 111, 40, 95, 175, 166, 21, 36, 126, 173, 97, 119, 243, 179, 248, 226, 61, 30,
    59, 228, 102, 253, 87, 74, 234, 223, 149, 246, 181, 25, 169, 66, 24, 186, 247, 201, 244, 151,
    165, 210, 96, 205, 127, 3, 65, 184, 26, 20, 209, 176, 152, 216, 46, 83, 53, 139, 135, 18, 28,
    63, 5, 215, 164, 177, 245, 188, 224, 250, 44, 218, 116, 124, 38, 113, 134, 159, 54, 15, 17,
    158, 140, 114, 220, 51, 85, 255, 2, 172, 206, 37, 143, 117, 99, 240, 242, 203, 98, 123, 144,
    219, 133, 141, 39, 213, 7, 33, 69, 12, 80, 93, 42, 252, 194, 229, 239, 122, 118, 204, 174, 211,
    41, 105, 81, 48, 237, 231, 73, 192, 254, 130, 52, 161, 47, 92, 106, 13, 56, 10, 71, 233, 191,
    88, 232, 76, 11, 108, 34, 23, 183, 170, 4, 155, 29, 198, 227, 196, 31, 9, 78, 14, 138, 160, 84,
    131, 221, 236, 91, 82, 162, 217, 146, 251, 104, 94, 212, 112, 142, 125, 207, 22, 68, 109, 8,
    58, 197, 62, 156, 19, 168, 185, 182, 67, 35, 208, 167, 27, 157, 136, 16, 137, 55, 79, 107, 70,
    77, 57, 32, 110, 214, 154, 64, 171, 128, 256,
];

// w(7) is 9, and each before it the square of the next.
const ROOTS: [u16; 8] = [1, 256, 241, 64, 249, 136, 81, 9];

impl Field for F257 {
    ghost kind = { f257 };

    type Coefficients = [u32; 1];

    ghost lawful = { f257_laws };

    fn modulus() -> u32 {
        257
    }

    fn dimension() -> usize {
        1
    }

    fn two_adicity() -> usize {
        7
    }

    fn zero() -> F257 {
        F257::reduced(0)
    }

    fn one() -> F257 {
        F257::reduced(1)
    }

    fn add(self, other: F257) -> F257 {
        Residue::add(self, other)
    }

    fn sub(self, other: F257) -> F257 {
        Residue::sub(self, other)
    }

    fn mul(self, other: F257) -> F257 {
        Residue::mul(self, other)
    }

    fn neg(self) -> F257 {
        Residue::neg(self)
    }

    // One look into the table, where Euclid's algorithm, which BabyBear needs, takes some ten turns.
    fn try_inverse(self) -> Option<F257> {
        if self.value == 0 {
            return None;
        }
        // `as`, since an index is a `usize`, which no `u32` leaves
        let inverse = INVERSES[self.value as usize];
        Some(F257::below(u32::from(inverse)))
    }

    fn from_u32(number: u32) -> F257 {
        F257::reduced(u64::from(number))
    }

    fn basis() -> F257 {
        F257::reduced(1)
    }

    fn generator() -> F257 {
        F257::reduced(3)
    }

    fn two_adic_generator(bits: usize) -> Option<F257> {
        let root = ROOTS.get(bits)?;
        Some(F257::reduced(u64::from(*root)))
    }

    fn coefficients(self) -> [u32; 1] {
        [self.value]
    }

    fn from_coefficients(offered: &[u64]) -> Option<F257> {
        match offered {
            [number] if *number < 257 => Some(F257::reduced(*number)),
            _ => None,
        }
    }
}

// w(2) is 241.
pub fn second_root() -> u16
    ensures value { result ≡ f257.root 2 }
    ensures number { result ≡ 241 }
{
    ROOTS[2]
}
