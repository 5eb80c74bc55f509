// One BCD field of a byte: its limits, which of its values are valid, and its step. One rule serves every plain field.
ghost use Rattle.std.specs.Prelude.{◌≡◌, ◌<◌, ◌%◌};
ghost use Rattle.calendar.specs.Field.{valid_field, next_field, beside, beside_step};

use crate::Step;

// K8. A field's first and last value, in BCD, and how many values its bits have: they are the lowest of its byte, and above them stand control bits.
#[derive(Clone, Copy)]
pub struct Field {
    pub first: u8,
    pub last: u8,
    pub width: u16,
    ghost has_bits: { 0 < width },
    ghost fills_bits: { 256 % width ≡ 0 },
}

// K7, K8. The same for limits that anyone has, of a value that fills its byte: what asks nothing of its caller stays beside the type.
pub fn valid_field(first: u8, last: u8, x: u8) -> bool
    ensures { result ≡ valid_field first last x }
{
    let width = 256;
    Field { first, last, width }.is_valid(x)
}

pub fn next_field(first: u8, last: u8, x: u8) -> Step<u8>
    ensures { result ≡ next_field first last x }
{
    let width = 256;
    Field { first, last, width }.next(x)
}

impl Field {
    // K7. Whether a value is valid.
    #[tactic(auto, unfolding(crate::specs::Field::valid_field))]
    pub fn is_valid(self, x: u8) -> bool
        ensures { result ≡ valid_field self.first self.last x }
    {
        ((x / 16 <= 9) & (x % 16 <= 9)) & ((self.first <= x) & (x <= self.last))
    }

    // K8 (bench). A value's step.
    #[tactic(auto, using(crate::proofs::FieldLaws::valid_is), unfolding(crate::specs::Field::next_field))]
    pub fn next(self, x: u8) -> Step<u8>
        ensures { result ≡ next_field self.first self.last x }
    {
        if self.is_valid(x) & (x < self.last) {
            let v = x / 16 * 10 + x % 16 + 1;
            return Step {
                value: v / 10 * 16 + v % 10,
                carry: false,
            };
        }
        Step {
            value: self.first,
            carry: true,
        }
    }

    // The value in a byte.
    pub(crate) fn of(self, b: u8) -> u8
        ensures { result ≡ b % self.width }
    {
        (u16::from(b) % self.width) as u8
    }

    // K9. The byte with another value: the control bits stay.
    #[tactic(auto, using(crate::proofs::FieldLaws::beside_byte))]
    pub(crate) fn beside(self, b: u8, v: u8) -> u8
        ensures { result ≡ beside self.width b v }
    {
        b - self.of(b) + self.of(v)
    }

    // K7. Whether a byte's value is valid.
    pub fn holds_valid(self, b: u8) -> bool
        ensures { result ≡ valid_field self.first self.last (b % self.width) }
    {
        self.is_valid(self.of(b))
    }

    // K8, K9. The byte with the field's first value.
    pub fn first_beside(self, b: u8) -> u8
        ensures { result ≡ beside self.width b self.first }
    {
        self.beside(b, self.first)
    }

    // K8, K9. The byte after its value's step.
    pub fn next_beside(self, b: u8) -> Step<u8>
        ensures { result ≡ beside_step self.width b (next_field self.first self.last (b % self.width)) }
    {
        let s = self.next(self.of(b));
        Step {
            value: self.beside(b, s.value),
            carry: s.carry,
        }
    }
}
