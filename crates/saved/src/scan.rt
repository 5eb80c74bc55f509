// A text read from left to right, up to its first bad line.
ghost use Rattle.std.specs.Prelude.{◌≡◌, List, [], ◌∷◌, ℕ, ◌+◌, ◌-◌, ◌<◌, ◌≤◌};
ghost use Rattle.saved.specs.Reading.{past_word, number_at, past_number, settled, mark_after};
ghost use Rattle.saved.specs.Place.{reading_at, reading_of, number_found, after_number};

use crate::{Bad, Place};
use text::{Kind, bytes, decimal};

// The most digits of a number.
const DIGIT_LIMIT: usize = 8;

// A number read, and the place after it.
#[derive(Clone, Copy)]
pub struct Found {
    pub value: u64,
    pub place: Place,
}

// Past a word.
pub fn past_word(text: &[u8], p: Place, word: &[u8]) -> Result<Place, Bad>
    ensures { reading_of text.now result ≡ past_word word.now (reading_at text.now p) }
{
    let n = bytes::agreement(word, bytes::rest(text, p.at));
    if n != word.len() {
        return Err(Bad { place: p });
    }
    Ok(Place { at: p.at + n, ..p })
}

// Past a byte.
pub fn past_byte(text: &[u8], p: Place, b: u8) -> Result<Place, Bad>
    ensures { reading_of text.now result ≡ past_word (b ∷ []) (reading_at text.now p) }
{
    let word = [b; 1];
    past_word(text, p, &word)
}

// A number, and past it.
pub fn number_at(text: &[u8], p: Place) -> Result<Found, Bad>
    ensures { (number_found result ≡ number_at (reading_at text.now p)) × (after_number text.now result ≡ past_number (reading_at text.now p)) }
{
    let tail = bytes::rest(text, p.at);
    let n = bytes::leading_of(Kind::Digit, tail);
    let digits = bytes::first(tail, n);
    let needless = decimal::needless_zero(digits);
    if (n == 0) | needless | (DIGIT_LIMIT < n) {
        return Err(Bad { place: p });
    }
    let value = decimal::value_of(digits);
    let place = Place { at: p.at + n, ..p };
    Ok(Found { value, place })
}

// The line read is good, or not.
pub fn settle(p: Place, good: bool) -> Result<Place, Bad>
    requires { p.lines < 1000 }
    ensures { (text : List ℕ) → reading_of text result ≡ settled good (reading_at text p) }
{
    if !good {
        return Err(Bad { place: p });
    }
    Ok(Place {
        lines: p.lines + 1,
        ..p
    })
}

// The byte after number j of so many: a comma, or the newline after the last.
pub fn mark_after(j: usize, width: usize) -> u8
    requires { j < width }
    ensures { result ≡ mark_after (width - (j + 1)) }
{
    if j + 1 < width {
        return b',';
    }
    b'\n'
}
