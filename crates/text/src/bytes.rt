// Parts of a slice, words, and leading bytes of a kind.
ghost use Rattle.std.specs.Prelude.{◌≡◌, take, drop};
ghost use Rattle.text.specs.Bytes.{agreed, is_word, leading, of_kind};

use crate::Kind;

// The part of s from at on; nothing where s ends before.
pub fn rest<T>(s: &[T], at: usize) -> &[T]
    ensures { result.now ≡ drop at s.now }
{
    &s[at.min(s.len())..]
}

// The first n elements of s; all of them where there are fewer.
pub fn first<T>(s: &[T], n: usize) -> &[T]
    ensures { result.now ≡ take n s.now }
{
    &s[..n.min(s.len())]
}

// How many of the first bytes of s are those of the word.
pub fn agreement(word: &[u8], s: &[u8]) -> usize
    ensures { result ≡ agreed word.now s.now }
{
    word.iter().zip(s).take_while(|(w, b)| w == b).count()
}

#[tactic(auto, using(crate::proofs::BytesLaws::same_word))]
pub fn is_word(word: &[u8], s: &[u8]) -> bool
    ensures { result ≡ is_word word.now s.now }
{
    word == s
}

fn is_of(kind: Kind, b: u8) -> bool
    ensures { result ≡ of_kind kind b }
{
    match kind {
        Kind::Letter => b.is_ascii_lowercase(),
        Kind::Digit => b.is_ascii_digit(),
        Kind::Plain => b != b'\n',
    }
}

// How many of the first bytes of s are of a kind.
pub fn leading_of(kind: Kind, s: &[u8]) -> usize
    ensures { result ≡ leading (of_kind kind) s.now }
{
    s.iter().take_while(|b| is_of(kind, **b)).count()
}
