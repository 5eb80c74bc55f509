// Elements put into a lent buffer: bytes, or numbers. Each function answers the place after what it put. Buffer and place stay two parameters (D230).
ghost use Rattle.std.specs.Prelude.{◌≡◌, [], ◌∷◌, ◌+◌, ◌-◌, ◌≤◌, length};
ghost use Rattle.text.specs.Buffer.{buffer, append};

// The room in a buffer of n bytes from a place on.
pub fn room(n: usize, at: usize) -> usize
    ensures { result ≡ n - at }
{
    n.saturating_sub(at)
}

#[tactic(auto, unfolding(crate::specs::Buffer::append))]
pub fn put_one<T: Copy>(item: T, into: &mut [T], at: usize) -> usize
    requires { at + 1 ≤ length into.old }
    ensures { buffer into.new result ≡ append (buffer into.old at) (item ∷ []) }
{
    into[at] = item;
    at + 1
}

#[tactic(auto, using(crate::proofs::BufferLaws::put_between))]
pub fn put<T: Copy>(items: &[T], into: &mut [T], at: usize) -> usize
    requires { at + length items.now ≤ length into.old }
    ensures { buffer into.new result ≡ append (buffer into.old at) items.now }
{
    let end = at + items.len();
    into[at..end].copy_from_slice(items);
    end
}
