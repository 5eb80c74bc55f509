// Bytes in a room of their own. A name, a path or a small file in a String or Vec could fail for want of memory, a new way to end.
ghost use Rattle.std.specs.Prelude.{◌≤◌};

// At most N bytes, the first of a room.
#[derive(Drop)]
pub struct Bounded<const N: usize> {
    room: [u8; N],
    length: usize,
    ghost in_room: { length ≤ N },
}

impl<const N: usize> Bounded<N> {
    pub(crate) fn new() -> Self {
        Bounded {
            room: [0; N],
            length: 0,
        }
    }

    // The first bytes of a room, so many.
    pub(crate) fn first(room: [u8; N], length: usize) -> Self {
        Bounded {
            room,
            length: length.min(N),
        }
    }

    pub(crate) fn as_slice(&self) -> &[u8] {
        let all = &self.room[..];
        &all[..self.length]
    }

    // Puts a byte behind the others, where there is room for it.
    pub(crate) fn push(&mut self, byte: u8) {
        if self.length < N {
            self.room[self.length] = byte;
            self.length += 1;
        }
    }

    // Puts bytes behind the others, as many as there is room for.
    pub(crate) fn extend(&mut self, bytes: &[u8]) {
        for byte in bytes {
            self.push(*byte);
        }
    }
}
