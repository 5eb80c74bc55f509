// How the lock moves at the end of a frame (bench).
ghost use Rattle.std.specs.Prelude.{◌≡◌};
ghost use Rattle.ends.specs.Lock.{second_step, unlock_byte, unlocked, lock_after};

use record::{Code, Lock, Pair, Stage};

fn second_step(lock: Lock) -> Lock
    ensures { result ≡ second_step lock }
{
    if lock == Lock::First {
        Lock::Open
    } else {
        Lock::Closed
    }
}

// The byte of an UNLOCK of exactly two.
fn unlock_byte(stage: Stage) -> Option<u8>
    ensures { result ≡ unlock_byte stage }
{
    match stage {
        Stage::Second(Pair::UnlockData(v)) => Some(v),
        _ => None,
    }
}

// UNLOCK of two bytes: 55h is the first step, AAh after it opens, anything else closes.
fn unlocked_by(k: u8, byte: Option<u8>, lock: Lock) -> Lock
    ensures { result ≡ unlocked k byte lock }
{
    match byte {
        Some(0x55) if k == 0 => Lock::First,
        Some(0xaa) if k == 0 => second_step(lock),
        _ => Lock::Closed,
    }
}

// How the lock moves.
pub fn lock_after(k: u8, lock: Lock, stage: Stage) -> Lock
    ensures { result ≡ lock_after k lock stage }
{
    if !stage.is_heard() {
        return lock;
    }
    match stage.code() {
        Code::Unlock => unlocked_by(k, unlock_byte(stage), lock),
        Code::Eewren | Code::Srread => lock,
        _ => Lock::Closed,
    }
}
