// A lent memory: a page stored into it, and all of it erased.
ghost use Rattle.std.specs.Prelude.{◌≡◌, ◌+◌, ◌≤◌, length, replicate};
ghost use Rattle.base.specs.Words.{store_under};
ghost use Rattle.acts.specs.Page.{PageInside};
ghost use Rattle.record.specs.Stored.{eeprom_after, id_after};

use record::{Load, Target};

// For each offset in the set, the byte of the page becomes that of bytes.
fn store(page: &mut [u8], set: u8, bytes: [u8; 8])
    requires { 8 ≤ length page.old }
    ensures { page.new ≡ store_under page.old 0 set bytes 8 }
{
    for (k, b) in bytes.iter().enumerate() {
        if (set >> k) % 2 == 1 {
            page[k] = *b;
        }
    }
}

// What a write cycle's page changes under a mask, in the memory that it is for.
pub fn store_target(target: Target, load: Load, mask: u8, eeprom: &mut [u8], id: &mut [u8])
    requires { PageInside target eeprom.old id.old }
    ensures eeprom_after { eeprom.new ≡ eeprom_after load mask eeprom.old target }
    ensures id_after { id.new ≡ id_after load mask id.old target }
{
    let set = load.offsets & mask;
    match target {
        Target::Eeprom(a) => {
            let base = a.page();
            store(&mut eeprom[base..base + 8], set, load.bytes);
        }
        Target::Id(a) => {
            let base = a.page();
            store(&mut id[base..base + 8], set, load.bytes);
        }
        Target::Status(_) => {}
    }
}

// Every byte FFh.
pub fn erase(m: &mut [u8])
    ensures { m.new ≡ replicate (length m.old) 255 }
{
    m.fill(0xff);
}
