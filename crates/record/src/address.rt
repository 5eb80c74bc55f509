// The three kinds of address: how each is taken from a byte, rolls over, and lies in a page.
ghost use Rattle.std.specs.Prelude.{◌≡◌, ◌+◌, ltb};
ghost use Rattle.base.specs.Words.{pick};
ghost use Rattle.record.specs.Address.{roll_eeprom, taken_eeprom, roll_id, taken_id, roll_clock, page_of};

use crate::part::{ID_LAST, ID_SIZE};
use crate::{ClockAddress, EepromAddress, IdAddress};

// The address after one, from the last back to 0.
fn rolled(address: u8, last: u8) -> u8
    ensures { result ≡ pick (ltb address last) (address + 1) 0 }
{
    if address < last { address + 1 } else { 0 }
}

// Where the page of an address begins. Two methods over it, of a line each: a trait would want two impls and a bound.
fn page_of(address: u8) -> usize
    ensures { result ≡ page_of address }
{
    usize::from(address / 8 * 8)
}

impl EepromAddress {
    // The address byte as a part with this top address takes it: 1 Kbit drops bit 7.
    pub fn taken(v: u8, top: EepromAddress) -> EepromAddress
        ensures { result ≡ taken_eeprom top.0 v }
    {
        EepromAddress(v & top.0)
    }

    // From the top address the pointer rolls to 00h.
    pub fn next(self, top: EepromAddress) -> EepromAddress
        ensures { result ≡ roll_eeprom top.0 self }
    {
        EepromAddress(rolled(self.0, top.0))
    }

    // Where its page begins in the memory.
    pub fn page(self) -> usize
        ensures { result ≡ page_of self.0 }
    {
        page_of(self.0)
    }
}

impl IdAddress {
    // The address byte, modulo 16.
    pub fn taken(v: u8) -> IdAddress
        ensures { result ≡ taken_id v }
    {
        IdAddress(v % ID_SIZE)
    }

    // From 0Fh the pointer rolls to 00h.
    pub fn next(self) -> IdAddress
        ensures { result ≡ roll_id self }
    {
        IdAddress(rolled(self.0, ID_LAST))
    }

    // Where its page begins in the memory.
    pub fn page(self) -> usize
        ensures { result ≡ page_of self.0 }
    {
        page_of(self.0)
    }
}

impl ClockAddress {
    // Registers roll 1Fh to 00h, the SRAM 5Fh to 20h; from 60h up the pointer stays (bench).
    pub fn next(self) -> ClockAddress
        ensures { result ≡ roll_clock self }
    {
        match self.0 {
            0x1f => ClockAddress(0),
            0x5f => ClockAddress(0x20),
            a if a < 0x60 => ClockAddress(a + 1),
            _ => self,
        }
    }
}
