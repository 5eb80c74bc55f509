// Instruction codes: the byte of each, which are heard while a write cycle runs, and which write a page.
ghost use Rattle.std.specs.Prelude.{◌≡◌};
ghost use Rattle.record.specs.Codes.{code_of, code_number, heard_under_wip, writes_page};

use crate::Code;

// The code of an instruction byte (the sheet's table 3-1); any other byte is Other.
impl From<u8> for Code {
    ghost from_gives = { λ b c. c ≡ code_of b };

    fn from(b: u8) -> Code {
        match b {
            0x03 => Code::Eeread,
            0x02 => Code::Eewrite,
            0x04 => Code::Eewrdi,
            0x06 => Code::Eewren,
            0x05 => Code::Srread,
            0x01 => Code::Srwrite,
            0x13 => Code::Read,
            0x12 => Code::Write,
            0x14 => Code::Unlock,
            0x32 => Code::Idwrite,
            0x33 => Code::Idread,
            0x44 => Code::Clrwdt,
            0x54 => Code::Clrram,
            _ => Code::Other,
        }
    }
}

// A code's byte; 00h, which is none of the thirteen, for any other.
impl From<Code> for u8 {
    ghost from_gives = { λ c b. b ≡ code_number c };

    fn from(c: Code) -> u8 {
        match c {
            Code::Eeread => 0x03,
            Code::Eewrite => 0x02,
            Code::Eewrdi => 0x04,
            Code::Eewren => 0x06,
            Code::Srread => 0x05,
            Code::Srwrite => 0x01,
            Code::Read => 0x13,
            Code::Write => 0x12,
            Code::Unlock => 0x14,
            Code::Idwrite => 0x32,
            Code::Idread => 0x33,
            Code::Clrwdt => 0x44,
            Code::Clrram => 0x54,
            Code::Other => 0x00,
        }
    }
}

impl Code {
    // It is heard while a write cycle runs.
    pub fn heard_under_wip(self) -> bool
        ensures { result ≡ heard_under_wip self }
    {
        matches!(
            self,
            Code::Srread | Code::Read | Code::Write | Code::Clrwdt | Code::Clrram
        )
    }

    // It writes a page.
    pub fn writes_page(self) -> bool
        ensures { result ≡ writes_page self }
    {
        matches!(self, Code::Eewrite | Code::Idwrite)
    }
}
