// The alarms' part of a tick, over the registers as the calendar just left them.
ghost use Rattle.std.specs.Prelude.{◌≡◌, ◌≤◌, ◌<◌, ◌&&◌, not};
ghost use Rattle.record.specs.Registers.{active, alm_pin};
ghost use Rattle.ticks.specs.Alarm.{flag_at, bit_of, matches_at, all_match, month_of, hundredths_of, alarm_match, flag_raised, alarmed};
ghost use Rattle.ticks.specs.Lines.{flagged};

use calendar::Advanced;
use record::registers::{
    ALARM_0, ALARM_0_MONTH, ALARM_1, ALARM_1_HUNDREDTHS, ALM_0, ALM_1, ALM_CODE, ALM_IF, ALM_PIN,
    CONTROL, DATE, DAY, HOURS, HUNDREDTHS, MINUTES, MONTH, SECONDS,
};

// The chip's two alarms.
#[derive(Clone, Copy)]
pub enum Alarm {
    Zero,
    One,
}

// Which of an alarm's fields agree with the time registers.
#[derive(Clone, Copy)]
pub struct Matches {
    pub seconds: bool,
    pub minutes: bool,
    pub hours: bool,
    pub day: bool,
    pub date: bool,
}

impl Matches {
    fn all_match(self) -> bool
        ensures { result ≡ all_match self }
    {
        ((self.seconds & self.minutes) & (self.hours & self.day)) & self.date
    }
}

impl Alarm {
    // The register of its flag: its fields stand about it.
    fn flag_at(self) -> usize
        ensures flag { result ≡ flag_at self }
        ensures among_registers { (3 ≤ result) × (result < 31) }
    {
        match self {
            Alarm::Zero => ALARM_0,
            Alarm::One => ALARM_1,
        }
    }

    fn is_active(self, regs: [u8; 32]) -> bool
        ensures { result ≡ active regs (bit_of self) }
    {
        let bit = match self {
            Alarm::Zero => ALM_0,
            Alarm::One => ALM_1,
        };
        regs[CONTROL] / bit % 2 == 1
    }

    // It is active and its flag is set, so that it holds a line low: WDO where its pin bit is set, else IRQ.
    fn is_flagged(self, regs: [u8; 32]) -> bool
        ensures { result ≡ flagged regs (bit_of self) (flag_at self) }
    {
        self.is_active(regs) & (regs[self.flag_at()] / ALM_IF % 2 == 1)
    }

    fn is_on_wdo(self, regs: [u8; 32]) -> bool
        ensures { result ≡ alm_pin regs (flag_at self) }
    {
        regs[self.flag_at()] / ALM_PIN % 2 == 1
    }

    pub(crate) fn pulls_irq(self, regs: [u8; 32]) -> bool
        ensures { result ≡ (flagged regs (bit_of self) (flag_at self) && not (alm_pin regs (flag_at self))) }
    {
        self.is_flagged(regs) & !self.is_on_wdo(regs)
    }

    pub(crate) fn pulls_wdo(self, regs: [u8; 32]) -> bool
        ensures { result ≡ (flagged regs (bit_of self) (flag_at self) && alm_pin regs (flag_at self)) }
    {
        self.is_flagged(regs) & self.is_on_wdo(regs)
    }

    #[tactic(auto, unfolding(crate::specs::Alarm::matches_at))]
    fn matches_at(self, regs: [u8; 32]) -> Matches
        ensures { result ≡ matches_at regs (flag_at self) }
    {
        let a = self.flag_at();
        Matches {
            seconds: regs[SECONDS] % 128 == regs[a - 3] % 128,
            minutes: regs[MINUTES] % 128 == regs[a - 2] % 128,
            hours: regs[HOURS] % 64 == regs[a - 1] % 64,
            day: regs[DAY] % 8 == regs[a] % 8,
            date: regs[DATE] % 64 == regs[a + 1] % 64,
        }
    }

    // What code 7 asks beside the five fields: the month, of alarm 0.
    fn month_match(self, regs: [u8; 32]) -> bool
        ensures { result ≡ month_of self regs }
    {
        match self {
            Alarm::Zero => regs[MONTH] % 32 == regs[ALARM_0_MONTH] % 32,
            Alarm::One => true,
        }
    }

    // What code 5 compares: the hundredths, of alarm 1.
    fn hundredths_match(self, regs: [u8; 32]) -> bool
        ensures { result ≡ hundredths_of self regs }
    {
        match self {
            Alarm::Zero => false,
            Alarm::One => regs[HUNDREDTHS] == regs[ALARM_1_HUNDREDTHS],
        }
    }

    // Whether it matches at this tick, by its code.
    #[tactic(auto, unfolding(crate::specs::Alarm::alarm_match))]
    fn alarm_match(self, t: Advanced, regs: [u8; 32]) -> bool
        ensures { result ≡ alarm_match t regs (flag_at self) (month_of self regs) (hundredths_of self regs) }
    {
        let m = self.matches_at(regs);
        match regs[self.flag_at()] / ALM_CODE % 8 {
            0 => t.seconds & m.seconds,
            1 => t.minutes & m.minutes,
            2 => t.hours & m.hours,
            3 => t.days & m.day,
            4 => t.days & m.date,
            5 => self.hundredths_match(regs),
            7 => t.seconds & (m.all_match() & self.month_match(regs)),
            _ => false,
        }
    }

    // A match sets its flag.
    fn flag_raised(self, go: bool, regs: [u8; 32]) -> [u8; 32]
        ensures { result ≡ flag_raised go regs (flag_at self) }
    {
        let mut next = regs;
        if go {
            let a = self.flag_at();
            next[a] = regs[a] | ALM_IF;
        }
        next
    }
}

// Both alarms, judged before a flag is set.
#[tactic(auto, unfolding(crate::specs::Alarm::alarmed))]
pub fn alarms(t: Advanced, regs: [u8; 32]) -> [u8; 32]
    ensures { result ≡ alarmed t regs }
{
    let zero = Alarm::Zero.is_active(regs) & Alarm::Zero.alarm_match(t, regs);
    let one = Alarm::One.is_active(regs) & Alarm::One.alarm_match(t, regs);
    Alarm::One.flag_raised(one, Alarm::Zero.flag_raised(zero, regs))
}
