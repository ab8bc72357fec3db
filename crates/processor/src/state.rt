// The processor's state, and its registers.
ghost use Rattle.std.specs.Prelude.{◌≡◌, ◌||◌, ◌+◌, ◌*◌, ◌%◌, ◌<◌};
ghost use Rattle.basics.specs.Choice.{one_if};
ghost use Rattle.processor.specs.States.{status_of, with_register, with_busy, register_read, cleared, indirect_read, indirect_written, shown_of};

use board::Part;
use shown::Shown;

#[derive(Clone, Copy)]
pub struct Processor {
    // R0 is the command.
    pub registers: [u8; 8],
    // By r: 1 TGS, 2 MAT, 3 PAT, 4 DOR, 7 ROR.
    pub indirect: [u8; 8],
    pub lxm: bool,
    pub lxa: bool,
    pub phase: u8,
    pub marks: [bool; 25],
    // How many blocks its private memory has.
    pub blocks: u8,
    // A move runs.
    pub busy: bool,
    pub part: Part,
}

impl Processor {
    // A register is named by a number modulo 8, as by the low three bits of an address.
    pub fn with_register(mut self, n: u8, value: u8) -> Self
        ensures { result ≡ with_register self (n % 8) value }
    {
        self.registers[usize::from(n % 8)] = value;
        self
    }

    // R0 read: bit 7 while a move runs, and bit 6 if either LX bit is set.
    #[tactic(auto, unfolding(crate::specs::States::status_of))]
    pub fn status(self) -> u8
        ensures { result ≡ status_of self }
    {
        128 * u8::from(self.busy)
            + 64 * u8::from(self.lxm | self.lxa)
            + 32 * u8::from(self.lxm)
            + 16 * u8::from(self.lxa)
    }

    #[tactic(auto, unfolding(crate::specs::States::register_read))]
    pub fn register(self, n: u8) -> u8
        ensures { result ≡ register_read self (n % 8) }
    {
        match n % 8 {
            0 => self.status(),
            i => self.registers[usize::from(i)],
        }
    }

    // Both LX bits.
    pub fn cleared(mut self) -> Self
        ensures { result ≡ cleared self }
    {
        self.lxm = false;
        self.lxa = false;
        self
    }

    // Whether a move runs.
    pub fn with_busy(mut self, busy: bool) -> Self
        ensures { result ≡ with_busy self busy }
    {
        self.busy = busy;
        self
    }

    // R1 from an indirect register.
    pub fn indirect_read(mut self, r: u8) -> Self
        ensures { result ≡ indirect_read self (r % 8) }
    {
        self.registers[1] = self.indirect[usize::from(r % 8)];
        self
    }

    // R1 to an indirect register: a changed value marks every row, in MAT only in 80 columns.
    #[tactic(auto, unfolding(crate::specs::States::indirect_written, basics::specs::Parts::joined))]
    pub fn indirect_written(mut self, r: u8) -> Self
        ensures { result ≡ indirect_written self (r % 8) }
    {
        let i = usize::from(r % 8);
        let is_changed = self.indirect[i] != self.registers[1];
        if is_changed && (i != 2 || self.shown().is_eighty()) {
            self.marks = [true; 25];
        }
        self.indirect[i] = self.registers[1];
        self
    }

    // What a page is drawn by.
    pub fn shown(self) -> Shown
        ensures { result ≡ shown_of self }
    {
        Shown {
            tgs: self.indirect[1],
            mat: self.indirect[2],
            pat: self.indirect[3],
            dor: self.indirect[4],
            ror: self.indirect[7],
            phase: self.phase,
            blocks: self.blocks,
            part: self.part,
        }
    }
}
