// The numbers that lent buffers hold, of any width.
ghost use Rattle.std.specs.Prelude.{◌≡◌, true, ◌↔◌};
ghost use lib.Bits.{bit_or};
ghost use Rattle.reading.specs.Numbers.{JoinLaws, or_laws};

// An unsigned number. A buffer that nothing is written in holds zeros.
pub trait Number: Copy + Drop {
    ghost ZERO: { Self };

    const ZERO: Self;

    // The bits of both.
    ghost joined: { Self → Self → Self };

    fn join(self, other: Self) -> Self
        ensures { result ≡ joined self other };

    fn is_zero(self) -> bool
        ensures { (result ≡ true) ↔ (self ≡ ZERO) };

    // Joined numbers are zero exactly where all are.
    ghost laws: { JoinLaws ZERO joined };
}

// Four impls that differ in the type alone: rt ci refuses one that a macro of the repository writes.
impl Number for u8 {
    ghost ZERO = { 0 };

    const ZERO: u8 = 0;

    ghost joined = { bit_or };

    ghost laws = { or_laws };

    fn join(self, other: u8) -> u8 {
        self | other
    }

    fn is_zero(self) -> bool {
        self == 0
    }
}

impl Number for u16 {
    ghost ZERO = { 0 };

    const ZERO: u16 = 0;

    ghost joined = { bit_or };

    ghost laws = { or_laws };

    fn join(self, other: u16) -> u16 {
        self | other
    }

    fn is_zero(self) -> bool {
        self == 0
    }
}

impl Number for u32 {
    ghost ZERO = { 0 };

    const ZERO: u32 = 0;

    ghost joined = { bit_or };

    ghost laws = { or_laws };

    fn join(self, other: u32) -> u32 {
        self | other
    }

    fn is_zero(self) -> bool {
        self == 0
    }
}

impl Number for u64 {
    ghost ZERO = { 0 };

    const ZERO: u64 = 0;

    ghost joined = { bit_or };

    ghost laws = { or_laws };

    fn join(self, other: u64) -> u64 {
        self | other
    }

    fn is_zero(self) -> bool {
        self == 0
    }
}
