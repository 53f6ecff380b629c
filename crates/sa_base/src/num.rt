ghost use Rattle.std.specs.Prelude.{◌≡◌};
ghost use Rattle.sa_base.specs.Numbers.{num_lo, num_hi};

/// The eight types of whole numbers, by width and sign; two's complement.
#[derive(Clone, Copy, Debug, PartialEq, Eq)]
pub enum Num {
    I8,
    U8,
    I16,
    U16,
    I32,
    U32,
    I64,
    U64,
}

impl Num {
    /// The least value of the type.
    pub fn lo(self) -> i128
        ensures { result ≡ num_lo self }
    {
        match self {
            Num::I8 => -0x80,
            Num::I16 => -0x8000,
            Num::I32 => -0x8000_0000,
            Num::I64 => -0x8000_0000_0000_0000,
            Num::U8 | Num::U16 | Num::U32 | Num::U64 => 0,
        }
    }

    /// The greatest value of the type.
    pub fn hi(self) -> i128
        ensures { result ≡ num_hi self }
    {
        match self {
            Num::I8 => 0x7f,
            Num::U8 => 0xff,
            Num::I16 => 0x7fff,
            Num::U16 => 0xffff,
            Num::I32 => 0x7fff_ffff,
            Num::U32 => 0xffff_ffff,
            Num::I64 => 0x7fff_ffff_ffff_ffff,
            Num::U64 => 0xffff_ffff_ffff_ffff,
        }
    }
}
