//! The number of a CPU.

ghost use Rattle.std.specs.Prelude.{◌≡◌, ◌<◌};

/// The number of a CPU, as a caller has it. It is wider than it need be: behind a lone byte there are seven that no number of LLVM
/// has, and a caller is then moved through memory.
#[derive(Drop)]
pub struct Cpu {
    pub number: u32,
    pub ghost small: { number < 256 },
}

impl Cpu {
    /// The CPU with that number.
    #[inline]
    pub fn numbered(number: u8) -> Cpu
        ensures { result.number ≡ number }
    {
        Cpu {
            number: u32::from(number),
        }
    }

    /// The same as a byte.
    #[inline]
    pub fn byte(&self) -> u8
        ensures { result ≡ self.now.number }
    {
        self.number as u8
    }
}
