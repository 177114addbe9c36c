//! A number of a spelling.

ghost use Rattle.std.specs.Prelude.{◌≡◌};
ghost use Rattle.kernel_words.specs.Row.{wide, byte, limit, up_to};

/// The range of a number, and the number.
#[derive(Clone, Copy, Debug, Default, PartialEq, Eq, Drop)]
pub struct Field {
    pub low: u32,
    pub high: u32,
    pub value: u32,
}

impl Field {
    /// Any number of 32 bits.
    pub fn wide(value: u32) -> Field
        ensures { result ≡ wide value }
    {
        Field {
            low: 0,
            high: u32::MAX,
            value,
        }
    }

    /// Any byte.
    pub fn byte(value: u8) -> Field
        ensures { result ≡ byte value }
    {
        Field {
            low: 0,
            high: 255,
            value: value as u32,
        }
    }

    /// A number from 0 to that limit.
    pub fn up_to(high: u32, value: u32) -> Field
        ensures { result ≡ up_to high value }
    {
        Field {
            low: 0,
            high,
            value,
        }
    }

    /// A number from 1 to that limit.
    pub fn limit(high: u32, value: u32) -> Field
        ensures { result ≡ limit high value }
    {
        Field {
            low: 1,
            high,
            value,
        }
    }
}
