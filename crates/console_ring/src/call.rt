//! What a console is asked, and what it answers.

/// A call on a console.
#[derive(Clone, Copy, Debug, Default, PartialEq, Eq, Drop)]
pub enum ConsoleCall {
    /// Puts the byte at the end; a full console drops its first byte for it.
    Put(u8),
    /// Takes the first byte.
    #[default]
    Get,
    /// Counts the bytes.
    Level,
}

/// The reply to a call on a console.
#[derive(Clone, Copy, Debug, Default, PartialEq, Eq, Drop)]
pub enum ConsoleReply {
    #[default]
    Ok,
    /// The console was full, and this byte was dropped.
    Dropped(u8),
    /// Refused: the console has no byte.
    Empty,
    Byte(u8),
    Count(u32),
}
