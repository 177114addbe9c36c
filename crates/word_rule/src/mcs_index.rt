//! Where the words of an MCS lock lie (Mellor-Crummey and Scott 1991): word 0 is the tail, and each CPU has its `next` and
//! its `locked`.

ghost use Rattle.std.specs.Prelude.{◌≡◌, ◌+◌};

/// The index of a CPU's `next`.
#[inline]
pub fn next_index(cpu: u32) -> usize
    ensures { result ≡ 1 + cpu }
{
    1 + cpu as usize
}

/// The index of a CPU's `locked`, at a lock for so many CPUs.
#[inline]
pub fn locked_index(cpus: u8, cpu: u32) -> usize
    ensures { result ≡ 1 + cpus + cpu }
{
    1 + cpus as usize + cpu as usize
}
