//! Which CPUs may be started.

ghost use Rattle.std.specs.Prelude.{◌≡◌, ℕ, Bool, true};

/// Asked of each CPU, from 0 on, before its worker is started.
pub trait Starter {
    /// Whether the CPU is allowed: the same each time that it is asked.
    ghost allows: { Self → ℕ → Bool };

    fn allow(&self, cpu: u8) -> bool
        ensures { result ≡ allows self.now cpu };
}

/// A starter that allows every CPU.
#[derive(Drop)]
pub struct AlwaysAllowed;

impl Starter for AlwaysAllowed {
    ghost allows = { λ _ _. true };

    fn allow(&self, cpu: u8) -> bool {
        let _ = cpu;
        true
    }
}
