// What a poll asks of a member.

ghost use Rattle.std.specs.Prelude.{◌≡◌, ℕ};

/// A thing that can be asked for its readiness bits. An `impl` says which values one question may
/// lead to, and which answer a value gave last.
pub trait Looks: Drop {
    // one question led from the first value to the second
    ghost asked: { Self → Self → Type 0 };

    // the answer that this value gave last
    ghost answer: { Self → ℕ };

    /// The readiness bits, as they are found now.
    fn bits(&mut self) -> u8
        ensures value { result ≡ answer self.new }
        ensures next { asked self.old self.new };
}
