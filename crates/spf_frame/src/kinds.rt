//! Which kinds of frames are allowed next.

ghost use Rattle.std.specs.Prelude.{◌≡◌, ℕ, Bool};

/// A set of kinds of frames.
pub trait Kinds {
    // Whether frames of a kind are allowed.
    ghost allows: { Self → ℕ → Bool };

    fn allow(&self, kind: u8) -> bool
        ensures { result ≡ allows self.now kind };
}
