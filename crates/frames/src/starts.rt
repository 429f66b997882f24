//! Where instructions begin.
ghost use Rattle.std.specs.Prelude.{◌≡◌, ◌<◌, ℕ, List, true};
ghost use Rattle.insn.specs.Meanings.{Act};
ghost use Rattle.insn.specs.Offsets.{at_offset, has_offset};
ghost use Rattle.frames.specs.DeclaredFrames.{is_new};
ghost use Rattle.frames.specs.Marks.{new_index};

/// Where the instructions of a method's code begin. No call takes memory.
pub trait Starts {
    ghost code: { Self → List (ℕ × Act) };

    /// Whether an instruction begins at this offset, in bytes.
    fn is_start(&self, at: u32) -> bool
        ensures { (result ≡ has_offset (code self.now) at) × (result ≡ true → at < 65536) };

    /// Whether a `new` begins there.
    fn is_new(&self, at: u16) -> bool
        ensures { result ≡ is_new (at_offset (code self.now) at) };

    /// The constant pool's index of the class that the `new` there makes an object of (JVMS 6.5, new): `None` where no
    /// `new` begins.
    fn class_index(&self, at: u16) -> Option<u16>
        ensures { result ≡ new_index (at_offset (code self.now) at) };
}
