//! What a processor reaches through its TLB.
ghost use Rattle.std.specs.Prelude.{◌≡◌, ℕ, ◌<◌, ◌%◌, Bool, length};
ghost use Rattle.private_machine.specs.Backing.{Held, bytes_through, page_at, word_on, written_on};
ghost use Rattle.private_machine.specs.DirectAccess.{link_of, linking, others_unlinked};
ghost use Rattle.private_machine.specs.Serving.{Backs, BacksAlone};
ghost use Rattle.hw_cpu.specs.Site.{Site, IsHeld};
ghost use base.Fml.{GName};
ghost use Rattle.std.specs.Prelude.{List};

use base_words::{FrameNo, Ppn};

/// The frames of a guest, and the links of its virtual processors.
pub trait Bus {
    ghost held: { Self → Held };

    /// What stays in a step: which frames are lost, which virtual processor steps, the others but for their links, and the
    /// spare frames.
    ghost site: { Self → Site };

    /// The borrows that it keeps.
    ghost names: { Self → List GName };

    /// Whether a frame lies in a cell that has failed.
    fn is_dead(&self, frame: FrameNo) -> bool
        requires { IsHeld (held self.now) frame.0 }
        ensures { result ≡ (site self.now).lost frame.0 };

    /// A word on a frame of a page.
    fn read(&self, page: Ppn, frame: FrameNo, offset: u32) -> u32
        requires backed { Backs (held self.now) page.0 frame.0 }
        requires within { offset < 4096 }
        requires aligned { offset % 4 ≡ 0 }
        ensures { result ≡ word_on (held self.now) page.0 frame.0 offset };

    /// The bytes of a frame of a page.
    fn bytes(&self, page: Ppn, frame: FrameNo) -> &[u8]
        requires { Backs (held self.now) page.0 frame.0 }
        ensures bytes { result.now ≡ bytes_through (page_at (held self.now).pages page.0) frame.0 }
        ensures whole { length result.now ≡ 4096 };

    /// Replaces a word on the frame of a page.
    fn write(&mut self, page: Ppn, frame: FrameNo, offset: u32, word: u32)
        requires backed { BacksAlone (held self.old) page.0 frame.0 }
        requires within { offset < 4096 }
        requires aligned { offset % 4 ≡ 0 }
        ensures names { names self.new ≡ names self.old }
        ensures site { site self.new ≡ site self.old }
        ensures held { held self.new ≡ written_on (held self.old) page.0 frame.0 offset word };

    /// The line that the stepping virtual processor has linked.
    fn link(&self) -> Option<u32>
        ensures { result ≡ link_of (site self.now).stepping (held self.now) };

    /// The line that it has linked from now on.
    fn set_link(&mut self, line: Option<u32>)
        ensures names { names self.new ≡ names self.old }
        ensures site { site self.new ≡ site self.old }
        ensures held { held self.new ≡ linking (site self.old).stepping line (held self.old) };

    /// Clears the links of the other virtual processors to a line.
    fn stored(&mut self, line: u32)
        ensures names { names self.new ≡ names self.old }
        ensures site { site self.new ≡ site self.old }
        ensures held { held self.new ≡ others_unlinked (site self.old).stepping line (held self.old) };
}

/// Which data accesses leave nothing to note.
pub trait Unnoted {
    /// Of which pages, on which frames, a load (`false`) or a store (`true`) leaves nothing.
    ghost unnoted: { Self → ℕ → ℕ → Bool → Bool };

    /// Whether an access leaves nothing.
    fn is_unnoted(&self, page: Ppn, frame: FrameNo, store: bool) -> bool
        ensures { result ≡ unnoted self.now page.0 frame.0 store };
}
