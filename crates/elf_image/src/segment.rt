//! A program header, and the segment that it describes.
ghost use Rattle.std.specs.Prelude.{◌≡◌, ◌+◌, ◌≤◌, length};
ghost use Rattle.elf_image.specs.Fields.{program_header_at};
ghost use Rattle.elf_image.specs.Segments.{memory_end, is_interpreter, is_cut, is_outside, shares_byte};
ghost use Rattle.elf_image.specs.Spans.{span_of};

use base_words::{PAGE_SIZE, read_word};

/// The virtual address of a guest's physical address 0.
pub const MEMORY_START: u32 = 0xC000_0000;

/// The virtual address behind a memory of so many pages.
pub fn memory_end(pages: u32) -> u64
    ensures { result ≡ memory_end pages }
{
    MEMORY_START as u64 + PAGE_SIZE as u64 * pages as u64
}

/// The type of a segment that is to be loaded.
const PT_LOAD: u32 = 1;

/// The type of a header that names an interpreter.
const PT_INTERP: u32 = 3;

/// A segment to be loaded: its bytes in the file, and its place in memory, by the names of the ELF specification.
#[derive(Clone, Copy, Debug)]
pub struct LoadSegment {
    pub p_offset: u32,
    pub p_vaddr: u32,
    pub p_filesz: u32,
    pub p_memsz: u32,
}

/// A program header: a segment to be loaded, the name of an interpreter, or something that is passed over.
#[derive(Clone, Copy, Debug)]
pub enum ProgramHeader {
    Load(LoadSegment),
    Interpreter,
    Other,
}

/// The virtual address where something begins in memory, and the one behind its last byte.
#[derive(Clone, Copy, Debug)]
pub struct Span {
    pub start: u64,
    pub end: u64,
}

impl LoadSegment {
    /// Where its bytes end in the file.
    fn file_end(&self) -> u64
        ensures { result ≡ self.now.p_offset + self.now.p_filesz }
    {
        self.p_offset as u64 + self.p_filesz as u64
    }

    /// The virtual address where its bytes in memory end.
    fn vaddr_end(&self) -> u64
        ensures { result ≡ self.now.p_vaddr + self.now.p_memsz }
    {
        self.p_vaddr as u64 + self.p_memsz as u64
    }
}

impl ProgramHeader {
    /// The program header at an offset of a file.
    #[tactic(auto, unfolding(crate::specs::Fields::program_header_at))]
    pub fn read(file: &[u8], offset: usize) -> ProgramHeader
        requires { offset + 32 ≤ length file.now }
        ensures { result ≡ program_header_at file.now offset }
    {
        match read_word(file, offset) {
            PT_LOAD => ProgramHeader::Load(LoadSegment {
                p_offset: read_word(file, offset + 4),
                p_vaddr: read_word(file, offset + 8),
                p_filesz: read_word(file, offset + 16),
                p_memsz: read_word(file, offset + 20),
            }),
            PT_INTERP => ProgramHeader::Interpreter,
            _ => ProgramHeader::Other,
        }
    }

    /// Whether it names an interpreter.
    pub fn is_interpreter(&self) -> bool
        ensures { result ≡ is_interpreter self.now }
    {
        match self {
            ProgramHeader::Interpreter => true,
            ProgramHeader::Load(_) | ProgramHeader::Other => false,
        }
    }

    /// Whether its segment has more bytes in the file than in memory, or passes the end of the file.
    pub fn is_cut(&self, file_length: usize) -> bool
        ensures { result ≡ is_cut file_length self.now }
    {
        match self {
            ProgramHeader::Load(s) => s.p_memsz < s.p_filesz || s.file_end() > file_length as u64,
            ProgramHeader::Interpreter | ProgramHeader::Other => false,
        }
    }

    /// Whether its segment has a byte outside a memory of so many pages.
    pub fn is_outside(&self, pages: u32) -> bool
        ensures { result ≡ is_outside pages self.now }
    {
        match self {
            ProgramHeader::Load(s) => {
                s.p_memsz > 0 && (s.p_vaddr < MEMORY_START || s.vaddr_end() > memory_end(pages))
            }
            ProgramHeader::Interpreter | ProgramHeader::Other => false,
        }
    }

    /// Where its segment lies in memory, if it has bytes there.
    pub fn span(&self) -> Option<Span>
        ensures { result ≡ span_of self.now }
    {
        match self {
            ProgramHeader::Load(s) if s.p_memsz > 0 => Some(Span {
                start: s.p_vaddr as u64,
                end: s.vaddr_end(),
            }),
            _ => None,
        }
    }

    /// Whether a byte of memory belongs to both segments.
    pub fn shares_byte(&self, other: &ProgramHeader) -> bool
        ensures { result ≡ shares_byte self.now other.now }
    {
        match (self, other) {
            (ProgramHeader::Load(s), ProgramHeader::Load(t)) => {
                s.p_memsz > 0
                    && t.p_memsz > 0
                    && (s.p_vaddr as u64) < t.vaddr_end()
                    && (t.p_vaddr as u64) < s.vaddr_end()
            }
            _ => false,
        }
    }
}
