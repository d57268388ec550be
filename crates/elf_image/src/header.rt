//! The header of an ELF file.
ghost use Rattle.std.specs.Prelude.{◌≡◌, ◌+◌, ◌≤◌, length, IfOk};
ghost use Rattle.elf_image.specs.Fields.{elf_header, half_at};
ghost use Rattle.elf_image.specs.FirstFault.{short, table_fits, entry};
ghost use Rattle.elf_image.specs.Checks.{Finds, header_fault};

use crate::ImageFault;
use crate::segment::{MEMORY_START, memory_end};
use base_words::read_word;
use byteorder::{BigEndian, ByteOrder};

/// How many bytes the header has.
const HEADER_SIZE: usize = 52;

/// How many bytes a program header has.
pub const PROGRAM_HEADER_SIZE: u16 = 32;

/// The magic number: the byte 7F and the letters ELF.
const MAGIC: u32 = 0x7F45_4C46;

/// The class of 32-bit objects.
const ELFCLASS32: u8 = 1;

/// The data encoding with the most significant byte first.
const ELFDATA2MSB: u8 = 2;

/// The one version of ELF.
const EV_CURRENT: u8 = 1;

/// The type of executable files.
const ET_EXEC: u16 = 2;

/// The machine MIPS.
const EM_MIPS: u16 = 8;

/// The fields of the header that are read, by their names in the ELF specification.
#[derive(Clone, Copy, Debug)]
pub struct ElfHeader {
    pub ei_mag: u32,
    pub ei_class: u8,
    pub ei_data: u8,
    pub ei_version: u8,
    pub e_type: u16,
    pub e_machine: u16,
    pub e_version: u32,
    pub e_entry: u32,
    pub e_phoff: u32,
    pub e_phentsize: u16,
    pub e_phnum: u16,
}

impl ElfHeader {
    /// The header of a file, unless the file ends within it.
    #[tactic(auto, unfolding(crate::specs::Fields::elf_header))]
    pub fn read(file: &[u8]) -> Result<ElfHeader, ImageFault>
        ensures value { IfOk result (λ header. header ≡ elf_header file.now) }
        ensures fault { Finds (short file.now) result }
    {
        if file.len() < HEADER_SIZE {
            return Err(ImageFault::Short);
        }
        Ok(ElfHeader {
            ei_mag: read_word(file, 0),
            ei_class: file[4],
            ei_data: file[5],
            ei_version: file[6],
            e_type: read_half(file, 16),
            e_machine: read_half(file, 18),
            e_version: read_word(file, 20),
            e_entry: read_word(file, 24),
            e_phoff: read_word(file, 28),
            e_phentsize: read_half(file, 42),
            e_phnum: read_half(file, 44),
        })
    }

    /// Refuses the header of a file that is no executable for this processor, or whose program headers do not lie within it.
    #[tactic(auto, unfolding(crate::specs::Checks::header_fault))]
    pub fn check(&self, file_length: usize) -> Result<(), ImageFault>
        ensures { Finds (header_fault self.now file_length) result }
    {
        if self.ei_mag != MAGIC {
            return Err(ImageFault::Magic);
        }
        if self.ei_class != ELFCLASS32 {
            return Err(ImageFault::Class);
        }
        if self.ei_data != ELFDATA2MSB {
            return Err(ImageFault::Order);
        }
        if self.ei_version != EV_CURRENT || self.e_version != EV_CURRENT as u32 {
            return Err(ImageFault::Version);
        }
        if self.e_type != ET_EXEC {
            return Err(ImageFault::Kind);
        }
        if self.e_machine != EM_MIPS {
            return Err(ImageFault::Processor);
        }
        if !self.table_fits(file_length) {
            return Err(ImageFault::Headers);
        }
        Ok(())
    }

    /// Whether there are no program headers, or they have the right size and lie within the file.
    fn table_fits(&self, file_length: usize) -> bool
        ensures { result ≡ table_fits self.now file_length }
    {
        let table_end = self.e_phoff as u64 + PROGRAM_HEADER_SIZE as u64 * self.e_phnum as u64;
        self.e_phnum == 0
            || (self.e_phentsize == PROGRAM_HEADER_SIZE && table_end <= file_length as u64)
    }

    /// Refuses an entry that is no place of an instruction in a memory of so many pages.
    pub fn check_entry(&self, pages: u32) -> Result<(), ImageFault>
        ensures { Finds (entry self.now pages) result }
    {
        let within = self.e_entry >= MEMORY_START && (self.e_entry as u64) < memory_end(pages);
        if self.e_entry % 4 != 0 || !within {
            return Err(ImageFault::Entry);
        }
        Ok(())
    }
}

/// The half word in the two bytes from an offset.
fn read_half(file: &[u8], offset: usize) -> u16
    requires { offset + 2 ≤ length file.now }
    ensures { result ≡ half_at file.now offset }
{
    BigEndian::read_u16(&file[offset..offset + 2])
}
