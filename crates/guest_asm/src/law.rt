//! What the words of statements are decoded as, and what memory holds once the image of a text is loaded.
ghost use Rattle.guest_asm.specs.Decoding.{AllAreDecoded};
ghost use Rattle.guest_asm.specs.Loading.{AllAreLoaded, AllLoadWords};

/// The word of each statement that names an instruction is decoded as that instruction: for each mnemonic, registers and number.
pub fn words_are_instructions()
    ensures { AllAreDecoded }
{}

/// The image of each text that is assembled has no fault, and `elf_image::load` answers it or that memory is wanting: the run begins at the
/// entry, each word stands at its address, and all other bytes are 0.
pub fn images_are_loaded()
    ensures definitions { AllAreLoaded }
    ensures answers { AllLoadWords }
{}
