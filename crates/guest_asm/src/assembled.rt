//! What a text is assembled to.

/// A word, and the address where it stands.
#[derive(Clone, Copy, Debug, PartialEq, Eq)]
pub struct Placed {
    pub address: u32,
    pub word: u32,
}

/// What a text is assembled to: the words in order of their addresses, the address of the first instruction that runs, and the bytes of
/// the image, which is an executable ELF file.
#[derive(Debug, Drop)]
pub struct Assembled {
    pub words: Vec<Placed>,
    pub entry: u32,
    pub image: Vec<u8>,
}
