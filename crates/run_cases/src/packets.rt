//! Guests that send and receive a page.

/// Stores P to page 2 and sends the whole page to guest 1; stores Q there, prints it and halts.
pub const SENDS_A_PAGE: &[u32] = &[
    0x3C10CFFF, 0x3610F000, 0x3C0AC000, 0x240B0050, 0xAD4B2000, 0x24080002, 0xAE080030, 0x24091000,
    0xAE090034, 0x240C0001, 0xAE0C0038, 0x240B0051, 0xAD4B2000, 0xAE0B0000, 0xAE000004,
];

/// Arms page 2 by its fourth step, waits until the length of the last packet isn't 0, prints the first word of the page and halts.
pub const PRINTS_A_WORD: &[u32] = &[
    0x3C10CFFF, 0x3610F000, 0x24080002, 0xAE08003C, 0x8E090040, 0x1120FFFE, 0x00000000, 0x3C0AC000,
    0x8D4B2000, 0xAE0B0000, 0xAE000004,
];
