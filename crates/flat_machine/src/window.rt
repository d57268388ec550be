//! What a run of steps of one virtual processor goes by.
ghost use Rattle.std.specs.Prelude.{◌≡◌, None};

/// The page of memory to which all accesses of one kind to one virtual page lead.
#[derive(Clone, Copy, Debug, PartialEq, Eq)]
pub struct KeptPage {
    /// The virtual page's number.
    pub number: u32,
    /// The offset of the page in memory.
    pub start: u64,
}

/// The pages of the last fetch, the last load and the last store.
#[derive(Clone, Copy, Debug, PartialEq, Eq)]
pub struct KeptPages {
    pub fetched: Option<KeptPage>,
    pub loaded: Option<KeptPage>,
    pub stored: Option<KeptPage>,
}

/// For how many steps neither an interrupt nor input comes, and the pages of the last accesses.
#[derive(Clone, Copy, Debug, PartialEq, Eq)]
pub struct Window {
    pub quiet: u64,
    pub pages: KeptPages,
}

impl Window {
    /// Nothing is known.
    pub fn new() -> Self
        ensures { result ≡ record { quiet = 0; pages = record { fetched = None; loaded = None; stored = None } } }
    {
        Window {
            quiet: 0,
            pages: KeptPages {
                fetched: None,
                loaded: None,
                stored: None,
            },
        }
    }
}

/// What an instruction changed.
#[derive(Clone, Copy, Debug, PartialEq, Eq)]
pub enum Change {
    /// Registers, memory and links alone.
    Memory,
    /// Coprocessor 0, the TLB or the devices, too.
    Machine,
}
