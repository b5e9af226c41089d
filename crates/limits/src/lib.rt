// 01's limits as a value, handed to whoever judges them, so that a caller can be given others without touching a judge.
#![tactic(auto)]

ghost use Rattle.std.specs.Prelude.{◌≡◌};

// What refusal 14 judges (01, "When the packet is sent back").
#[derive(Clone, Copy)]
pub struct Limits {
    pub channels: u32,
    // The entries of one codebook, and of all together.
    pub book_entries: u32,
    pub entries: u32,
    // The multiplicands of all codebooks together.
    pub multiplicands: u32,
}

impl Limits {
    // 8 channels, 8,192 entries in a book, 16,384 entries and 16,384 multiplicands in all.
    pub fn standard() -> Self
        ensures { (result.channels ≡ 8) × (result.book_entries ≡ 8192) × (result.entries ≡ 16384) × (result.multiplicands ≡ 16384) }
    {
        Limits {
            channels: 8,
            book_entries: 8192,
            entries: 16384,
            multiplicands: 16384,
        }
    }
}
