// The ten tables of a setup as they are lent, which docs/TABLES.md draws: to be read, and to be written.
ghost use Rattle.std.specs.Prelude.{◌≡◌};
ghost use Rattle.setup.specs.Handed.{held, held_mut};

// Tables that are only read.
#[derive(Clone, Copy)]
pub struct LentTables<'a> {
    pub counts: &'a [u32],
    pub books: &'a [u32],
    pub lengths: &'a [u8],
    pub codewords: &'a [u32],
    pub multiplicands: &'a [u16],
    pub floors: &'a [u16],
    pub residues: &'a [u32],
    pub plans: &'a [u16],
    pub mappings: &'a [u8],
    pub modes: &'a [u8],
}

// Tables that are written.
#[derive(Drop)]
pub struct LentTablesMut<'a> {
    pub counts: &'a mut [u32],
    pub books: &'a mut [u32],
    pub lengths: &'a mut [u8],
    pub codewords: &'a mut [u32],
    pub multiplicands: &'a mut [u16],
    pub floors: &'a mut [u16],
    pub residues: &'a mut [u32],
    pub plans: &'a mut [u16],
    pub mappings: &'a mut [u8],
    pub modes: &'a mut [u8],
}

impl LentTablesMut<'_> {
    // The same tables, to be read.
    pub fn shared(&self) -> LentTables<'_>
        ensures { held result ≡ held_mut self.now }
    {
        LentTables {
            counts: self.counts,
            books: self.books,
            lengths: self.lengths,
            codewords: self.codewords,
            multiplicands: self.multiplicands,
            floors: self.floors,
            residues: self.residues,
            plans: self.plans,
            mappings: self.mappings,
            modes: self.modes,
        }
    }
}
