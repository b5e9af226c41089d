// The fields of a residue before its plan, as the program holds them (001, "header decode", steps 1 to 5).
#[derive(Clone, Copy)]
pub struct Head {
    // 0, 1 or 2 where the residue meets its rules. A number: it is one of the table's layout (docs/TABLES.md), and what is handed in may hold any.
    pub kind: u32,
    pub begin: u32,
    pub end: u32,
    pub size: u32,
    pub classifications: u32,
    pub classbook: u32,
}
