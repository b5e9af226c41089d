// What an audio packet comes to when it is judged (`audio_judge::judge`), by tables that are written out here by hand: a case for each number with which it can be
// sent back (01, "When the packet is sent back"), and packets that are read. The test stands in this crate since the tables are found sound first.
use audio::Tally;
use identification::Identity;
use limits::Limits;
use setup::lent::LentTables;
use std::process::Abort;

const IDENTITY: Identity = Identity {
    channels: 1,
    rate: 8000,
    bitrate_maximum: 0,
    bitrate_nominal: 0,
    bitrate_minimum: 0,
    blocksize0: 64,
    blocksize1: 128,
};

// One of each kind, but three modes, so that there is one that is not set up: docs/TABLES.md has the places. The book's lengths are 1, 2, 3 and 3; the residue
// has two partitions, each with a class word and nothing else.
#[test]
fn each_refusal(rt: HostRuntime) {
    let mut books = [0u32; 2816];
    (books[0], books[1]) = (1, 4);
    let mut lengths = [0u8; 16384];
    (lengths[0], lengths[1], lengths[2], lengths[3]) = (1, 2, 3, 3);
    let mut codewords = [0u32; 16384];
    (codewords[1], codewords[2], codewords[3]) = (2, 6, 7);
    let mut floors = [0u16; 17728];
    (floors[2], floors[3], floors[4], floors[213]) = (2, 7, 2, 128);
    let mut residues = [0u32; 384];
    (residues[2], residues[3], residues[4]) = (2, 1, 1);
    let mut mappings = [0u8; 51456];
    mappings[2] = 1;
    let mut modes = [0u8; 128];
    modes[4] = 1;
    let tables = LentTables {
        counts: &[1, 1, 1, 1, 3],
        books: &books,
        lengths: &lengths,
        codewords: &codewords,
        multiplicands: &[0; 16384],
        floors: &floors,
        residues: &residues,
        plans: &[0; 32768],
        mappings: &mappings,
        modes: &modes,
    };
    come_to(&rt, tables);
}

fn tally(blocksize: u32, samples: u64) -> Tally {
    Tally { blocksize, samples }
}

// Each case is a tally, a packet, and room for curve bytes and for codewords; then the number, 0 where the packet is read, and whether anything was written.
fn come_to(rt: &impl Abort, tables: LentTables<'_>) {
    // Type bit and mode 0; then a floor that is unused, or one that is used: two values of 7 bits, and two class words of a bit each.
    let unused = [0b0000];
    let used = [0b1000, 0, 0];
    assert!(rt; setup_codeword::are_sound(IDENTITY, Limits::standard(), tables));
    for (tally, packet, bytes, entries, want) in [
        (tally(0, 0), &[][..], 64, 2, (1, false)),
        (tally(0, 0), &[0b1], 64, 2, (15, false)),
        (tally(0, 0), &[0b110], 64, 2, (16, false)),
        (tally(0, 0), &unused, 31, 2, (17, false)),
        (tally(0, 0), &used, 32, 1, (17, true)),
        (tally(32, 0), &unused, 64, 2, (18, false)),
        (tally(64, u64::MAX), &unused, 64, 2, (19, true)),
        (tally(0, 0), &unused, 32, 0, (0, true)),
        (tally(0, 0), &used, 32, 2, (0, true)),
    ] {
        let curves = &mut [0; 64][..bytes];
        let words = &mut [0; 2][..entries];
        let judged = audio_judge::judge(tally, IDENTITY, tables, packet, curves, words);
        let came = match judged {
            Ok(_) => (0, true),
            Err(rejected) => (rejected.refusal, rejected.written),
        };
        assert_eq!(rt; came, want, "{packet:?}");
    }
}
