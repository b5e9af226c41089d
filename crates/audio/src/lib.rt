// An audio packet: what the call for one is lent and answers. Definitions and laws; the crates audio_head, audio_floors, audio_residues, audio_tally and
// audio_call have the functions. What is repr(C) here is C's as it stands (include/torchvalley.h): a refusal and whether a floor is used stay plain numbers.
#![tactic(auto)]

// How far a stream has come: the last accepted block size, 0 before the first, and the samples so far (01, "What the reader takes and gives").
#[repr(C)]
#[derive(Clone, Copy)]
pub struct Tally {
    pub blocksize: u32,
    pub samples: u64,
}

// What stands before the floors (003, 4.3.1).
#[derive(Clone, Copy)]
pub struct Head {
    // The number of the mode.
    pub mode: u32,
    // The mode's block flag, 1 for a long block, and the block size that goes with it.
    pub blockflag: u32,
    pub blocksize: u32,
    // The previous and the next window flag; 0 and 0 for a short block. Numbers, as fields of one bit are, and as C is answered.
    pub previous: u32,
    pub next: u32,
}

// The window's points (003, 4.3.1, "packet type, mode and window decode").
#[repr(C)]
#[derive(Clone, Copy)]
pub struct Window {
    pub left_start: u32,
    pub left_end: u32,
    pub right_start: u32,
    pub right_end: u32,
}

// What an audio packet comes to, beside the curves and the codewords.
#[repr(C)]
#[derive(Clone, Copy)]
pub struct AudioAnswer {
    // 0 where the packet is accepted, else 01's number of the refusal; all else is zero then.
    pub refusal: u32,
    pub mode: u32,
    pub blocksize: u32,
    pub previous: u32,
    pub next: u32,
    pub window: Window,
    // The samples that this packet finishes.
    pub samples: u64,
    // How many codewords were read in the residues.
    pub codewords: u64,
    // For each channel 1 where its floor is used; zeros behind the last channel.
    pub used: [u8; 255],
}

// What the call leaves beside its outputs, where the tally is handed over by value.
#[repr(C)]
#[derive(Clone, Copy)]
pub struct AudioLeft {
    // The tally after the packet; as it was handed over on a refusal.
    pub tally: Tally,
    pub answer: AudioAnswer,
}
