// How many vectors a submap's residue has, and how many partitions each of them (003, 4.3.4; 000, 8.6.2; 01, "Audio order" 5).
ghost use Rattle.std.specs.Prelude.{◌≤◌, ◌≡◌, length};
ghost use Rattle.residue_requests.specs.Requests.{partition_count};
ghost use Rattle.audio.specs.Channels.{vector_size, vector_count};
ghost use Rattle.mapping_row.specs.Inner.Readable.{mapping_in, MappingReadable};
ghost use Rattle.audio_channels.specs.Inner.Extents.{head_residue, ExtentIs};
ghost use Rattle.audio_channels.specs.Inner.Live.{used_bools};

use crate::channels::{channels_of, live_of};
use mapping_row::MappingRow;
use residue::head::Head;

// How much of a residue is read.
#[derive(Clone, Copy)]
pub struct Extent {
    pub vectors: usize,
    pub partitions: u32,
}

// Begin and end are each lowered to the size.
fn partition_count(head: Head, size: u32) -> u32
    requires { 1 ≤ head.size }
    ensures { result ≡ partition_count (head_residue head) size }
{
    let begin = head.begin.min(size);
    let end = head.end.min(size);
    end.saturating_sub(begin) / head.size
}

// Type 2 has one vector with the places of all channels of the submap.
fn vector_size(head: Head, half: u32, channels: u32) -> u32
    requires { (half ≤ 4096) × (channels ≤ 255) }
    ensures { result ≡ vector_size (head_residue head) half channels }
{
    if head.kind == 2 {
        half * channels
    } else {
        half
    }
}

// It is read if any of them is live.
fn vector_count(head: Head, live: u32) -> u32
    ensures { result ≡ vector_count (head_residue head) live }
{
    if head.kind == 2 { live.min(1) } else { live }
}

fn extent_of(head: Head, half: u32, channels: u32, live: u32) -> Extent
    requires { (1 ≤ head.size) × (half ≤ 4096) × (channels ≤ 255) }
    ensures { (result.vectors ≡ vector_count (head_residue head) live)
        × (result.partitions ≡ partition_count (head_residue head) (vector_size (head_residue head) half channels)) }
{
    let size = vector_size(head, half, channels);
    let vectors = vector_count(head, live) as usize;
    let partitions = partition_count(head, size);
    Extent {
        vectors,
        partitions,
    }
}

// How much of a residue is read for a submap.
pub fn submap_extent(
    live: &[u8; 255],
    row: MappingRow,
    channels: u32,
    submap: usize,
    half: u32,
    head: Head,
) -> Extent
    requires { (length live.now ≡ 255) × (channels ≤ 255) × MappingReadable channels row.mappings.now row.number
        × (half ≤ 4096) × (1 ≤ head.size) }
    ensures { ExtentIs half (mapping_in row.entry.mappings.now row.entry.number) channels (used_bools channels live.now) submap head
        result.vectors result.partitions }
{
    let all = channels_of(row, channels, submap);
    let some = live_of(live, row, channels, submap);
    extent_of(head, half, all, some)
}
