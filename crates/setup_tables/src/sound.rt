// All ten tables (01, "What the reader takes and gives": a later call accepts tables exactly when they are the writing-out of some content that meets every rule).
ghost use Rattle.std.specs.Prelude.{true, ◌↔◌, ◌≡◌, ◌≤◌};
ghost use Rattle.setup.specs.Handed.{held};
ghost use Rattle.setup.specs.Inner.Parts.{Small};
ghost use Rattle.setup.specs.Sound.{Sound, OneContent};

use crate::parts;
use limits::Limits;
use setup::lent::LentTables;

// Whether the tables are the writing-out of some setup that meets every rule for so many channels.
pub fn are_sound(limits: Limits, channels: u32, tables: LentTables<'_>) -> bool
    requires { Small limits × (channels ≤ 255) }
    ensures variant { (result ≡ true) ↔ Sound limits channels (held tables.entry) }
    ensures one_content { OneContent (held tables.entry) }
{
    if !setup_buffers::have_room(limits, tables) {
        return false;
    }
    if !parts::are_counts(tables.counts) {
        return false;
    }
    if !parts::are_front(limits, tables) {
        return false;
    }
    parts::are_back(channels, tables)
}
