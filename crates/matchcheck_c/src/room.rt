// The room that a caller gives for a text.
ghost use Rattle.std.specs.Prelude.{◌≡◌};
ghost use Rattle.match_top.specs.Statuses.{status_number};
ghost use Rattle.matchcheck_c.specs.Room.{IsGiven};

use match_top::Status;

/// How a call ended, and how many bytes its text has.
#[repr(C)]
#[derive(Clone, Copy, Debug, PartialEq, Eq)]
pub struct Told {
    /// A status of the program, or 7 where the room is too small.
    pub status: u8,
    /// The bytes of the text with 0, 1, 3 and 7, and else 0.
    pub length: usize,
}

// The status where the room is too small.
const NO_ROOM: u8 = 7;

/// Gives a text to the room, where it fits.
pub(crate) fn give(text: &[u8], status: Status, room: &mut [u8]) -> Told
    ensures { IsGiven text.now (status_number status) result room.old room.new }
{
    let length = text.len();
    if length > room.len() {
        return Told {
            status: NO_ROOM,
            length,
        };
    }
    room[..length].copy_from_slice(text);
    Told {
        status: status.number(),
        length,
    }
}

/// Gives no text.
pub(crate) fn nothing(status: Status) -> Told
    ensures status { result.status ≡ status_number status }
    ensures length { result.length ≡ 0 }
{
    Told {
        status: status.number(),
        length: 0,
    }
}
