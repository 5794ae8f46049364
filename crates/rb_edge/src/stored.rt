// Reading a list of files.

ghost use Rattle.std.specs.Prelude.{◌≡◌, length, take, min};
ghost use Rattle.std.specs.Option.{option_copied};
ghost use Rattle.rb_edge.specs.Edge.{Reads};
ghost use Rattle.rb_edge.specs.Memory.{answer_of, held_in, stored_in};

use crate::traits::Read;
use rb_tree::Text;

/// The bytes that one read takes at most.
const PIECE: usize = 4096;

/// The bytes of the first file under this path.
fn find<'a>(files: &'a [(Text, Text)], path: &[u8]) -> Option<&'a [u8]>
    ensures { option_copied result ≡ stored_in path.now files.now }
{
    let (_, bytes) = files.iter().find(|(name, _)| name.as_slice() == path)?;
    Some(bytes.as_slice())
}

/// Copies as many of the bytes into the front of the room as one read takes.
fn copy(bytes: &[u8], room: &mut [u8]) -> usize
    ensures count { result ≡ min (length bytes.now) (min (length room.old) 4096) }
    ensures same { take result room.new ≡ take result bytes.now }
{
    let count = bytes.len().min(room.len().min(PIECE));
    room[..count].copy_from_slice(&bytes[..count]);
    count
}

/// Reads the first file under this path, from a place on.
pub fn read_stored(files: &[(Text, Text)], path: &str, at: u64, room: &mut [u8]) -> Read
    ensures answer { result ≡ answer_of (stored_in path.now files.now) at (length room.old) }
    ensures reads { Reads (held_in path.now files.now) at (length room.old) room.new result }
{
    let Some(bytes) = find(files, path.as_bytes()) else {
        return Read::Missing;
    };
    if at >= bytes.len() as u64 {
        return Read::End;
    }
    Read::Got(copy(&bytes[at as usize..], room))
}
