// Standard input, whole or up to a room.
#![tactic(auto)]

ghost use Rattle.std.specs.Prelude.{length, IfOk, OnErr};
ghost use Rattle.whole_input.specs.Input.{FirstBytes, FirstOf};

use std::io;
use std::io::Read;

// Reads until the input ends or the room is full, and answers how many bytes were read. What comes in pieces is read piece by piece, and where a read fails
// the pieces before it are in the room. The only error is the reader's own; that a reader had to fail no clause can say.
pub fn fill<R: Read>(from: &mut R, room: &mut [u8]) -> io::Result<usize>
    ensures ok { IfOk result (FirstBytes (R.remaining from.old) (R.remaining from.new) room.new) }
    ensures err { OnErr result (FirstOf (R.remaining from.old) (R.remaining from.new) room.new) }
{
    // A loop of its own: std's `read_exact` takes an end of the input for an error, and says nothing of what stands in the room then.
    let mut at: usize = 0;
    while at < room.len() {
        let n = from.read(&mut room[at..])?;
        if n == 0 {
            return Ok(at);
        }
        at += n;
    }
    Ok(at)
}
