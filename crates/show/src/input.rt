// Standard input, up to the length of a buffer.
ghost use Rattle.std.specs.Prelude.{◌<◌, length, IfOk, IfSome};

use std::io;
use std::io::Read;

/// Fills the buffer from its front until the input ends, and hands out what it filled; nothing where that is the
/// whole buffer, since there may be more.
pub fn read_file<'b>(source: &mut impl Read, buffer: &'b mut [u8]) -> io::Result<Option<&'b [u8]>>
    ensures { IfOk result (λ filled. IfSome filled (λ file. length file.now < length buffer.entry.now)) }
{
    // No `read_to_end`: the buffer is all the memory that there is for a file.
    let mut length = 0;
    while length < buffer.len() {
        let read = source.read(&mut buffer[length..])?;
        if read == 0 {
            return Ok(Some(&buffer[..length]));
        }
        length += read;
    }
    Ok(None)
}
