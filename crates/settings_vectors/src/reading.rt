// Reading a file of data.
use std::io;
use std::io::Read;

// Reads until the buffer is full or the file ends. Where the file ends first, the rest of the buffer stays as it was.
pub(crate) fn read_full(file: &mut impl Read, buf: &mut [u8]) -> io::Result<()> {
    // A lent buffer and no heap: std's `read_to_end` fills a Vec, and `read_exact` refuses a file that ends sooner.
    let mut at: usize = 0;
    while at < buf.len() {
        let n = file.read(&mut buf[at..])?;
        if n == 0 {
            break;
        }
        at += n;
    }
    Ok(())
}
