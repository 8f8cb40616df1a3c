// A file that is read in large pieces, however it is cut into reads.
use std::io;
use std::io::Read;

// How many bytes of the buffer are filled, and whether they are the file's last, or why the bytes behind them cannot be read.
#[derive(Clone, Copy)]
pub struct Filled {
    pub count: usize,
    pub is_last: io::Result<bool>,
}

impl Filled {
    fn new(count: usize, is_last: io::Result<bool>) -> Filled {
        Filled { count, is_last }
    }
}

// Fills the buffer behind the bytes that are held, until it is full or the file has no more. A buffer and a count, as `judge_piece` takes them.
pub fn fill<R: Read>(file: &mut R, buffer: &mut [u8], held: usize) -> Filled {
    let most = buffer.len();
    if most < held {
        return Filled::new(0, Err(io::Error::from(io::ErrorKind::InvalidInput)));
    }
    let mut count = held;
    // Each read goes behind the one before, as far as it came.
    while count < most {
        let part = &mut buffer[count..most];
        let n = match file.read(part) {
            Ok(0) => return Filled::new(count, Ok(true)),
            Ok(n) => n,
            Err(why) => return Filled::new(count, Err(why)),
        };
        count += n;
    }
    Filled::new(count, Ok(false))
}
