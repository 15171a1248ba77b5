//! The standard streams, which are to be open before any other file: one that is opened later would get the number of a
//! closed one, and be read and written in its place.

use libc::net::{POLLNVAL, poll};
use libc::types::pollfd;
use os::open_read;

/// What stands for a closed stream. A folder can be neither read nor written, so each use fails as that of a closed one.
const FOLDER: &[u8] = b"/";

/// How many there are. Their descriptors are the lowest.
const STREAMS: i32 = 3;

/// Whether this descriptor is open.
fn is_open(descriptor: i32) -> bool {
    let mut asked = [pollfd {
        fd: descriptor,
        events: 0,
        revents: 0,
    }];
    let _ready = poll(asked.as_mut_slice(), 0);
    asked[0].revents & POLLNVAL == 0
}

/// Has a folder stand for each stream that is closed, and says whether all are open then.
pub fn hold() -> bool {
    // A file that is opened gets the lowest descriptor that is free.
    (0..STREAMS).all(|descriptor| is_open(descriptor) || open_read(FOLDER) == descriptor)
}
