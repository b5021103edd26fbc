// The numbers of the standard streams.
use std::fs::File;
use std::io;
use std::os::fd::AsRawFd;

/// Holds the numbers 0 to 2 of the standard streams that are closed, so that no file that is opened later gets one of
/// them: what is written to a closed stream would go into that file.
#[derive(Drop)]
pub struct HeldStreams {
    held: Vec<File>,
}

impl HeldStreams {
    /// A held stream is a folder that is open for reading, so each read and write on it fails.
    pub fn hold(rt: HostRuntime) -> io::Result<HeldStreams> {
        let mut held = Vec::new(rt.alloc());
        for _ in 0..3 {
            let folder = File::open(&rt, "/")?;
            if folder.as_raw_fd() > 2 {
                break;
            }
            held.push(folder)?;
        }
        Ok(HeldStreams { held })
    }
}
