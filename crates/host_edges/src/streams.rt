// The standard streams.
use std::fs::File;
use std::io;
use std::rt::Files;

const NULL_DEVICE: &str = "/dev/null";

/// Takes the numbers of the standard streams that are closed, so that nothing that is opened later gets one. For reading alone,
/// so that a write to such a stream goes on to fail.
pub fn hold_streams(rt: &impl Files<File = File>) -> [io::Result<File>; 3] {
    [
        File::open(rt, NULL_DEVICE),
        File::open(rt, NULL_DEVICE),
        File::open(rt, NULL_DEVICE),
    ]
}
