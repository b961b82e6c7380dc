// The standard streams.
use system::System;

// Holds the standard streams that were closed when the program was started, so that no file of ours gets their numbers and a
// message goes into it. What holds them can only be read: an answer that is written there fails and is told.
pub fn hold_streams(system: &System) {
    for _ in 0..3 {
        system.hold_stream();
    }
}
