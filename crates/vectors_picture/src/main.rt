//! Replays what the original's blur, response, threshold, clusters and centres answered, and the limits of document 01, against the
//! public entries on pictures. tools/oracle/README.md says how the files were made.
#![tactic(auto)]

mod cluster_frames;
mod planes;

use std::io;
use vectors::replay;

fn main(rt: HostRuntime) -> io::Result<()> {
    let mut buffer = vectors::large_buffer();
    for name in [b"blur".as_slice(), b"response", b"threshold", b"refusals"] {
        let count = vectors::load(&rt, name, &mut buffer)?;
        let tally = replay(&buffer[..count], planes::is_alike);
        vectors::report(&rt, name, tally)?;
    }
    for name in [b"clusters".as_slice(), b"center", b"cluster_refusals"] {
        let count = vectors::load(&rt, name, &mut buffer)?;
        let tally = replay(&buffer[..count], cluster_frames::is_alike);
        vectors::report(&rt, name, tally)?;
    }
    Ok(())
}
