//! The files that the runs are about.
use std::fs;

/// A file that is made here, since it is too long to be kept.
struct LongFile {
    name: &'static str,
    /// One byte more than it may have.
    bytes: usize,
}

const LONG_FILES: [LongFile; 2] = [
    LongFile {
        name: "long.idp",
        bytes: 4_194_305,
    },
    LongFile {
        name: "long.log",
        bytes: 67_108_865,
    },
];

/// The bytes of the named file; none where there is no such file.
pub fn bytes_of(rt: &HostRuntime, name: &str) -> Option<Vec<u8>> {
    for file in &LONG_FILES {
        if name == file.name {
            return vec![in rt.alloc(); b'\n'; file.bytes].ok();
        }
    }
    fs::read(rt, name).ok()
}
