// The sections of a session file, each from an offset on: sessions, and operator codes. Judged, not written.
#![tactic(auto)]

pub mod bytes;
pub mod codes;
pub mod sessions;
