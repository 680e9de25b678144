// What the spelling of a row says behind its state.
use file_tracker::Ends;

/// What a row says of the settings that its file was read under, and of looks at the file.
#[derive(Drop)]
pub struct Past {
    pub born: u32,
    pub ends: Ends,
    pub seen: u64,
    pub quiet: u32,
}
