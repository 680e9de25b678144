// What a message tells.
use entry_model::Fields;

/// What was read of a message.
#[derive(Drop)]
pub struct Syslog {
    /// `priority` and `facility` as integers and, of RFC 5424, `version`; the others as texts, each where the message has
    /// it: `hostname`, `appname`, `proc_id`, `msg_id`, `message`, and `structured_data` as maps of the elements' parameters.
    pub fields: Fields,
    /// In nanoseconds since 1970-01-01T00:00:00Z.
    pub timestamp: Option<u64>,
    /// From 0, an emergency, to 7, for debugging.
    pub severity: u8,
}
