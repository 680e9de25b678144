// What each type of operators says beside the keys that types share.
pub mod adding;
pub mod container_reading;
pub mod copying;
pub mod csv_parsing;
pub mod filtering;
pub mod flattening;
pub mod json_parsing;
pub mod key_value_parsing;
pub mod moving;
pub mod recombining;
pub mod regex_parsing;
pub mod removing;
pub mod retaining;
pub mod routing;
pub mod severity_parsing;
pub mod syslog_parsing;
pub mod time_parsing;
