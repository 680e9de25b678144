// One file for each type of operators: how its settings are read, and what it does where no other crate says so.
pub(crate) mod adding;
pub(crate) mod container_reading;
pub(crate) mod copying;
pub(crate) mod csv_parsing;
pub(crate) mod filtering;
pub(crate) mod flattening;
pub(crate) mod json_parsing;
pub(crate) mod key_value_parsing;
pub(crate) mod moving;
pub(crate) mod recombining;
pub(crate) mod regex_parsing;
pub(crate) mod removing;
pub(crate) mod retaining;
pub(crate) mod severity_parsing;
pub(crate) mod syslog_parsing;
pub(crate) mod time_parsing;
