// How many bytes of a kind stand at the front.
ghost use Rattle.std.specs.Prelude.{◌≡◌, length};
ghost use Rattle.std.specs.List.{take_while};
ghost use Rattle.syslog_parser.specs.Bytes as kinds;

pub(crate) fn printable_count(bytes: &[u8]) -> usize
    ensures { result ≡ length (take_while kinds.is_printable bytes.now) }
{
    bytes.iter().take_while(|byte| is_printable(**byte)).count()
}

pub(crate) fn name_count(bytes: &[u8]) -> usize
    ensures { result ≡ length (take_while kinds.is_name_byte bytes.now) }
{
    bytes.iter().take_while(|byte| is_name_byte(**byte)).count()
}

pub(crate) fn plain_count(bytes: &[u8]) -> usize
    ensures { result ≡ length (take_while kinds.is_plain bytes.now) }
{
    bytes.iter().take_while(|byte| is_plain(**byte)).count()
}

/// How many bytes stand in front of the first space.
pub(crate) fn unbroken_count(bytes: &[u8]) -> usize
    ensures { result ≡ length (take_while kinds.is_not_space bytes.now) }
{
    bytes.iter().take_while(|byte| **byte != b' ').count()
}

pub(crate) fn tag_count(bytes: &[u8]) -> usize
    ensures { result ≡ length (take_while kinds.is_tag_byte bytes.now) }
{
    bytes.iter().take_while(|byte| is_tag_byte(**byte)).count()
}

/// How many bytes stand in front of the first `]`.
pub(crate) fn bracketed_count(bytes: &[u8]) -> usize
    ensures { result ≡ length (take_while kinds.is_bracketed bytes.now) }
{
    bytes.iter().take_while(|byte| **byte != b']').count()
}

fn is_printable(byte: u8) -> bool
    ensures { result ≡ kinds.is_printable byte }
{
    byte.is_ascii_graphic()
}

fn is_name_byte(byte: u8) -> bool
    ensures { result ≡ kinds.is_name_byte byte }
{
    is_printable(byte) && byte != b'=' && byte != b']' && byte != b'"'
}

fn is_plain(byte: u8) -> bool
    ensures { result ≡ kinds.is_plain byte }
{
    !is_special(byte)
}

/// Whether a backslash escapes this byte.
pub(crate) fn is_special(byte: u8) -> bool
    ensures { result ≡ kinds.is_special byte }
{
    byte == b'"' || byte == b'\\' || byte == b']'
}

fn is_tag_byte(byte: u8) -> bool
    ensures { result ≡ kinds.is_tag_byte byte }
{
    byte != b' ' && byte != b'[' && byte != b':'
}
