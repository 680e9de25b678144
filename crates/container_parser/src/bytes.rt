// Tests of the bytes of a text.
ghost use Rattle.std.specs.Prelude.{◌≡◌};
ghost use Rattle.std.specs.Char.{is_ascii_digit};
ghost use Rattle.std.specs.List.{list_all};
ghost use Rattle.container_parser.specs.Pods.{is_part_byte, is_container_byte, is_uid_byte};
ghost use Rattle.container_parser.specs.Words.{is_made_of};

/// One digit or more.
pub fn is_number(bytes: &[u8]) -> bool
    ensures { result ≡ is_made_of is_ascii_digit bytes.now }
{
    !bytes.is_empty() && are_digits(bytes)
}

/// A namespace, or the name of a pod.
pub fn is_part(bytes: &[u8]) -> bool
    ensures { result ≡ is_made_of is_part_byte bytes.now }
{
    !bytes.is_empty() && are_part_bytes(bytes)
}

/// The name of a container.
pub fn is_container(bytes: &[u8]) -> bool
    ensures { result ≡ is_made_of is_container_byte bytes.now }
{
    !bytes.is_empty() && are_container_bytes(bytes)
}

/// The uid of a pod.
pub fn is_uid(bytes: &[u8]) -> bool
    ensures { result ≡ is_made_of is_uid_byte bytes.now }
{
    !bytes.is_empty() && are_uid_bytes(bytes)
}

fn are_digits(bytes: &[u8]) -> bool
    ensures { result ≡ list_all is_ascii_digit bytes.now }
{
    bytes.iter().all(|byte| byte.is_ascii_digit())
}

fn are_part_bytes(bytes: &[u8]) -> bool
    ensures { result ≡ list_all is_part_byte bytes.now }
{
    bytes.iter().all(|byte| *byte != b'_')
}

fn are_container_bytes(bytes: &[u8]) -> bool
    ensures { result ≡ list_all is_container_byte bytes.now }
{
    bytes.iter().all(|byte| is_container_byte(*byte))
}

fn is_container_byte(byte: u8) -> bool
    ensures { result ≡ is_container_byte byte }
{
    byte != b'.' && byte != b'_'
}

fn are_uid_bytes(bytes: &[u8]) -> bool
    ensures { result ≡ list_all is_uid_byte bytes.now }
{
    bytes.iter().all(|byte| is_uid_byte(*byte))
}

fn is_uid_byte(byte: u8) -> bool
    ensures { result ≡ is_uid_byte byte }
{
    matches!(byte, b'0'..=b'9' | b'a'..=b'f' | b'-')
}
