// What a read gives.
ghost use Rattle.outside.specs.Content.{Gives};

/// Fills the front of `buf` with the content's bytes from `offset`, and answers how many it gave.
pub fn read_at(content: &[u8], offset: u64, buf: &mut [u8]) -> usize
    ensures { Gives content.now offset buf.new result }
{
    if offset >= content.len() as u64 {
        return 0;
    }
    let rest = &content[offset as usize..];
    let count = rest.len().min(buf.len());
    buf[..count].copy_from_slice(&rest[..count]);
    count
}
