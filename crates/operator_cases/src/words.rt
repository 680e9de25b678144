// The words of a case.

/// What the words of a case say of its log.
#[derive(Clone, Copy)]
pub struct Words<'t> {
    /// How many bytes are fed at a time.
    pub size: usize,
    /// Whether the last line has its end.
    pub ended: bool,
    /// Whether what is left at the end is flushed.
    pub flushed: bool,
    /// The time that the lines have, in nanoseconds since 1970.
    pub observed: Option<u64>,
    /// The file's path, or what else the call names.
    pub name: Option<&'t str>,
}

impl<'t> Words<'t> {
    pub fn read(text: &'t str) -> Words<'t> {
        let mut words = Words {
            size: usize::MAX,
            ended: true,
            flushed: false,
            observed: None,
            name: None,
        };
        for word in text.split_whitespace() {
            if word == "unended" {
                words.ended = false;
            } else if word == "flushed" {
                words.flushed = true;
            } else if let Some(time) = word.strip_prefix("observed=") {
                words.observed = time.parse::<u64>().ok();
            } else if let Ok(size) = word.parse::<usize>() {
                words.size = size;
            } else {
                words.name = Some(word);
            }
        }
        words
    }

    /// The path of the file.
    pub fn path(&self) -> &'t str {
        self.name.unwrap_or("logs/app.log")
    }
}
