// What is made of a file before its tokens are taken.
ghost use Rattle.std.specs.Prelude.{◌≡◌, IfOk};
ghost use Rattle.pipeline.specs.Origin.{origin_of};
ghost use Rattle.pipeline.specs.Parts.{settings_of};
ghost use Rattle.pipeline.specs.Sources.{number_name, IsSource};

use crate::Pipeline;
use entry_model::{Fields, Text};
use otlp_json::{Scope, Template};
use std::alloc::{AllocError, Global};

/// The file whose tokens are taken.
#[derive(Clone, Copy)]
pub struct LogFile<'f> {
    pub id: u32,
    pub path: &'f str,
    /// The time that its lines have, in nanoseconds since 1970, where they have one.
    pub observed: Option<u64>,
}

/// How tokens become lines.
pub(crate) enum Source {
    /// Without operators: each by what the lines share.
    Lines(Template),
    /// Through the operators: each as an entry.
    Entries(Shared),
}

// By hand, so that what drops one goes by this call, and not by what each kind may hold.
impl Drop for Source {
    fn drop(self) {
        match self {
            Source::Lines(_template) => {}
            Source::Entries(_shared) => {}
        }
    }
}

/// What the entries of a file and their lines share.
#[derive(Drop)]
pub(crate) struct Shared {
    pub(crate) attributes: Fields,
    /// The attribute that has a record's number, where one is asked for.
    pub(crate) number: Option<Text>,
    pub(crate) scope: Scope,
    /// The time that the lines have, in nanoseconds since 1970.
    pub(crate) observed: Option<u64>,
}

impl Pipeline {
    pub(crate) fn source(&self, alloc: Global, file: &LogFile<'_>) -> Result<Source, AllocError>
        ensures { IfOk result (IsSource self.now (origin_of file.now.id file.now.path.now file.now.observed)) }
    {
        let attributes = self.file_attributes(alloc, file.path)?;
        let number = self.number_name(alloc)?;
        if !self.graph.nodes().is_empty() {
            let scope = Scope::new(alloc, file.id)?;
            return Ok(Source::Entries(Shared {
                attributes,
                number,
                scope,
                observed: file.observed,
            }));
        }
        let resource = self.settings.resource.as_fields();
        let template = Template::new(alloc, file.id, file.observed, resource, attributes, number)?;
        Ok(Source::Lines(template))
    }

    // The attribute that has a record's number, where one is asked for.
    fn number_name(&self, alloc: Global) -> Result<Option<Text>, AllocError>
        ensures { IfOk result (λ name. name ≡ number_name (settings_of self.now)) }
    {
        if !self.settings.include_file_record_number {
            return Ok(None);
        }
        Ok(Some(Text::from_str(alloc, "log.file.record_number")?))
    }
}
