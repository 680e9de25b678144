// The value at a path.
ghost use Rattle.std.specs.Prelude.{◌≡◌, None, option_map};
ghost use Rattle.entry_model.specs.Datum.{datum};
ghost use Rattle.entry_model.specs.Lawful.{KeysAscend};
ghost use Rattle.entry_model.specs.LogRecord.{log_record, members_in};
ghost use Rattle.field_paths.specs.InOrder.{IsInOrder};
ghost use Rattle.field_paths.specs.Members.{member_at};
ghost use Rattle.field_paths.specs.ValueAt.{datum_at, root_value};

use crate::{FieldPath, Root};
use entry_model::{Entry, Text, Value};

impl FieldPath {
    /// The value at the path, or `None` where a member on the way is missing.
    pub fn get<'e>(&self, entry: &'e Entry) -> Option<&'e Value>
        ensures { option_map (λ value. datum value.now) result ≡ datum_at self.now (log_record entry.now) }
    {
        self.find(entry)
    }

    /// What `get` answers. Its other clause says of the maps on the way what memory alone tells: that their members
    /// ascend, on which some of the laws rest.
    pub fn find<'e>(&self, entry: &'e Entry) -> Option<&'e Value>
        ensures value { option_map (λ value. datum value.now) result ≡ datum_at self.now (log_record entry.now) }
        ensures in_order { IsInOrder self.now (log_record entry.now) }
    {
        let mut value = root_of(self.root, entry);
        for name in &self.names {
            value = member_of(value, name)?;
        }
        Some(value)
    }
}

fn root_of(root: Root, entry: &Entry) -> &Value
    ensures { datum result.now ≡ root_value root (log_record entry.now) }
{
    match root {
        Root::Body => &entry.body,
        Root::Attributes => &entry.attributes,
        Root::Resource => &entry.resource,
    }
}

fn member_of<'v>(value: &'v Value, name: &Text) -> Option<&'v Value>
    ensures value { option_map (λ member. datum member.now) result ≡ member_at name.now (members_in (datum value.now)) }
    ensures ascend { KeysAscend None (members_in (datum value.now)) }
{
    let Value::Map(fields) = value else {
        return None;
    };
    let _len = fields.len();
    fields.get(name)
}
