// Lists and maps of texts, which contracts see as their content.
use entry_model::{Fields, Text};
use std::marker::Model;

/// Texts in order. Contracts see the list of them.
#[derive(Drop)]
pub struct Texts {
    listed: Vec<Text>,
}

impl Model for Texts {
    ghost use Rattle.std.specs.Prelude.{List, ℕ};

    ghost Value = { List (List ℕ) };

    ghost view = { λ texts. texts.listed.items };
}

impl Texts {
    ghost use Rattle.std.specs.Prelude.{◌≡◌};

    pub fn new(listed: Vec<Text>) -> Texts
        ensures { result ≡ listed.items }
    {
        Texts { listed }
    }

    pub fn as_slice(&self) -> &[Text]
        ensures { result.now ≡ self.now }
    {
        self.listed.as_slice()
    }

    pub fn into_vec(self) -> Vec<Text>
        ensures { result.items ≡ self }
    {
        let Texts { listed } = self;
        listed
    }
}

/// Texts by name, as attributes are written. Contracts see the members of the map.
#[derive(Drop)]
pub struct NamedTexts {
    named: Fields,
}

impl Model for NamedTexts {
    ghost use Rattle.entry_model.specs.Code.{members_code};
    ghost use Rattle.entry_model.specs.Datum.{Members};
    ghost use Rattle.settings_text.specs.Content.{members_in_memory};

    ghost Value = { Members };

    ghost coded = { members_code };

    ghost view = { λ texts. members_in_memory texts.named };
}

impl NamedTexts {
    ghost use Rattle.std.specs.Prelude.{◌≡◌};
    ghost use Rattle.settings_text.specs.Content.{members_in_memory};

    pub(crate) fn new(named: Fields) -> NamedTexts
        ensures { result ≡ members_in_memory named }
    {
        NamedTexts { named }
    }

    /// Each value is a [`entry_model::Value::Text`].
    pub fn as_fields(&self) -> &Fields
        ensures { members_in_memory result.now ≡ self.now }
    {
        &self.named
    }
}
