// Why of the text of settings nothing is made.
ghost use Rattle.std.specs.Prelude.{◌≡◌};

use pipeline::BuildFault;
use settings_text::SettingsFault;

/// Why of the text of settings no pipeline is made.
#[derive(Drop)]
pub(crate) enum Unmade {
    /// The settings can't be read.
    Settings(SettingsFault),
    /// What the settings ask for can't be made.
    Build(BuildFault),
    Memory,
}

impl From<SettingsFault> for Unmade {
    ghost use Rattle.poll_core.specs.Unmade.{settings_unmade};

    ghost from_gives = { λ given fault. fault ≡ settings_unmade given };

    fn from(given: SettingsFault) -> Unmade {
        match given {
            SettingsFault::Memory => Unmade::Memory,
            other => Unmade::Settings(other),
        }
    }
}

impl From<BuildFault> for Unmade {
    ghost use Rattle.poll_core.specs.Unmade.{build_unmade};

    ghost from_gives = { λ given fault. fault ≡ build_unmade given };

    fn from(given: BuildFault) -> Unmade {
        match given {
            BuildFault::Memory => Unmade::Memory,
            other => Unmade::Build(other),
        }
    }
}
