// The number of rounds.
ghost use Rattle.std.specs.Prelude.{◌≡◌, ◌==◌, ◌||◌, slice_index};
ghost use Rattle.command_words.specs.Rounds.{AnswersRounds};

use crate::command::MAX_ROUNDS;

/// The number of rounds that a text spells in decimal digits, without a sign or a leading zero.
pub fn rounds_of(text: &str) -> Option<u16>
    ensures { AnswersRounds text.now result }
{
    if has_plus_or_zero_first(text) {
        return None;
    }
    match text.parse::<u16>() {
        Ok(rounds) if rounds <= MAX_ROUNDS => Some(rounds),
        _ => None,
    }
}

// What `parse` would take.
fn has_plus_or_zero_first(text: &str) -> bool
    ensures { result ≡ (slice_index text.now 0 == 43 || slice_index text.now 0 == 48) }
{
    text.starts_with('+') || text.starts_with('0')
}
