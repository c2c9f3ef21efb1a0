// Document 01, "The round sheet" and "Numbers of refusal": the checks of a sheet.
#![tactic(auto)]

ghost use Rattle.std.specs.Prelude.{◌≡◌};
ghost use Rattle.model.specs.RoundSheet.{settings_at};
ghost use Rattle.model.specs.Refusals.{first_of, sheet_checks, spread_checks, row_checks};
ghost use Rattle.model.specs.Calls.{verdict};
ghost use Rattle.refusals.specs.Answers.{verdict_of};

use model::{HEADER_SIZE, Settings};
use refusals::{Reason, Refusal};

// Checks 1 to 5, 16 and 6, for a caller that gives a spread.
#[tactic(auto, using(crate::proofs::Turns::in_turn))]
pub fn inspect_spread(sheet: &[u8], spread: u32) -> Result<Settings, Refusal>
    ensures { verdict_of result
        ≡ verdict (first_of (spread_checks sheet.now spread)) (settings_at sheet.now) }
{
    refusals::refuse_if(sheet.len() < HEADER_SIZE, Reason::TooShort)?;
    let settings = sheet_sizes::settings_at(sheet);
    settings_checks::screen(settings)?;
    let unfit = settings_checks::bad_spread(settings.rule, spread);
    refusals::refuse_if(unfit, Reason::BadSpread)?;
    let wanted = sheet_sizes::sheet_length(settings);
    refusals::refuse_if(sheet.len() != wanted, Reason::BadLength)?;
    Ok(settings)
}

// Checks 1 to 6.
pub fn inspect(sheet: &[u8]) -> Result<Settings, Refusal>
    ensures { verdict_of result
        ≡ verdict (first_of (sheet_checks sheet.now)) (settings_at sheet.now) }
{
    inspect_spread(sheet, 0)
}

// Checks 1 to 6, 8 and 9.
#[tactic(auto, using(crate::proofs::Rows::ways))]
pub fn validate(sheet: &[u8]) -> Result<Settings, Refusal>
    ensures { verdict_of result
        ≡ verdict (first_of (row_checks sheet.now)) (settings_at sheet.now) }
{
    let settings = inspect(sheet)?;
    entry_checks::check_entries(sheet, settings)?;
    Ok(settings)
}
