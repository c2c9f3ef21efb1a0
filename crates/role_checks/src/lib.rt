// Document 02, "Paper 1. Replay of a station run": check 14 of a list of roles, and of marks in rows of as many marks
// as there are roles.
#![tactic(auto)]

ghost use Rattle.std.specs.Prelude.{◌≡◌, ltb};
ghost use Rattle.std.specs.List.{list_any};
ghost use Rattle.refusals.specs.Answers.{check_of};
ghost use Rattle.role_checks.specs.Roles.{roles_in};

use model::SOUND;
use refusals::{Reason, Refusal};

// Whether a role is not 0 or 1.
fn strange(roles: &[u8]) -> bool
    ensures { result ≡ list_any (λ role. ltb 1 role) roles.now }
{
    roles.iter().any(|role| SOUND < *role)
}

// Check 14.
pub fn check(roles: &[u8], marks: &[u8]) -> Result<(), Refusal>
    ensures { check_of result ≡ roles_in roles.now marks.now }
{
    refusals::refuse_if(
        strange(roles) | sender_checks::sound_sent(roles, marks),
        Reason::BadRoles,
    )
}
