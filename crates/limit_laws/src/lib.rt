// The limits of one round for sound cabinets. It has no function.
#![tactic(auto)]
