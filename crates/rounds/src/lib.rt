// The theory of the rounds: what stable rounds mean on routes, and that they come.
#![tactic(auto)]

ghost use Rattle.rounds.specs.Claims.{AlwaysExact, AlwaysSettles, Duals, UntilExact, UntilSettles};

// Carries the theorems of this crate; it answers nothing of use.
pub fn rounds_stand()
    ensures until { UntilExact × UntilSettles }
    ensures always { AlwaysExact × AlwaysSettles }
    ensures every { Duals }
{}
