//! What C is answered, and what a call leaves in the outputs that C lends it.
#![tactic(auto)]

ghost use Rattle.std.specs.Prelude.{◌≡◌};
ghost use Rattle.refusals.specs.Outcome.{number};
ghost use Rattle.refusals.specs.Numbers.{outcome};
ghost use Rattle.outputs.specs.Outputs.{Gives, whole, held};

use refusals::Refusal;

/// The number that C is answered: the refusal's, or 0.
pub fn number_of<T: Copy>(answer: Result<T, Refusal>) -> u32
    ensures { result ≡ number (outcome answer) }
{
    match answer {
        Ok(_) => 0,
        Err(refusal) => u32::from(refusal.number()),
    }
}

/// The same, with what is accepted written into an output, which a refusal leaves as it was.
pub fn put<T: Copy>(answer: Result<T, Refusal>, output: &mut T) -> u32
    ensures { Gives (outcome answer) whole result (held output) }
{
    match answer {
        Ok(value) => {
            *output = value;
            0
        }
        Err(refusal) => u32::from(refusal.number()),
    }
}
