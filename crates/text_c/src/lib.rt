//! The call for a program in C (docs/tablet.md): the static library over `text`, with its one function.
#![tactic(auto)]

ghost use Rattle.std.specs.Prelude.{◌≡◌};
ghost use Rattle.text.specs.Texts.{meant, number_of};

/// A number, as a program in C takes it: 0 if the text is a policy, else the number of its refusal.
#[unsafe(no_mangle)]
pub extern "C" fn policy_refusal(text: &[u8]) -> u8
    ensures { result ≡ number_of (meant text.now) }
{
    text::policy_refusal(text)
}
