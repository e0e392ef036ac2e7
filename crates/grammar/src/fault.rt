//! What can be wrong with a policy text before its lines are counted.
ghost use Rattle.std.specs.Prelude.{◌≡◌};
ghost use Rattle.grammar.specs.declared.fault.GrammarFault.TheVariants.{Sign as of_sign};

use signs::SignFault;

/// Why a text is no policy, with the place of the sign at fault.
#[derive(Clone, Copy, PartialEq, Eq, Debug)]
pub enum GrammarFault {
    /// A sign cannot be read.
    Sign(SignFault),
    /// The sign, or the end of the text, does not fit here.
    Misfit(usize),
    /// The atom was declared before.
    Repeated(usize),
    /// The 33rd atom.
    ManyAtoms(usize),
    /// A name in the rule that was not declared.
    Undeclared(usize),
    /// The 33rd bracket or prefix that is open at once.
    TooDeep(usize),
}

impl From<SignFault> for GrammarFault {
    ghost from_gives = { λ e r. r ≡ of_sign e };

    fn from(e: SignFault) -> GrammarFault {
        GrammarFault::Sign(e)
    }
}
