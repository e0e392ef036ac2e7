//! Why a text is no policy.
ghost use Rattle.std.specs.Prelude.{◌≡◌};
ghost use Rattle.text.specs.declared.fault.TextFault.TheVariants.{Grammar as of_grammar, Lines as of_lines};

use grammar::GrammarFault;
use lines::LineFault;

/// Why a text is no policy: its grammar, or its number of lines.
#[derive(Clone, Copy, PartialEq, Eq, Debug)]
pub enum TextFault {
    Grammar(GrammarFault),
    Lines(LineFault),
}

impl From<GrammarFault> for TextFault {
    ghost from_gives = { λ e r. r ≡ of_grammar e };

    fn from(e: GrammarFault) -> TextFault {
        TextFault::Grammar(e)
    }
}

impl From<LineFault> for TextFault {
    ghost from_gives = { λ e r. r ≡ of_lines e };

    fn from(e: LineFault) -> TextFault {
        TextFault::Lines(e)
    }
}
