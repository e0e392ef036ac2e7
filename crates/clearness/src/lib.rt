//! Clearer codes: a list of calls in which codes are replaced by ones that are as clear is answered as clearly. Where a
//! sensor gave nothing and its code is filled in later, a yes or no that was answered stays.
//!
//! Rests on `meaning`, whose definitions of calls and answers it speaks of, and on the law of clearer truths of
//! `logic`. Read specs/Clearness.antt; specs/Worked.antt has two lists with their answers.
#![tactic(auto)]

ghost use Rattle.clearness.specs.Clearness.{ClearerAnswered, ClearerOnward};
ghost use Rattle.clearness.specs.Worked.{WorkedClearer};

/// Of two lists of calls, the second with clearer codes, each call is accepted in both or refused alike. Starts and
/// closes are answered alike, each verdict, truth and preview is as clear in the second, and a yes or no stays. So it is
/// from the opening of a book, and after any two histories of the same events of which the second has clearer codes.
pub fn clearer_calls_answered()
    ensures opening { ClearerAnswered }
    ensures onward { ClearerOnward }
{}

/// Two lists are answered as was worked out by hand, the second with the unknown codes of the first filled in.
pub fn worked_clearer_stands()
    ensures { WorkedClearer }
{}
