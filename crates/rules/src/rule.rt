//! The rule's form: one function for each rule of the grammar, which call each other in a cycle while the text that
//! remains gets shorter. They stay five functions: that is a form which docs/DECISIONS.md keeps.
ghost use Rattle.rules.specs.Parts.{Takes, Reads, Room, a_unit, a_link, a_conj, a_disj, a_form};

use crate::depth::Depth;
use crate::parser::Parser;
use crate::{is_mark, prefix_of, since_of};
use grammar::GrammarFault;
use lines::{Infix, Line};
use signs::{Mark, Sign};

impl<'a> Parser<'a> {
    /// Whether this mark comes next: then it is read over, else the reader stays before the sign.
    fn takes(&mut self, mark: Mark) -> Result<bool, GrammarFault>
        ensures { Takes mark self.old self.new result }
    {
        let mut ahead = self.reader;
        let placed = ahead.next()?;
        if is_mark(placed.sign, mark) {
            self.reader = ahead;
            return Ok(true);
        }
        Ok(false)
    }

    /// form = disj [ "->" disj ]
    ///
    /// Says the number of the form's last line, as do the others.
    #[cycle(parts)]
    pub fn form(&mut self, depth: Depth) -> Result<u16, GrammarFault>
        requires room { Room self.old }
        ensures { Reads a_form self.old depth.count self.new result }
    {
        let left = self.disj(depth)?;
        if !self.takes(Mark::Arrow)? {
            return Ok(left);
        }
        let side = self.table.middle(Infix::Implies, left);
        let right = self.disj(depth)?;
        Ok(self.table.end(Infix::Implies, side, right))
    }

    /// disj = conj { "|" conj }
    #[cycle(parts)]
    fn disj(&mut self, depth: Depth) -> Result<u16, GrammarFault>
        requires room { Room self.old }
        ensures { Reads a_disj self.old depth.count self.new result }
    {
        let mut left = self.conj(depth)?;
        while self.takes(Mark::Or)? {
            let side = self.table.middle(Infix::Or, left);
            let right = self.conj(depth)?;
            left = self.table.end(Infix::Or, side, right);
        }
        Ok(left)
    }

    /// conj = link { "&" link }
    #[cycle(parts)]
    fn conj(&mut self, depth: Depth) -> Result<u16, GrammarFault>
        requires room { Room self.old }
        ensures { Reads a_conj self.old depth.count self.new result }
    {
        let mut left = self.link(depth)?;
        while self.takes(Mark::And)? {
            let side = self.table.middle(Infix::And, left);
            let right = self.link(depth)?;
            left = self.table.end(Infix::And, side, right);
        }
        Ok(left)
    }

    /// link = unit [ ("SL" or "SG") unit ]
    #[cycle(parts)]
    fn link(&mut self, depth: Depth) -> Result<u16, GrammarFault>
        requires room { Room self.old }
        ensures { Reads a_link self.old depth.count self.new result }
    {
        let left = self.unit(depth)?;
        // Not `takes`: one of two marks is sought, and which one it is matters.
        let mut ahead = self.reader;
        let placed = ahead.next()?;
        if let Some(op) = since_of(placed.sign) {
            self.reader = ahead;
            let side = self.table.middle(op, left);
            let right = self.unit(depth)?;
            return Ok(self.table.end(op, side, right));
        }
        Ok(left)
    }

    /// unit = prefix unit, or "(" form ")", or "true", "false", name
    #[cycle(parts)]
    fn unit(&mut self, depth: Depth) -> Result<u16, GrammarFault>
        requires room { Room self.old }
        ensures { Reads a_unit self.old depth.count self.new result }
    {
        let placed = self.reader.next()?;
        if let Some(op) = prefix_of(placed.sign) {
            let deeper = depth.deeper(placed.from)?;
            let first = self.table.lead(op);
            let inner = self.unit(deeper)?;
            return Ok(self.table.close(op, first, inner));
        }
        match placed.sign {
            Sign::Mark(Mark::Open) => {
                let inner = self.form(depth.deeper(placed.from)?)?;
                // Not the `expect` of `text`: this bracket is read in the cycle, whose contract speaks of the part.
                let partner = self.reader.next()?;
                if !is_mark(partner.sign, Mark::Close) {
                    return Err(GrammarFault::Misfit(partner.from));
                }
                Ok(inner)
            }
            Sign::Mark(Mark::True) => Ok(self.table.add(Line::Yes)),
            Sign::Mark(Mark::False) => Ok(self.table.add(Line::No)),
            Sign::Name(word) => match self.names.find(self.reader.text(), word) {
                Some(i) => Ok(self.table.add(Line::Atom(i))),
                None => Err(GrammarFault::Undeclared(placed.from)),
            },
            _ => Err(GrammarFault::Misfit(placed.from)),
        }
    }
}
