//! The lines of a policy (its subformulas), as a table that is written while a text is read.
//!
//! A line is an atom, a constant or an operation on lines above it (src/line.rt). What a rule says is a form
//! (specs/Forms.antt); which lines a form becomes is specs/Tables.antt, and which form a line stands for
//! specs/Stands.antt. `Table` takes the lines of a form piece by piece; `Policy` is a whole table, well-formed in
//! its type. Rests on `refusals`.
#![tactic(auto)]

ghost use Rattle.std.specs.Prelude.{◌≡◌, ℕ, ◌+◌, ◌<◌, ◌≤◌, true, List, [], ◌∷◌, length};
ghost use Rattle.lines.specs.declared.line.Line.{Line};
ghost use Rattle.lines.specs.declared.line.Line.TheVariants.{Not};
ghost use Rattle.lines.specs.Policies.{lines_of, Makes, refusal_of};
ghost use Rattle.lines.specs.Stands.{well_formed};
ghost use Rattle.lines.specs.Tables.{leading_lines, closing_lines, middle_lines, ending_lines, leading_count, closing_count, middle_count, ending_count};
ghost use Rattle.lines.specs.Written.{kept_lines, Adds};

mod fault;
mod line;
mod policy;
mod table;

pub use fault::LineFault;
pub use line::{Infix, Line, Prefix};
pub use policy::Policy;
use refusals::{Layer, Refusal};
pub use table::Table;

/// The most lines that a policy may have.
pub const MOST_LINES: u16 = 128;

// The steps that write ask for room in the count and for the last line's number: docs/DECISIONS.md says why.
impl Table {
    /// A table of no lines.
    pub fn new() -> Table
        ensures count { result.count ≡ 0 }
        ensures lines { kept_lines result ≡ [] }
    {
        Table {
            kept: [Line::No; MOST_LINES as usize],
            count: 0,
        }
    }

    /// How many lines the rule has so far.
    pub fn count(&self) -> u16
        ensures { result ≡ self.now.count }
    {
        self.count
    }

    /// Writes a line, and says its number.
    pub fn add(&mut self, line: Line) -> u16
        requires few { self.old.count < 65000 }
        ensures value { result ≡ self.old.count }
        ensures count { self.new.count ≡ self.old.count + 1 }
        ensures lines { Adds (kept_lines self.old) (line ∷ []) (kept_lines self.new) }
    {
        let at = self.count;
        if at < MOST_LINES {
            self.kept[at as usize] = line;
        }
        self.count = at + 1;
        at
    }

    /// Writes the three lines of `~(f op ~g)`, where `line` makes that of `op` and f and g end with these lines. Says
    /// the number of the last one.
    fn add_negated<F: FnOnce(u16, u16) -> Line>(&mut self, line: F, first: u16, last: u16) -> u16
        requires call { F.IsAlwaysCallable line }
        requires few { self.old.count < 64000 }
        requires last { last + 1 ≡ self.old.count }
        ensures value { result ≡ last + 3 }
        ensures count { self.new.count ≡ self.old.count + 3 }
        ensures lines { (op : Line) × F.post line first (last + 1) op × Adds (kept_lines self.old) (Not last ∷ op ∷ Not (last + 2) ∷ []) (kept_lines self.new) }
    {
        let not = self.add(Line::Not(last));
        let joined = self.add(line(first, not));
        self.add(Line::Not(joined))
    }

    /// Writes what a prefix has before the lines of its part, and says the number of its first line.
    pub fn lead(&mut self, op: Prefix) -> u16
        requires few { self.old.count < 64000 }
        ensures value { result ≡ self.old.count }
        ensures count { self.new.count ≡ self.old.count + leading_count op }
        ensures lines { Adds (kept_lines self.old) (leading_lines op) (kept_lines self.new) }
    {
        match op {
            Prefix::OL | Prefix::HL | Prefix::OG | Prefix::HG => self.add(Line::Yes),
            Prefix::Not | Prefix::YL | Prefix::YG => self.count,
        }
    }

    /// Writes what a prefix has behind the lines of its part, of which `last` is the last, where its own first
    /// line is `first`. Says the number of its last line.
    pub fn close(&mut self, op: Prefix, first: u16, last: u16) -> u16
        requires few { self.old.count < 64000 }
        requires last { last + 1 ≡ self.old.count }
        ensures value { result ≡ last + closing_count op }
        ensures count { self.new.count ≡ self.old.count + closing_count op }
        ensures lines { Adds (kept_lines self.old) (closing_lines op first last) (kept_lines self.new) }
    {
        match op {
            Prefix::Not => self.add(Line::Not(last)),
            Prefix::YL => self.add(Line::YL(last)),
            Prefix::YG => self.add(Line::YG(last)),
            Prefix::OL => self.add(Line::SL(first, last)),
            Prefix::OG => self.add(Line::SG(first, last)),
            Prefix::HL => self.add_negated(Line::SL, first, last),
            Prefix::HG => self.add_negated(Line::SG, first, last),
        }
    }

    /// Writes what an infix has between the lines of its parts, where `last` is the left one's last. Says which
    /// line stands for the left side.
    pub fn middle(&mut self, op: Infix, last: u16) -> u16
        requires few { self.old.count < 64000 }
        requires last { last + 1 ≡ self.old.count }
        ensures value { result ≡ last + middle_count op }
        ensures count { self.new.count ≡ self.old.count + middle_count op }
        ensures lines { Adds (kept_lines self.old) (middle_lines op last) (kept_lines self.new) }
    {
        match op {
            Infix::And | Infix::Implies => self.add(Line::Not(last)),
            Infix::SL | Infix::SG | Infix::Or => last,
        }
    }

    /// Writes what an infix has behind the lines of its parts, where `left` stands for the left side and `last` is
    /// the right part's last line. Says the number of its last line.
    pub fn end(&mut self, op: Infix, left: u16, last: u16) -> u16
        requires few { self.old.count < 64000 }
        requires last { last + 1 ≡ self.old.count }
        ensures value { result ≡ last + ending_count op }
        ensures count { self.new.count ≡ self.old.count + ending_count op }
        ensures lines { Adds (kept_lines self.old) (ending_lines op left last) (kept_lines self.new) }
    {
        match op {
            Infix::SL => self.add(Line::SL(left, last)),
            Infix::SG => self.add(Line::SG(left, last)),
            Infix::Or | Infix::Implies => self.add(Line::Or(left, last)),
            Infix::And => self.add_negated(Line::Or, left, last),
        }
    }
}

/// The fault's row in the refusal table.
impl From<LineFault> for Refusal {
    ghost from_gives = { λ f r. r ≡ refusal_of f };

    fn from(fault: LineFault) -> Refusal {
        let LineFault::ManyLines(place) = fault;
        Refusal {
            number: 9,
            layer: Layer::Lines,
            place,
        }
    }
}

impl Policy {
    /// The policy of a whole table over this many atoms, read from a text of `length` bytes. A table of over 128
    /// lines is refused.
    pub fn new(atoms: u8, table: Table, length: usize) -> Result<Policy, LineFault>
        requires named { (1 ≤ atoms) × (atoms ≤ 32) }
        requires lined { 1 ≤ table.count }
        requires formed { well_formed atoms 0 (kept_lines table) ≡ true }
        ensures { Makes atoms table length result }
    {
        if table.count > MOST_LINES {
            return Err(LineFault::ManyLines(length));
        }
        Ok(Policy { atoms, table })
    }

    /// How many atoms the policy declares.
    pub fn atoms(&self) -> usize
        ensures { result ≡ self.now.atoms }
    {
        self.atoms as usize
    }

    /// The lines, in their order.
    pub fn lines(&self) -> &[Line]
        ensures { result.now ≡ lines_of self.now }
    {
        &self.table.kept[..self.table.count as usize]
    }
}
