// The rules by which a call refuses, each with its number, and the refusal of a call.

ghost use Rattle.std.specs.Prelude.{◌≡◌};
ghost use Rattle.model.specs.Rules.{ask};
ghost use Rattle.tree_file.specs.Refusals.{rule_number, verdict_of};

// What a rule is about.
#[derive(Clone, Copy, PartialEq, Eq, Debug)]
pub enum Rule {
    Header = 1,
    Mark = 2,
    Version = 3,
    Nodes = 4,
    Budget = 5,
    Size = 6,
    Parent = 7,
    Depth = 8,
    Length = 9,
    Flow = 10,
    Hit = 11,
    Set = 12,
    Scratch = 13,
    Buffers = 14,
    Program = 15,
    Site = 16,
    Cachable = 17,
    Open = 24,
}

// The first broken rule and its record, 0 for a rule that names none.
#[derive(Clone, Copy, PartialEq, Eq, Debug)]
pub struct Refusal {
    pub rule: Rule,
    pub record: u16,
}

impl Rule {
    pub fn number(self) -> u8
        ensures { result ≡ rule_number self }
    {
        self as u8
    }

    // A refusal by this rule where it does not hold.
    pub fn ask(self, holds: bool) -> Result<(), Refusal>
        ensures { verdict_of result ≡ ask (rule_number self) 0 holds }
    {
        self.ask_of(0, holds)
    }

    // A refusal by this rule, with its record, where it does not hold of the record.
    pub fn ask_of(self, record: u16, holds: bool) -> Result<(), Refusal>
        ensures { verdict_of result ≡ ask (rule_number self) «record» holds }
    {
        if holds {
            Ok(())
        } else {
            Err(Refusal { rule: self, record })
        }
    }
}
