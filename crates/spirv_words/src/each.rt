// Lists of operands, each word of which has the same rule.

ghost use Rattle.std.specs.Prelude.{◌≡◌, ◌+◌, ◌<◌, ◌^◌, ◌++◌, length, map};
ghost use Rattle.spirv_words.specs.Known.{history};
ghost use Rattle.spirv_model.specs.FirstBad.{first_fault};

use crate::decoration::{is_offset_of, takes_value};
use crate::known::Known;
use crate::verdict::{first_wrong, shape};
use spirv_model::{ModuleFault, ModuleKind};

/// The rule of each word of a list of operands.
#[derive(Clone, Copy)]
pub enum Each {
    /// An id that may be made later.
    Later,
    /// A value of this decoration.
    DecorationValue(u32),
    /// The offset of this member.
    Offset(u32),
    /// The type of words, as a member of a structure.
    Member,
    /// The first value of a variable of this type and class.
    FirstValue { variable_type: u32, class: u32 },
    /// A word, as an index.
    Word,
    /// An id that the module makes anywhere.
    MadeAtAll,
}

impl Known<'_> {
    ghost use Rattle.spirv_words.specs.Rules.{rule_of};

    /// The rule of a word of a list.
    #[tactic(auto, unfolding(crate::specs::Rules::rule_of))]
    fn rule(&self, each: Each, word: u32) -> Option<ModuleKind>
        ensures { result ≡ rule_of self.now each word }
    {
        match each {
            Each::Later => self.later(word),
            Each::DecorationValue(decoration) => shape(takes_value(decoration, word)),
            Each::Offset(member) => shape(is_offset_of(member, word)),
            Each::Member => self.word_type(word),
            Each::FirstValue {
                variable_type,
                class,
            } => self.first_value(variable_type, class, word),
            Each::Word => self.word(word),
            Each::MadeAtAll => self.made_at_all(word),
        }
    }

    /// The first word of a list that is wrong.
    fn listed_alone(&self, at: u32, each: Each, words: &[u32]) -> Option<ModuleFault>
        requires { at + length words.now < 2 ^ 32 }
        ensures { result ≡ first_fault at (map (rule_of self.now each) words.now) }
    {
        let mut word = at;
        let mut rest = words;
        'words: while let [operand, more @ ..] = rest {
            if let Some(kind) = self.rule(each, *operand) {
                return Some(ModuleFault { word, kind });
            }
            word += 1;
            rest = more;
        }
        None
    }

    /// The first word that is wrong of some operands, and then of a list.
    #[tactic(auto, using(crate::proofs::Lists::fault_of_both))]
    pub fn listed(
        &self,
        at: u32,
        head: &[Option<ModuleKind>],
        each: Each,
        words: &[u32],
    ) -> Option<ModuleFault>
        requires { at + length head.now + length words.now < 2 ^ 32 }
        ensures { result ≡ first_fault at (head.now ++ map (rule_of self.now each) words.now) }
    {
        match first_wrong(at, head) {
            Some(fault) => Some(fault),
            None => self.listed_alone(at + head.len() as u32, each, words),
        }
    }
}
