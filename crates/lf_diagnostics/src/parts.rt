//! Values that are of another kind than they have to be.

use crate::hint::{Words, in_quotes};
use crate::named::Class;
use crate::reader::{Part, Reader, is_number};
use crate::spot::Spot;
use crate::stop::Stop;
use lf_rules::Sort;

/// How many bytes of a piece of advice are told at most.
const LONGEST_ADVICE: usize = 200;

impl<'a> Reader<'a> {
    /// Refuses a value that is of another kind than is wanted, and says what wants it.
    pub fn wants(&self, part: &Part, wanted: Sort, why: &str) -> Result<(), Stop> {
        if part.sort.same(wanted) {
            return Ok(());
        }
        let words = Words::of(format_args!("{}, and {why}", self.words_of(part).as_str())).and_str(
            self.advice(part, wanted).as_str(),
            LONGEST_ADVICE,
        );
        Err(Stop::over(part.from, part.to, words))
    }

    /// Refuses a value that joins truth values by a word and is none.
    pub fn joins_truths(&self, part: &Part, by: &str) -> Result<(), Stop> {
        let more = match self.spot {
            Spot::Set if by == "and" => ", and assignments are parted by commas",
            _ => "",
        };
        let why = Words::of(format_args!("`{by}` joins truth values{more}"));
        self.wants(part, Sort::Truth, why.as_str())
    }

    /// Refuses a value that is neither a set of nodes nor the number of a node.
    pub fn wants_nodes(&self, part: &Part, why: &str) -> Result<(), Stop> {
        match part.sort {
            Sort::Number => Ok(()),
            _ => self.wants(part, Sort::Nodes, why),
        }
    }

    /// How a value of the wanted kind is made of one of another.
    pub fn advice(&self, part: &Part, wanted: Sort) -> Words {
        let source = self.source_of(part);
        match (wanted, part.sort) {
            (Sort::Truth, Sort::Number) if !is_number(source) => {
                Words::of(format_args!("; compare it: `{source} > 0`"))
            }
            (Sort::Truth, Sort::Nodes) if source != "{}" => {
                Words::of(format_args!("; compare it: `{source} != {{}}`"))
            }
            (Sort::Truth, Sort::Word(number)) => self.compared_word(part, self.variable(number)),
            (Sort::Number, Sort::Nodes) if source != "{}" => {
                Words::of(format_args!("; `count({source})` says how many it has"))
            }
            (Sort::Nodes, Sort::Number) => Words::of(format_args!(
                "; `{{{source}}}` is the set of that node alone"
            )),
            _ => Words::of(""),
        }
    }

    /// How a truth value is made of a word, or of a variable that is one.
    fn compared_word(&self, part: &Part, variable: &str) -> Words {
        let source = self.source_of(part);
        match self.name_of(part) {
            Some(known) if known.class == Class::Word => Words::of(format_args!(
                "; compare it: `{variable} = {source}`"
            )),
            _ => Words::of(format_args!(
                "; compare it: `{source} = {}`",
                self.first_word(variable)
            )),
        }
    }

    /// Refuses two values that are compared and are of different kinds.
    pub fn alike(&self, one: &Part, other: &Part) -> Result<(), Stop> {
        if one.sort.same(other.sort) {
            return Ok(());
        }
        let words = Words::of(format_args!(
            "two kinds are compared: {} is {}, and {} {}",
            in_quotes(self.source_of(one)).as_str(),
            self.words_of(one).as_str(),
            in_quotes(self.source_of(other)).as_str(),
            self.words_of(other).as_str()
        ));
        let words = words.and_str(self.alike_advice(one, other).as_str(), LONGEST_ADVICE);
        Err(Stop::over(one.from, other.to, words))
    }

    /// How two values of different kinds may be compared.
    fn alike_advice(&self, one: &Part, other: &Part) -> Words {
        match (one.sort, other.sort) {
            (Sort::Word(_), Sort::Word(_)) if self.is_variable(one) && self.is_variable(other) => {
                Words::of("; they can be compared if the kind of one is the name of the other")
            }
            (Sort::Nodes, Sort::Number) => self.advice(other, Sort::Nodes),
            (Sort::Number, Sort::Nodes) => self.advice(one, Sort::Nodes),
            (Sort::Truth, Sort::Number) => self.plain_truth(one, other),
            (Sort::Number, Sort::Truth) => self.plain_truth(other, one),
            _ => Words::of(""),
        }
    }

    /// Whether a value is a variable.
    fn is_variable(&self, part: &Part) -> bool {
        match self.name_of(part) {
            Some(known) => known.class.is_variable(),
            None => false,
        }
    }

    /// That a truth value is compared to neither 0 nor 1.
    fn plain_truth(&self, part: &Part, number: &Part) -> Words {
        let source = self.source_of(part);
        if source == "true" || source == "false" || !matches!(self.source_of(number), "0" | "1") {
            Words::of("")
        } else {
            Words::of(format_args!("; a truth value stands alone: `{source}`, or `not {source}`"))
        }
    }
}
