//! The rules that a source can fail, by their numbers, and their texts.

ghost use Rattle.std.specs.Prelude.{◌≡◌, codes, find, map, nat_eq, option_map};
ghost use Rattle.std.specs.Option.{option_copied};
ghost use Rattle.cl_rules.specs.Rules.{row, rule_text, text_in};

use std::fmt;

/// The text of each rule, beside its number.
const TEXTS: [(u8, &str); 35] = [
    (1, "source too long"),
    (2, "byte not allowed"),
    (3, "no token"),
    (4, "unfinished piece"),
    (5, "unsupported directive"),
    (6, "no reading"),
    (7, "bad literal"),
    (8, "pointer"),
    (9, "floating type"),
    (10, "not JSON"),
    (11, "wrong shape"),
    (12, "label defined twice"),
    (13, "unknown label"),
    (14, "bad region"),
    (15, "two labels"),
    (16, "wrong kind of label"),
    (17, "taints do not fit"),
    (18, "unknown name"),
    (19, "declared twice"),
    (20, "wrong type"),
    (21, "too large"),
    (22, "no main or no level"),
    (23, "limit passed"),
    (24, "two levels"),
    (25, "foreign global"),
    (26, "no cdf entry"),
    (27, "wrong direction"),
    (28, "cycle of levels"),
    (29, "array aliased"),
    (30, "payload too wide"),
    (31, "label on argument"),
    (32, "label on store"),
    (33, "label in body"),
    (34, "label on output"),
    (35, "label not shareable"),
];

/// What the table has under a number, or an empty text.
fn text_in(mut table: &[(u8, &'static str)], number: u8) -> &'static str
    ensures { result.now ≡ text_in (map (λ entry. row entry.0 entry.1.now) table.entry.now) number }
{
    while let [first, rest @ ..] = table {
        if first.0 == number {
            return first.1;
        }
        table = rest;
    }
    ""
}

/// The text of the rule with this number. A number that no rule has gets an empty text.
#[tactic(auto, unfolding(crate::specs::Rules::rule_text))]
pub fn text_of(number: u8) -> &'static str
    ensures { result.now ≡ rule_text number }
{
    text_in(&TEXTS, number)
}

/// The rule that a source fails first, by its number, and the line at which it does.
#[derive(Clone, Copy, Debug, PartialEq, Eq)]
pub struct Refusal {
    pub rule: u8,
    pub line: u32,
}

impl fmt::Display for Refusal {
    ghost use Rattle.std.specs.Prelude.{Some};
    ghost use Rattle.cl_rules.specs.Shown.{shown};

    ghost output = { λ refusal. Some (shown refusal) };

    #[tactic(auto, unfolding(crate::specs::Shown::shown))]
    fn fmt<W: fmt::Write>(&self, f: &mut fmt::Formatter<W>) -> fmt::Result {
        let tens = self.rule / 10;
        let ones = self.rule % 10;
        let line = self.line;
        let text = text_of(self.rule);
        write!(f, "E{tens}{ones} at {line}: {text}")
    }
}
