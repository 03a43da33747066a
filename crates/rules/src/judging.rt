// Whether a rule is sound: the truth tables of its two sides as words, one bit for each assignment of the holes, and one compare a word (01,
// Rules, 6; 02, 2026-07).
ghost use Rattle.std.specs.Prelude.{◌≡◌, true, ◌+◌, ◌*◌, ◌<◌, ◌≤◌, length, take, drop, IfOk};
ghost use Rattle.circuit.specs.Circuit.{first_gate};
ghost use Rattle.circuit.specs.Each.{all_gates};
ghost use Rattle.circuit.specs.Refusal.{operands_below};
ghost use Rattle.circuit.specs.Table.{lines_of};
ghost use Rattle.rules.specs.Rule.{max_holes, max_left_references};
ghost use Rattle.rules.specs.Remembered.{said, said_or, judged_rule, Placed, Remembered};
ghost use Rattle.rules.specs.Soundness.{side_value, is_sound};
ghost use Rattle.rules.specs.Words.{masked_holes, assignments_per_word, hole_word, start_words, same_words, words_for};

use crate::Verdict;
use crate::rule::{Rule, Rules};
use crate::table::{BINDINGS, MAX_RULES, RULE_NUMBERS};
use circuit::checked::{CONSTANTS, Kind};

// Assignments go in blocks of 64, a bit of a word each: block w begins with assignment 64 w. So many holes have masks, which are their words
// in every block, as a block has all assignments of theirs.
const MASKED_HOLES: u32 = 6;

const ZEROS: u64 = 0;

const ONES: u64 = 0xFFFF_FFFF_FFFF_FFFF;

// The words of the constants, then the masks: bit a of hole j's is bit j of a. Behind them is the room for the holes that have none and
// for a side's gates.
const START_WORDS: [u64; BINDINGS] = [
    ZEROS,
    ONES,
    0xAAAA_AAAA_AAAA_AAAA,
    0xCCCC_CCCC_CCCC_CCCC,
    0xF0F0_F0F0_F0F0_F0F0,
    0xFF00_FF00_FF00_FF00,
    0xFFFF_0000_FFFF_0000,
    0xFFFF_FFFF_0000_0000,
    0,
    0,
    0,
    0,
    0,
    0,
    0,
    0,
    0,
    0,
    0,
    0,
    0,
    0,
    0,
    0,
    0,
    0,
    0,
];

// What the judge has found, by rule number: the rule, or the verdict on it; None where it was not asked yet.
pub type Judgements<'a> = [Option<Result<Rule<'a>, Verdict>>; RULE_NUMBERS];

// The word of hole j, one that has no mask, in block w: all assignments there give it the same bit, bit j - 6 of w.
fn high_word(j: u32, w: u32) -> u64
    requires { (masked_holes ≤ j) × (j < max_holes) }
    ensures { result ≡ hole_word assignments_per_word (w * assignments_per_word) j }
{
    if (w >> (j - MASKED_HOLES)) % 2 == 1 {
        ONES
    } else {
        ZEROS
    }
}

// Writes the words of the holes that have no mask, for block w; those of the constants and the masks are there already.
fn set_high_words(words: &mut [u64; BINDINGS], holes: u32, w: u32)
    requires holes_le_max_holes { (holes ≤ max_holes) × (length words.old ≡ max_left_references) }
    requires words_value { take (first_gate masked_holes) words.old ≡ start_words assignments_per_word 0 masked_holes }
    ensures words_len { length words.new ≡ max_left_references }
    ensures words_after { take (first_gate holes) words.new ≡ start_words assignments_per_word (w * assignments_per_word) holes }
{
    for j in MASKED_HOLES..holes {
        words[(j + CONSTANTS) as usize] = high_word(j, w);
    }
}

// The word of reference r of a side whose n gate lines begin at number q. The gates' words are written behind those of the constants and
// holes.
fn side_word(
    t: &[u32],
    q: usize,
    n: usize,
    holes: usize,
    r: usize,
    words: &mut [u64; BINDINGS],
) -> u64
    requires holes_le_max_holes { (holes ≤ max_holes) × ((first_gate holes + n ≤ max_left_references) × (q + 3 * n ≤ length t.now)) }
    requires r_bound { r < first_gate holes + n }
    requires t_value { all_gates operands_below (first_gate holes) (lines_of n (drop q t.now)) ≡ true }
    requires words_len { length words.old ≡ max_left_references }
    ensures value { result ≡ side_value (lines_of n (drop q t.now)) r (take (first_gate holes) words.old) }
    ensures words_len_2 { length words.new ≡ max_left_references }
    ensures words_unchanged { take (first_gate holes) words.new ≡ take (first_gate holes) words.old }
{
    let base = holes + CONSTANTS as usize;
    for i in 0..n {
        let left = t[q + 3 * i + 1] as usize;
        let right = t[q + 3 * i + 2] as usize;
        // A rule has gates of no other kind.
        let kind = Kind::try_from(t[q + 3 * i]).unwrap_or(Kind::Xor);
        words[base + i] = kind.apply(words[left], words[right]);
    }
    words[r]
}

// Whether both sides of a rule agree on the assignments of block w.
fn same_words(rule: &Rule, w: u32) -> bool
    ensures { result ≡ same_words assignments_per_word (w * assignments_per_word) (said rule.now) }
{
    let t = rule.table;
    let holes = rule.holes();
    let lefts = rule.lefts() as usize;
    let rights = rule.rights() as usize;
    let root = rule.root() as usize;
    let closing = rule.closing() as usize;
    let mut words = START_WORDS;
    set_high_words(&mut words, holes, w);
    let left = side_word(t, rule.left_from(), lefts, holes as usize, root, &mut words);
    let right = side_word(
        t,
        rule.right_from(),
        rights,
        holes as usize,
        closing,
        &mut words,
    );
    left == right
}

// How many words the assignments of some holes fill: one up to six holes, and twice as many with each hole from there on.
fn words_for(holes: u32) -> u32
    requires { holes ≤ max_holes }
    ensures { result ≡ words_for holes }
{
    if holes <= MASKED_HOLES {
        1
    } else {
        1u32 << (holes - MASKED_HOLES)
    }
}

// Whether a rule is sound: the first word that differs ends it.
fn is_sound(rule: &Rule) -> bool
    ensures { result ≡ is_sound (said rule.now) }
{
    for w in 0..words_for(rule.holes()) {
        if !same_words(rule, w) {
            return false;
        }
    }
    true
}

impl<'a> Rules<'a> {
    // The rule of a number, or the judge's verdict on it.
    pub fn judged(&self, number: u32) -> Result<Rule<'a>, Verdict>
        ensures value { said_or result ≡ judged_rule self.now.table.now number }
        ensures placed { IfOk result (Placed self.now.table.now number) }
    {
        let Some(rule) = self.rule(number) else {
            return Err(Verdict::NoRule);
        };
        if !is_sound(&rule) {
            return Err(Verdict::NotSound);
        }
        Ok(rule)
    }

    // The same, worked out if `known` does not have it yet, and then kept there. A number beyond every table's rules needs no entry.
    pub fn judged_once(&self, number: u32, known: &mut Judgements<'a>) -> Result<Rule<'a>, Verdict>
        requires { Remembered self.now.table.now known.old }
        ensures value { said_or result ≡ judged_rule self.now.table.now number }
        ensures placed { IfOk result (Placed self.now.table.now number) }
        ensures remembered { Remembered self.now.table.now known.new }
    {
        if MAX_RULES < number {
            return Err(Verdict::NoRule);
        }
        let k = number as usize;
        if let Some(judged) = known[k] {
            return judged;
        }
        let judged = self.judged(number);
        known[k] = Some(judged);
        judged
    }
}
