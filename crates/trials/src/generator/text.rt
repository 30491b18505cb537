// Drawn rules, each form with its text.
use crate::generator::random::Random;
use crate::generator::table::{draw_condition, draw_mark};
use std::alloc::{AllocError, Global};
use std::fmt::Write;

// A form without parts.
#[derive(Clone, Copy)]
pub enum Leaf {
    Yes,
    Mark(u8),
    Condition(u8),
}

// What stands before the part of a form that has one.
#[derive(Clone, Copy)]
pub enum Prefix {
    Not,
    // EX, EF and EG.
    SomeNext,
    SomeFuture,
    SomeAlways,
    // AX, AF and AG.
    EveryNext,
    EveryFuture,
    EveryAlways,
}

// What joins the parts of a form that has two.
#[derive(Clone, Copy)]
pub enum Join {
    And,
    Or,
    // E[p U q] and A[p U q].
    SomeUntil,
    EveryUntil,
}

// A form of a rule; its parts are numbers of earlier forms.
#[derive(Clone, Copy)]
pub enum Form {
    Leaf(Leaf),
    One(Prefix, usize),
    Two(Join, usize, usize),
}

// How close a form binds: `|`, then `&`, then all others.
#[derive(Clone, Copy, PartialEq, Eq, PartialOrd, Ord)]
enum Strength {
    Choice,
    Both,
    One,
}

// A form with its text, and how many rows its table has.
#[derive(Drop)]
pub struct Spelled {
    pub form: Form,
    pub text: String,
    pub rows: usize,
}

const MOST_FORMS: usize = 6;

// The word of a prefix.
fn word_of(prefix: Prefix) -> &'static str {
    match prefix {
        Prefix::Not => "!",
        Prefix::SomeNext => "EX ",
        Prefix::SomeFuture => "EF ",
        Prefix::SomeAlways => "EG ",
        Prefix::EveryNext => "AX ",
        Prefix::EveryFuture => "AF ",
        Prefix::EveryAlways => "AG ",
    }
}

fn strength_of(form: Form) -> Strength {
    match form {
        Form::Two(Join::Or, _, _) => Strength::Choice,
        Form::Two(Join::And, _, _) => Strength::Both,
        _ => Strength::One,
    }
}

// The text of a form as it is spelled, with the earlier forms, which its parts are among.
#[derive(Drop)]
struct Speller<'a> {
    random: &'a mut Random,
    forms: &'a [Spelled],
    text: String,
}

impl<'a> Speller<'a> {
    // A space or none.
    fn push_space(&mut self) -> Result<(), AllocError> {
        if self.random.one_in(2) {
            self.text.push(' ')?;
        }
        Ok(())
    }

    // A sign, with a space on either side or none.
    fn push_sign(&mut self, sign: &str) -> Result<(), AllocError> {
        self.push_space()?;
        self.text.push_str(sign)?;
        self.push_space()
    }

    // A part, in brackets where it binds less close than is wanted, and at times where it does not.
    fn push_part(&mut self, number: usize, wanted: Strength) -> Result<(), AllocError> {
        let Some(part) = self.forms.get(number) else {
            return Ok(());
        };
        if strength_of(part.form) >= wanted && !self.random.one_in(4) {
            return self.text.push_str(&part.text);
        }
        self.push_sign("(")?;
        self.text.push_str(&part.text)?;
        self.push_sign(")")
    }

    fn push_leaf(&mut self, leaf: Leaf) -> Result<(), AllocError> {
        match leaf {
            Leaf::Yes => self.text.push_str("yes"),
            Leaf::Mark(k) => write!(self.text, "m{k}"),
            Leaf::Condition(k) => write!(self.text, "c{k}"),
        }
    }

    fn push_one(&mut self, prefix: Prefix, p: usize) -> Result<(), AllocError> {
        self.text.push_str(word_of(prefix))?;
        self.push_part(p, Strength::One)
    }

    // A sign between two parts; equal signs group from the left.
    fn push_between(
        &mut self,
        p: usize,
        left: Strength,
        sign: &str,
        q: usize,
        right: Strength,
    ) -> Result<(), AllocError> {
        self.push_part(p, left)?;
        self.push_sign(sign)?;
        self.push_part(q, right)
    }

    fn push_until(&mut self, word: &str, p: usize, q: usize) -> Result<(), AllocError> {
        self.text.push_str(word)?;
        self.push_sign("[")?;
        self.push_part(p, Strength::Choice)?;
        self.text.push_str(" U ")?;
        self.push_part(q, Strength::Choice)?;
        self.push_sign("]")
    }

    fn push_two(&mut self, join: Join, p: usize, q: usize) -> Result<(), AllocError> {
        match join {
            Join::And => self.push_between(p, Strength::Both, "&", q, Strength::One),
            Join::Or => self.push_between(p, Strength::Choice, "|", q, Strength::Both),
            Join::SomeUntil => self.push_until("E", p, q),
            Join::EveryUntil => self.push_until("A", p, q),
        }
    }

    fn push_form(&mut self, form: Form) -> Result<(), AllocError> {
        match form {
            Form::Leaf(leaf) => self.push_leaf(leaf),
            Form::One(prefix, p) => self.push_one(prefix, p),
            Form::Two(join, p, q) => self.push_two(join, p, q),
        }
    }
}

// The text of a form.
fn spell(
    heap: Global,
    random: &mut Random,
    forms: &[Spelled],
    form: Form,
) -> Result<String, AllocError> {
    let mut speller = Speller {
        random,
        forms,
        text: String::new(heap),
    };
    speller.push_form(form)?;
    Ok(speller.text)
}

// How many rows a form has of its own.
fn own_rows(form: Form) -> usize {
    match form {
        Form::One(Prefix::SomeFuture, _) => 2,
        Form::One(Prefix::EveryNext | Prefix::EveryFuture, _) => 3,
        Form::One(Prefix::EveryAlways, _) => 4,
        Form::Two(Join::EveryUntil, _, _) => 7,
        _ => 1,
    }
}

// How many rows the table of a form has: its own and those of its parts.
fn count_rows(forms: &[Spelled], form: Form) -> usize {
    let rows = |number: usize| forms.get(number).map_or(0, |part| part.rows);
    let parts = match form {
        Form::Leaf(_) => 0,
        Form::One(_, p) => rows(p),
        Form::Two(_, p, q) => rows(p).saturating_add(rows(q)),
    };
    parts.saturating_add(own_rows(form))
}

// The number of a form before form `at`: the last of them, or any.
fn draw_part(random: &mut Random, at: usize) -> usize {
    if random.one_in(2) {
        at.saturating_sub(1)
    } else {
        random.below(at)
    }
}

fn draw_leaf(random: &mut Random, conditions: u32) -> Leaf {
    if random.one_in(8) {
        Leaf::Yes
    } else if conditions > 0 && random.one_in(3) {
        Leaf::Condition(draw_condition(random, conditions))
    } else {
        Leaf::Mark(draw_mark(random))
    }
}

// Form `at` of a rule.
fn draw_form(random: &mut Random, at: usize, conditions: u32) -> Form {
    if at == 0 {
        return Form::Leaf(draw_leaf(random, conditions));
    }
    let p = draw_part(random, at);
    let q = draw_part(random, at);
    match random.below(16) {
        0 | 1 => Form::One(Prefix::Not, p),
        2 => Form::Two(Join::And, p, q),
        3 => Form::Two(Join::Or, p, q),
        4 => Form::One(Prefix::SomeNext, p),
        5 => Form::One(Prefix::SomeFuture, p),
        6 => Form::One(Prefix::SomeAlways, p),
        7 => Form::Two(Join::SomeUntil, p, q),
        8 => Form::One(Prefix::EveryNext, p),
        9 => Form::One(Prefix::EveryFuture, p),
        10 => Form::One(Prefix::EveryAlways, p),
        11 | 12 => Form::Two(Join::EveryUntil, p, q),
        _ => Form::Leaf(draw_leaf(random, conditions)),
    }
}

// A rule: its forms, the last of which is the rule.
pub fn draw_rule(
    heap: Global,
    random: &mut Random,
    conditions: u32,
) -> Result<Vec<Spelled>, AllocError> {
    let mut forms = Vec::new(heap);
    let count = random.below(MOST_FORMS).saturating_add(2);
    for at in 0..count {
        let form = draw_form(random, at, conditions);
        let text = spell(heap, random, &forms, form)?;
        let rows = count_rows(&forms, form);
        forms.push(Spelled { form, text, rows })?;
    }
    Ok(forms)
}
