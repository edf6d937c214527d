//! Potentials of programs that may loop: a number that a linear form in lengths and values is at least, by what is
//! known of these.
#![tactic(auto)]

ghost use Rattle.std.specs.Prelude.{◌≡◌, ◌↔◌, ◌<◌, ◌≤◌, ◌+◌, ◌*◌, ◌^◌, ℕ, ℤ, pos, ◌*ℤ◌, ◌+ℤ◌, ◌≤ℤ◌, IsTrue, List};
ghost use Rattle.std.specs.Prelude.{length, unsigned_abs};
ghost use Rattle.span_context.specs.Context.{text_limit, link_limit};
ghost use Rattle.potentials.specs.Values.{AreFree, IsAtLeast, IsReached};
ghost use Rattle.potentials.specs.Least.{without, at_length, by_link, paid_by_text, paid_by_link, at_value, least_of};

use span_context::context::{LINK_LIMIT, TEXT_LIMIT};

/// A constant, so many for each byte of the text, and for each of the link's text.
#[derive(Clone, Copy)]
pub struct Form {
    pub constant: i128,
    pub per_byte: i64,
    pub per_link_byte: i64,
}

/// A value that is taken from a form by a weight, and what is known of it.
#[derive(Clone, Copy)]
pub struct Weighed {
    pub weight: i32,
    pub low: u64,
    pub high: u64,
    /// The value and this are at most the text's length.
    pub tail: Option<u32>,
    /// The value and this are at most the length of the link's text.
    pub link_tail: Option<u32>,
}

/// A weight times a number.
fn times(weight: i32, count: u64) -> i128
    ensures value { result ≡ weight *ℤ pos count }
    ensures small { unsigned_abs result ≤ 2 ^ 95 }
{
    i128::from(weight) * i128::from(count)
}

/// What each byte has, where the form is least.
fn at_length(per: i64, least: u32, limit: u32) -> i128
    ensures rule { result ≡ at_length per least limit }
    ensures small { unsigned_abs result ≤ 2 ^ 95 }
{
    let length = if per < 0 { limit } else { least };
    i128::from(per) * i128::from(length)
}

impl Form {
    /// The form at a value.
    fn at_value(self, weight: i32, value: u64) -> Form
        requires { unsigned_abs self.constant < 2 ^ 120 }
        ensures rule { result ≡ at_value self weight value }
        ensures room { unsigned_abs result.constant ≤ unsigned_abs self.constant + 2 ^ 95 }
    {
        Form {
            constant: self.constant - times(weight, value),
            ..self
        }
    }

    /// The form without a value whose weight the text's bytes pay.
    fn paid_by_text(self, weight: i32, tail: u32) -> Form
        requires room { unsigned_abs self.constant < 2 ^ 120 }
        requires natural { pos 0 ≤ℤ weight }
        requires enough { weight ≤ℤ self.per_byte }
        ensures rule { result ≡ paid_by_text self weight tail }
        ensures room { unsigned_abs result.constant ≤ unsigned_abs self.constant + 2 ^ 95 }
    {
        Form {
            constant: self.constant + times(weight, u64::from(tail)),
            per_byte: self.per_byte - i64::from(weight),
            ..self
        }
    }

    /// The form without a value whose weight the bytes of the link's text pay.
    fn paid_by_link(self, weight: i32, tail: u32) -> Form
        requires room { unsigned_abs self.constant < 2 ^ 120 }
        requires natural { pos 0 ≤ℤ weight }
        requires enough { weight ≤ℤ self.per_link_byte }
        ensures rule { result ≡ paid_by_link self weight tail }
        ensures room { unsigned_abs result.constant ≤ unsigned_abs self.constant + 2 ^ 95 }
    {
        Form {
            constant: self.constant + times(weight, u64::from(tail)),
            per_link_byte: self.per_link_byte - i64::from(weight),
            ..self
        }
    }

    /// The form without a value of a weight that isn't negative and that the text doesn't pay.
    fn by_link(self, weighed: &Weighed) -> Form
        requires room { unsigned_abs self.constant < 2 ^ 120 }
        requires natural { pos 0 ≤ℤ weighed.now.weight }
        ensures rule { result ≡ by_link self weighed.now weighed.now.link_tail }
        ensures room { unsigned_abs result.constant ≤ unsigned_abs self.constant + 2 ^ 95 }
    {
        match weighed.link_tail {
            Some(tail) if i64::from(weighed.weight) <= self.per_link_byte => {
                self.paid_by_link(weighed.weight, tail)
            }
            _ => self.at_value(weighed.weight, weighed.high),
        }
    }

    /// The form without a value, which is taken where the form is least, or paid by what each byte has.
    #[tactic(auto, unfolding(crate::specs::Least::without))]
    fn without(self, weighed: &Weighed) -> Form
        requires { unsigned_abs self.constant < 2 ^ 120 }
        ensures rule { result ≡ without self weighed.now }
        ensures room { unsigned_abs result.constant ≤ unsigned_abs self.constant + 2 ^ 95 }
    {
        if weighed.weight < 0 {
            return self.at_value(weighed.weight, weighed.low);
        }
        match weighed.tail {
            Some(tail) if i64::from(weighed.weight) <= self.per_byte => {
                self.paid_by_text(weighed.weight, tail)
            }
            _ => self.by_link(weighed),
        }
    }
}

/// A number that the form less the values is at least, where text and link's text have at least so many bytes.
pub fn least(form: &Form, weighed: &[Weighed], text: u32, link: u32) -> i128
    requires few { length weighed.now ≤ 75 }
    requires room { unsigned_abs form.now.constant < 2 ^ 100 }
    ensures rule { result ≡ least_of form.now weighed.now text link }
    ensures sound { IsAtLeast form.now weighed.now text link result }
    ensures reached { AreFree weighed.now → text ≤ text_limit → link ≤ link_limit
        → IsReached form.now weighed.now text link result }
{
    let mut left = *form;
    for value in weighed {
        left = left.without(value);
    }
    left.constant
        + (at_length(left.per_byte, text, TEXT_LIMIT as u32)
            + at_length(left.per_link_byte, link, LINK_LIMIT as u32))
}

/// Whether the form less the values is at least 1, by that number: as what is between a potential and the next one is
/// where it falls.
pub fn falls(form: &Form, weighed: &[Weighed], text: u32, link: u32) -> bool
    requires few { length weighed.now ≤ 75 }
    requires room { unsigned_abs form.now.constant < 2 ^ 100 }
    ensures rule { IsTrue result ↔ pos 1 ≤ℤ least_of form.now weighed.now text link }
    ensures sound { IsTrue result → IsAtLeast form.now weighed.now text link (pos 1) }
    ensures exact { AreFree weighed.now → text ≤ text_limit → link ≤ link_limit
        → IsAtLeast form.now weighed.now text link (pos 1) → IsTrue result }
{
    least(form, weighed, text, link) >= 1
}
