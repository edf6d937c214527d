ghost use Rattle.std.specs.Prelude.{◌≡◌, option_map};
ghost use Rattle.assembler_lines.specs.Scanning.{terms_seen};
ghost use Rattle.assembler_lines.specs.Lending.{bytes_seen, value_seen, target_seen, address_seen, behind_seen};
ghost use Rattle.assembler_lines.specs.Lending.{taken_seen};
ghost use Rattle.assembler_lines.specs.Shapes.{comma_at, open_at, close_at, end_at, name_at, number_at, signed_at};
ghost use Rattle.assembler_lines.specs.Shapes.{constant_at, wide_at, value_at, target_at, address_at, lone_name};
ghost use Rattle.assembler_lines.specs.Shapes.{two_names, name_and_value, name_and_wide, name_and_address};
ghost use Rattle.assembler_lines.specs.Shapes.{address_and_constant, address_and_name, lone_target};
ghost use Rattle.assembler_lines.specs.Shapes.{name_value_and_target};

use crate::statement::{Address, Target, Value};
use crate::token::{Numeral, Sign, SignedNumeral, Term};

fn comma<'t, 'a>(terms: &'t [Term<'a>]) -> Option<&'t [Term<'a>]>
    ensures { behind_seen result ≡ comma_at (terms_seen terms.now) }
{
    match terms.split_first()? {
        (Term::Symbol(Sign::Comma), behind) => Some(behind),
        _ => None,
    }
}

fn open<'t, 'a>(terms: &'t [Term<'a>]) -> Option<&'t [Term<'a>]>
    ensures { behind_seen result ≡ open_at (terms_seen terms.now) }
{
    match terms.split_first()? {
        (Term::Symbol(Sign::Open), behind) => Some(behind),
        _ => None,
    }
}

fn close<'t, 'a>(terms: &'t [Term<'a>]) -> Option<&'t [Term<'a>]>
    ensures { behind_seen result ≡ close_at (terms_seen terms.now) }
{
    match terms.split_first()? {
        (Term::Symbol(Sign::Close), behind) => Some(behind),
        _ => None,
    }
}

/// Nothing more.
fn end(terms: &[Term<'_>]) -> Option<()>
    ensures { option_map (λ x. terms_seen terms.now) result ≡ end_at (terms_seen terms.now) }
{
    if terms.is_empty() { Some(()) } else { None }
}

#[tactic(auto, unfolding(crate::specs::Shapes::name_at))]
fn name<'t, 'a>(terms: &'t [Term<'a>]) -> Option<(&'a [u8], &'t [Term<'a>])>
    ensures { taken_seen bytes_seen result ≡ name_at (terms_seen terms.now) }
{
    match terms.split_first()? {
        (Term::Name(word), behind) => Some((*word, behind)),
        _ => None,
    }
}

fn number<'t, 'a>(terms: &'t [Term<'a>]) -> Option<(Numeral, &'t [Term<'a>])>
    ensures { taken_seen (λ numeral. numeral) result ≡ number_at (terms_seen terms.now) }
{
    match terms.split_first()? {
        (Term::Number(numeral), behind) => Some((*numeral, behind)),
        _ => None,
    }
}

/// A number with its sign.
#[tactic(auto, unfolding(crate::specs::Shapes::signed_at))]
fn signed<'t, 'a>(terms: &'t [Term<'a>]) -> Option<(SignedNumeral, &'t [Term<'a>])>
    ensures { taken_seen (λ number. number) result ≡ signed_at (terms_seen terms.now) }
{
    let (negative, behind) = match terms.split_first()? {
        (Term::Symbol(Sign::Plus), behind) => (false, behind),
        (Term::Symbol(Sign::Minus), behind) => (true, behind),
        _ => return None,
    };
    let (numeral, behind) = number(behind)?;
    Some((SignedNumeral { negative, numeral }, behind))
}

/// An immediate: a number, or `-` and a decimal number.
#[tactic(auto, unfolding(crate::specs::Shapes::constant_at))]
fn constant<'t, 'a>(terms: &'t [Term<'a>]) -> Option<(SignedNumeral, &'t [Term<'a>])>
    ensures { taken_seen (λ number. number) result ≡ constant_at (terms_seen terms.now) }
{
    match terms.split_first()? {
        (Term::Number(numeral), behind) => {
            let negative = false;
            let numeral = *numeral;
            Some((SignedNumeral { negative, numeral }, behind))
        }
        (Term::Symbol(Sign::Minus), behind) => {
            let (numeral, behind) = number(behind)?;
            if numeral.hexadecimal {
                return None;
            }
            let negative = true;
            Some((SignedNumeral { negative, numeral }, behind))
        }
        _ => None,
    }
}

/// A wide load's number. One with a sign is out of its range.
#[tactic(auto, unfolding(crate::specs::Shapes::wide_at))]
fn wide<'t, 'a>(terms: &'t [Term<'a>]) -> Option<(Option<u64>, &'t [Term<'a>])>
    ensures { taken_seen (λ value. value) result ≡ wide_at (terms_seen terms.now) }
{
    if let Some((numeral, behind)) = number(terms) {
        return Some((numeral.value, behind));
    }
    let (_, behind) = signed(terms)?;
    Some((None, behind))
}

/// A register's name, or an immediate.
#[tactic(auto, unfolding(crate::specs::Shapes::value_at))]
fn value<'t, 'a>(terms: &'t [Term<'a>]) -> Option<(Value<'a>, &'t [Term<'a>])>
    ensures { taken_seen value_seen result ≡ value_at (terms_seen terms.now) }
{
    if let Some((word, behind)) = name(terms) {
        return Some((Value::Named(word), behind));
    }
    let (number, behind) = constant(terms)?;
    Some((Value::Constant(number), behind))
}

/// A label, or a distance.
#[tactic(auto, unfolding(crate::specs::Shapes::target_at))]
fn target<'t, 'a>(terms: &'t [Term<'a>]) -> Option<(Target<'a>, &'t [Term<'a>])>
    ensures { taken_seen target_seen result ≡ target_at (terms_seen terms.now) }
{
    if let Some((word, behind)) = name(terms) {
        return Some((Target::AtLabel(word), behind));
    }
    let (number, behind) = signed(terms)?;
    Some((Target::Distance(number), behind))
}

/// `[rS+N]`
#[tactic(auto, unfolding(crate::specs::Shapes::address_at))]
fn address<'t, 'a>(terms: &'t [Term<'a>]) -> Option<(Address<'a>, &'t [Term<'a>])>
    ensures { taken_seen address_seen result ≡ address_at (terms_seen terms.now) }
{
    let inner = open(terms)?;
    let (base, behind) = name(inner)?;
    let (offset, behind) = signed(behind)?;
    let behind = close(behind)?;
    Some((Address { base, offset }, behind))
}

/// `rD`
#[tactic(auto, unfolding(crate::specs::Shapes::lone_name))]
pub(crate) fn only_name<'a>(terms: &[Term<'a>]) -> Option<&'a [u8]>
    ensures { option_map (bytes_seen) result ≡ lone_name (terms_seen terms.now) }
{
    let (word, behind) = name(terms)?;
    end(behind)?;
    Some(word)
}

/// `rD, rS`
#[tactic(auto, unfolding(crate::specs::Shapes::two_names))]
pub(crate) fn names<'a>(terms: &[Term<'a>]) -> Option<(&'a [u8], &'a [u8])>
    ensures { option_map (λ x. (bytes_seen x.0, bytes_seen x.1)) result ≡ two_names (terms_seen terms.now) }
{
    let (first, behind) = name(terms)?;
    let second = only_name(comma(behind)?)?;
    Some((first, second))
}

/// `rD, rS` and `rD, N`
#[tactic(auto, unfolding(crate::specs::Shapes::name_and_value))]
pub(crate) fn name_then_value<'a>(terms: &[Term<'a>]) -> Option<(&'a [u8], Value<'a>)>
    ensures { option_map (λ x. (bytes_seen x.0, value_seen x.1)) result ≡ name_and_value (terms_seen terms.now) }
{
    let (word, behind) = name(terms)?;
    let (value, behind) = value(comma(behind)?)?;
    end(behind)?;
    Some((word, value))
}

/// `rD, N` of a wide load
#[tactic(auto, unfolding(crate::specs::Shapes::name_and_wide))]
pub(crate) fn name_then_wide<'a>(terms: &[Term<'a>]) -> Option<(&'a [u8], Option<u64>)>
    ensures { option_map (λ x. (bytes_seen x.0, x.1)) result ≡ name_and_wide (terms_seen terms.now) }
{
    let (word, behind) = name(terms)?;
    let (wide, behind) = wide(comma(behind)?)?;
    end(behind)?;
    Some((word, wide))
}

/// `rD, [rS+N]`
#[tactic(auto, unfolding(crate::specs::Shapes::name_and_address))]
pub(crate) fn name_then_address<'a>(terms: &[Term<'a>]) -> Option<(&'a [u8], Address<'a>)>
    ensures { option_map (λ x. (bytes_seen x.0, address_seen x.1)) result ≡ name_and_address (terms_seen terms.now) }
{
    let (word, behind) = name(terms)?;
    let (address, behind) = address(comma(behind)?)?;
    end(behind)?;
    Some((word, address))
}

/// `[rD+N], N`
#[tactic(auto, unfolding(crate::specs::Shapes::address_and_constant))]
pub(crate) fn address_then_constant<'a>(terms: &[Term<'a>]) -> Option<(Address<'a>, SignedNumeral)>
    ensures { option_map (λ x. (address_seen x.0, x.1)) result ≡ address_and_constant (terms_seen terms.now) }
{
    let (address, behind) = address(terms)?;
    let (constant, behind) = constant(comma(behind)?)?;
    end(behind)?;
    Some((address, constant))
}

/// `[rD+N], rS`
#[tactic(auto, unfolding(crate::specs::Shapes::address_and_name))]
pub(crate) fn address_then_name<'a>(terms: &[Term<'a>]) -> Option<(Address<'a>, &'a [u8])>
    ensures { option_map (λ x. (address_seen x.0, bytes_seen x.1)) result ≡ address_and_name (terms_seen terms.now) }
{
    let (address, behind) = address(terms)?;
    let word = only_name(comma(behind)?)?;
    Some((address, word))
}

/// `T`
#[tactic(auto, unfolding(crate::specs::Shapes::lone_target))]
pub(crate) fn only_target<'a>(terms: &[Term<'a>]) -> Option<Target<'a>>
    ensures { option_map (target_seen) result ≡ lone_target (terms_seen terms.now) }
{
    let (target, behind) = target(terms)?;
    end(behind)?;
    Some(target)
}

/// `rD, rS, T` and `rD, N, T`
#[tactic(auto, unfolding(crate::specs::Shapes::name_value_and_target))]
pub(crate) fn name_value_then_target<'a>(
    terms: &[Term<'a>],
) -> Option<(&'a [u8], Value<'a>, Target<'a>)>
    ensures { option_map (λ x. (bytes_seen x.0, value_seen x.1, target_seen x.2)) result
        ≡ name_value_and_target (terms_seen terms.now) }
{
    let (word, behind) = name(terms)?;
    let (value, behind) = value(comma(behind)?)?;
    let target = only_target(comma(behind)?)?;
    Some((word, value, target))
}
